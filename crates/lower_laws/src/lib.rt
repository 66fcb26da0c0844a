//! Laws of the code of typed programs: programs fit their code, and its leases are of granted paths (9.10.1). The function here
//! has no body: its contract is what is proved.
#![tactic(auto)]

ghost use Rattle.lower_laws.specs.CodeLaw.{LoweredLaw, ReadyLaw, SurroundedLaw};
ghost use Rattle.lower_laws.specs.LeasesLaw.{FitLaw, GrantedLaw, LeasedLaw, LentLaw, NamesLaw, SeenLaw};

/// The code of a typed program fits what the laws of code ask (`IsLowered`): each name is in scope and leads to cells enough,
/// frames have room for what is kept, and no object is declared twice (3.6, 3.8, 6.4.1, 8.2). That holds of each program that
/// names have formed, whose names are in scope, none of whose arrays is empty and no exit of which leaves a body, where parallel
/// constructs have numbers of their own (lowered). It is ready for its code (`IsReady`), and its objects may be declared without
/// an initial value (ready). The rows of its constructs tell the bodies in which they stand (surrounded), a result for a
/// reader.
///
/// What the leases are that are computed of the paths that `accept` of check_conflicts grants, in the code of a program in
/// scope, each of whose constructs has a number of its own:
/// - granted: its grants are the paths of each site, by the number of the site and of the arm.
/// - lent: the leases that are computed of these paths are those of what the threads of each construct may write, where what
///   they may write is in scope at the construct, where the names say.
/// - names: what is in scope there lies where the lists of the program's variables and constructs say.
/// - leased: so with these lists the leases are those of what the threads of each construct may write, where that is in scope;
///   of a construct over an array by the positions of its items.
/// - fit: each lease is of a frame that the fork of its construct sees, whatever is granted.
/// - seen: what the threads of each construct may write, themselves or by calls, is in scope where it stands, in code that fits a
///   program whose names are in scope.
pub fn laws()
    ensures lowered { LoweredLaw }
    ensures ready { ReadyLaw }
    ensures surrounded { SurroundedLaw }
    ensures granted { GrantedLaw }
    ensures lent { LentLaw }
    ensures names { NamesLaw }
    ensures leased { LeasedLaw }
    ensures fit { FitLaw }
    ensures seen { SeenLaw }
{}
