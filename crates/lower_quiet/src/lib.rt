//! The law that the code of a program is as quiet as its text. The function here has no body: its contract is what is
//! proved.
#![tactic(auto)]

ghost use Rattle.lower_quiet.specs.Law.{QuietLaw};

/// In the code of a program that keeps the rule on nonblocking text (9.5) no thread, and no nonblocking subprogram, asks for
/// input or output, and each calls nonblocking subprograms alone; threads begin behind the forks of their constructs.
pub fn laws()
    ensures quiet { QuietLaw }
{}
