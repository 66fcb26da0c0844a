ghost use Rattle.std.specs.Prelude.{◌≡◌};
ghost use Rattle.ada_base.specs.Operation.{result_of};
ghost use Rattle.ada_reduce.specs.Folds.{AreTaken, IsTaken, combined, fold_of};
ghost use Rattle.ada_reduce.specs.Laws.{ReassociationLaw};

use ada_base::{Base, Op, apply, modular};

fn step(op: Op, base: Base, a: i64, b: i64) -> Option<i64>
    requires { IsTaken op base a × IsTaken op base b }
    ensures { result ≡ result_of op base a b }
{
    match base {
        Base::Modulo(k) => modular(op, k, a, b),
        Base::Narrow => apply(op, Base::Narrow, a, b),
        Base::Wide => apply(op, Base::Wide, a, b),
    }
}

/// The values folded by an operator onto the first number, from the left (4.5.10). None exactly where some step raises
/// Constraint_Error. It takes no memory.
pub fn fold(op: Op, base: Base, start: i64, values: &[i64]) -> Option<i64>
    requires start { IsTaken op base start }
    requires values { AreTaken op base values.now }
    ensures { result ≡ fold_of op base start values.now }
{
    let mut so_far = start;
    for value in values {
        so_far = step(op, base, so_far, *value)?;
    }
    Some(so_far)
}

/// The accumulators of chunks, combined by an operator from the left: the second and later ones onto the first, and the
/// initial value where there is no chunk (4.5.10). None exactly where some step raises Constraint_Error. It takes no memory.
pub fn combine(op: Op, base: Base, initial: i64, parts: &[i64]) -> Option<i64>
    requires parts { AreTaken op base parts.now }
    ensures { result ≡ combined op base initial parts.now }
{
    match parts.split_first() {
        None => Some(initial),
        Some((first, rest)) => fold(op, base, *first, rest),
    }
}

/// The law of re-association: for an operator and an initial value of the list, and values without partial overflow, it
/// makes no difference how the values are cut into chunks.
pub fn reassociation_law()
    ensures { ReassociationLaw }
{}
