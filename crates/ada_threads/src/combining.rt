// What the threads of a construct come to.
ghost use Rattle.std.specs.Prelude.{◌≡◌, ◌∷◌, [], IfOk};
ghost use Rattle.stack_code.specs.Deeds.{bit, truth, differ};
ghost use Rattle.stack_code.specs.declared.code.Code.{Code as CodeOf};
ghost use Rattle.stack_code.specs.declared.path.Asked.{Asked as AskedOf};
ghost use Rattle.stack_code.specs.declared.path.Gave.TheVariants as gave;
ghost use Rattle.ada_lower.specs.Driven.{answer_of, plain_applied, combine_by, combined_by, onto_by, raised_or};

use ada_base::{Base, Items, Op, Reason, modular};
use ada_machine::operands::plain_applied;
use stack_code::{Gave, Leave, Reducer, SiteKind};
use std::alloc::{AllocError, Global};

// Whether the truth values differ.
fn difference(a: i64, b: i64) -> i64
    ensures { result ≡ bit (differ (truth a) (truth b)) }
{
    if (a != 0) != (b != 0) { 1 } else { 0 }
}

// Two accumulators of another type than a modular one.
fn combine_plain(op: Op, base: Base, a: i64, b: i64) -> Option<i64>
    ensures { (c : CodeOf) → result ≡ plain_applied c op base a b }
{
    match op {
        Op::And | Op::Min => Some(a.min(b)),
        Op::Or | Op::Max => Some(a.max(b)),
        Op::Xor => Some(difference(a, b)),
        Op::Add => plain_applied(Op::Add, base, a, b),
        Op::Sub => plain_applied(Op::Sub, base, a, b),
        Op::Mul => plain_applied(Op::Mul, base, a, b),
        Op::Div => plain_applied(Op::Div, base, a, b),
        Op::Mod => plain_applied(Op::Mod, base, a, b),
        Op::Rem => plain_applied(Op::Rem, base, a, b),
        Op::Pow => plain_applied(Op::Pow, base, a, b),
    }
}

// Two accumulators. None is Constraint_Error.
fn combine_two(by: Reducer, a: i64, b: i64) -> Option<i64>
    ensures { (c : CodeOf) → result ≡ combine_by c by a b }
{
    match by.base {
        Base::Modulo(k) => modular(by.op, k, a, b),
        Base::Narrow => combine_plain(by.op, Base::Narrow, a, b),
        Base::Wide => combine_plain(by.op, Base::Wide, a, b),
    }
}

// Accumulators onto the first one.
fn onto(by: Reducer, first: i64, rest: &[i64]) -> Option<i64>
    ensures { (c : CodeOf) → onto_by c by first rest.now ≡ raised_or c result (λ v. gave.Numbers (v ∷ [])) }
{
    let mut so_far = first;
    for part in rest {
        so_far = combine_two(by, so_far, *part)?;
    }
    Some(so_far)
}

fn one(alloc: Global, value: i64) -> Result<Gave, AllocError>
    ensures { IfOk result (λ r. r ≡ gave.Numbers (value ∷ [])) }
{
    let mut numbers = Items::new(alloc);
    numbers.push(value)?;
    Ok(Gave::Numbers(numbers))
}

fn one_or_raise(alloc: Global, value: Option<i64>) -> Result<Gave, AllocError>
    ensures { IfOk result (λ r. (c : CodeOf) → r ≡ raised_or c value (λ v. gave.Numbers (v ∷ []))) }
{
    match value {
        Some(value) => one(alloc, value),
        None => Ok(Gave::Left(Leave::Raise(Reason::ConstraintError))),
    }
}

// The accumulators of a reduction, combined by its operator; or all of them, where a function is called with them.
fn combined(
    alloc: Global,
    by: Option<Reducer>,
    initial: i64,
    parts: Items<i64>,
) -> Result<Gave, AllocError>
    ensures { IfOk result (λ r. (c : CodeOf) → r ≡ combined_by c by initial parts) }
{
    match parts.as_slice().split_first() {
        None => one(alloc, initial),
        Some((first, rest)) => match by {
            None => Ok(Gave::Numbers(parts)),
            Some(by) => one_or_raise(alloc, onto(by, *first, rest)),
        },
    }
}

/// What a construct answers whose threads came to their ends: nothing, or the accumulators of a reduction (4.5.10). An Err is
/// want of memory.
pub fn answer_of(
    alloc: Global,
    kind: SiteKind,
    initial: i64,
    parts: Items<i64>,
) -> Result<Gave, AllocError>
    ensures { IfOk result (λ r. (c : CodeOf) (q : AskedOf) → q.initial ≡ initial → r ≡ answer_of c kind q (gave.Numbers parts)) }
{
    match kind {
        SiteKind::Loop | SiteKind::ChunkLoop | SiteKind::Block(_) => Ok(Gave::Nothing),
        SiteKind::Reduction(by) => combined(alloc, by, initial, parts),
        SiteKind::ChunkReduction(by) => combined(alloc, by, initial, parts),
    }
}
