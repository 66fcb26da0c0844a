//! What a function that reduces is given (4.5.10).

ghost use Rattle.std.specs.Prelude.{◌≡◌};
ghost use Rattle.typed_tree.specs.Decoded.{formals_in, leaves_at};
ghost use Rattle.ada_meaning.specs.Meaning.{formal_at};
ghost use Rattle.run_values.specs.Values.{OrNoMemory};
ghost use Rattle.run_parts.specs.Passing.{passed_list, passed_of, value_passed};
ghost use Rattle.run_parts.specs.Reducing.{both_hold};
ghost use Rattle.run_parts.specs.Words as spec;
ghost use Rattle.run_parts.specs.Words.{nodes_of};

use crate::cells::one;
use crate::copies::find_sub;
use crate::passed::{Passed, push};
use crate::work::Work;
use ada_base::Items;
use run_store::Object;
use run_values::{End, is_in};
use typed_tree::{Leaf, Scalar};

/// An accumulator and a value for a function that reduces, the subtypes of its parameters, and its token.
#[derive(Clone, Copy)]
pub struct Both {
    pub at: u32,
    pub accumulator: Scalar,
    pub value: Scalar,
    pub a: i64,
    pub b: i64,
}

impl Both {
    /// Whether both are of their subtypes.
    pub fn hold(self) -> bool
        ensures { result ≡ both_hold self }
    {
        is_in(self.accumulator, self.a) && is_in(self.value, self.b)
    }
}

/// The two actual parameters of a function that reduces.
#[tactic(auto, using(crate::proofs::Reducing::both_passed))]
pub fn reduced_by(work: &Work<'_>, sub: u32, a: i64, b: i64) -> Result<Items<Passed>, End>
    ensures { OrNoMemory (λ passed. passed_list work.now passed ≡ spec.reduced_by work.now sub a b) result }
{
    let first = value_passed(work, formal_of(work, sub, 0), a)?;
    let second = value_passed(work, formal_of(work, sub, 1), b)?;
    let alone = push(work, Items::new(work.alloc), first)?;
    let both = push(work, alone, second)?;
    Ok(both)
}

fn value_passed(work: &Work<'_>, formal: u32, value: i64) -> Result<Passed, End>
    ensures { OrNoMemory (λ passed. passed_of work.now passed ≡ value_passed formal value) result }
{
    let cells = one(work, value)?;
    Ok(Passed {
        formal: Object::Constant(formal),
        cells,
        back: None,
    })
}

// the object of a formal parameter of a subprogram
fn formal_of(work: &Work<'_>, sub: u32, number: u32) -> u32
    ensures { result ≡ spec.formal_of work.now sub number }
{
    match find_sub(work, sub) {
        None => 0,
        Some(sub) => formal_in(work, sub.formals, number),
    }
}

fn formal_in(work: &Work<'_>, id: u32, number: u32) -> u32
    ensures { result ≡ formal_at (formals_in (leaves_at (nodes_of work.now) id)) number }
{
    match work.typed.nodes.leaf(id) {
        None => 0,
        Some(cell) => match cell.leaf {
            Leaf::Formal(formal) => {
                if number == 0 {
                    formal.object
                } else {
                    formal_in(work, cell.rest, number - 1)
                }
            }
            _ => formal_in(work, cell.rest, number),
        },
    }
}
