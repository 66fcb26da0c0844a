//! Actual parameters that were evaluated, and what a call gives (6.4).

ghost use Rattle.std.specs.Prelude.{◌≡◌, ◌∷◌, ◌++◌, []};
ghost use Rattle.run_values.specs.Values.{OrNoMemory};
ghost use Rattle.run_parts.specs.Passing.{passed_of, passed_list};

use crate::copies::BackCells;
use crate::held::Cells;
use crate::work::Work;
use ada_base::Items;
use run_store::{Object, ObjectPart};
use run_values::End;
use typed_tree::{Check, Scalar};

/// The subtypes of cells: a scalar's, or those of a whole array or record.
#[derive(Clone, Copy)]
pub enum Shape {
    Single(Scalar),
    Whole(u32),
}

/// Where a parameter is copied back (6.4.1), and the check of a scalar.
#[derive(Clone, Copy)]
pub struct Back {
    pub part: ObjectPart,
    pub shape: Shape,
    pub check: Option<Check>,
}

/// An actual parameter that was evaluated: the formal, its first cells, and where it is copied back.
#[derive(Drop)]
pub struct Passed {
    pub formal: Object,
    pub cells: Cells,
    pub back: Option<Back>,
}

/// What a call gives: a function's value, and the cells that are copied back.
#[derive(Drop)]
pub struct Returned {
    pub value: i64,
    pub cells: BackCells,
}

/// One more actual parameter.
pub fn push(work: &Work<'_>, passed: Items<Passed>, one: Passed) -> Result<Items<Passed>, End>
    ensures { OrNoMemory (λ more. passed_list work.now more ≡ passed_list work.now passed ++ passed_of work.now one ∷ []) result }
{
    let _ = work;
    let mut more = passed;
    match more.push(one) {
        Ok(()) => Ok(more),
        Err(_) => Err(End::NoMemory),
    }
}
