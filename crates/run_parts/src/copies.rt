//! Copies into and out of calls (6.4.1), and first cells of objects.

ghost use Rattle.std.specs.Prelude.{◌≡◌, ◌++◌, ◌∷◌, [], drop, map, option_map, replicate, take};
ghost use Rattle.typed_tree.specs.Programs.{program, sub_of};
ghost use Rattle.ada_meaning.specs.Meaning as meaning;
ghost use Rattle.run_store.specs.Shows.{Shows, entity_of};
ghost use Rattle.run_values.specs.Values.{OrNoMemory};
ghost use Rattle.run_parts.specs.Passing.{passed_list, back_option};
ghost use Rattle.run_parts.specs.Words as spec;
ghost use Rattle.run_parts.specs.Words.{object_defaults};

use crate::cells::{one, read_whole, write_all};
use crate::held::Cells;
use crate::passed::{Back, Passed, Shape};
use crate::work::Work;
use ada_base::{Items, Reason};
use run_outside::Port;
use run_store::{Object, Store};
use run_values::{End, Leave, defaults_of, is_in};
use std::alloc::Global;
use std::marker::Model;
use typed_tree::{Check, Sub};

/// What is copied back of each parameter, in order, which contracts see as a list of lists. The empty ones in front take
/// no memory.
#[derive(Drop)]
pub struct BackCells {
    before: usize,
    lists: Items<Cells>,
}

impl Model for BackCells {
    ghost use Rattle.std.specs.Prelude.{ℤ, List, [], ◌++◌, replicate};

    ghost Value = { List (List ℤ) };

    ghost view = { λ b. replicate b.before [] ++ b.lists };
}

impl BackCells {
    /// Of no parameter.
    pub fn new(alloc: Global) -> BackCells
        ensures { result ≡ [] }
    {
        BackCells {
            before: 0,
            lists: Items::new(alloc),
        }
    }

    /// One parameter more.
    #[tactic(auto, using(crate::proofs::Copying::one_before, crate::proofs::Copying::one_behind))]
    pub fn push(self, cells: Cells) -> Result<BackCells, End>
        ensures { OrNoMemory (λ more. more ≡ self ++ cells ∷ []) result }
    {
        let BackCells { before, mut lists } = self;
        if cells.is_empty() && lists.is_empty() {
            match before.checked_add(1) {
                Some(before) => Ok(BackCells { before, lists }),
                None => Err(End::NoMemory),
            }
        } else {
            match lists.push(cells) {
                Ok(()) => Ok(BackCells { before, lists }),
                Err(_) => Err(End::NoMemory),
            }
        }
    }
}

/// The subprogram of a number.
pub fn find_sub(work: &Work<'_>, number: u32) -> Option<Sub>
    ensures { meaning.sub_at (program work.now.typed.now).subs number ≡ option_map (sub_of work.now.typed.now.nodes) result }
{
    work.typed.sub(number)
}

/// The cells of the formals that are copied back, behind others.
pub fn back_cells<P: Port + Drop>(
    work: &Work<'_>,
    passed: &[Passed],
    out: BackCells,
    store: &Store<P>,
) -> Result<BackCells, End>
    ensures { Shows P.Tells (spec.back_cells work.now (passed_list work.now passed.now) out) result store.now store.now }
{
    let BackCells { before, lists } = out;
    if lists.is_empty() {
        let kept = kept_in_front(passed);
        match before.checked_add(kept) {
            None => Err(End::NoMemory),
            Some(before) => {
                let rest = behind(passed, kept);
                back_cells_behind(work, rest, BackCells { before, lists }, store)
            }
        }
    } else {
        back_cells_behind(work, passed, BackCells { before, lists }, store)
    }
}

// how many parameters in front aren't copied back
fn kept_in_front(passed: &[Passed]) -> usize
    ensures { map (λ p. p.back) (take result passed.now) ≡ replicate result None }
{
    let mut kept = 0;
    while let Some(first) = passed.get(kept) {
        if first.back.is_some() {
            return kept;
        }
        kept += 1;
    }
    kept
}

#[tactic(auto, unfolding(ada_meaning::specs::Stored::bind, ada_meaning::specs::Stored::ret, ada_meaning::specs::Stored::leaves, ada_meaning::specs::Stored::spent, ada_meaning::specs::Stored::handles, crate::specs::Words::back_cells))]
fn back_cells_behind<P: Port + Drop>(
    work: &Work<'_>,
    passed: &[Passed],
    out: BackCells,
    store: &Store<P>,
) -> Result<BackCells, End>
    ensures { Shows P.Tells (spec.back_cells work.now (passed_list work.now passed.now) out) result store.now store.now }
{
    match passed.split_first() {
        None => Ok(out),
        Some((first, rest)) => {
            let cells = cells_back(work, first.formal, first.back, store)?;
            let more = out.push(cells)?;
            let all = back_cells_behind(work, rest, more, store)?;
            Ok(all)
        }
    }
}

#[tactic(auto, unfolding(ada_meaning::specs::Stored::bind, ada_meaning::specs::Stored::ret, ada_meaning::specs::Stored::leaves, ada_meaning::specs::Stored::spent, ada_meaning::specs::Stored::handles, crate::specs::Words::read_all))]
fn cells_back<P: Port + Drop>(
    work: &Work<'_>,
    formal: Object,
    back: Option<Back>,
    store: &Store<P>,
) -> Result<Cells, End>
    ensures { Shows P.Tells (spec.cells_back work.now (entity_of formal) (back_option work.now back)) result store.now store.now }
{
    match back {
        None => Ok(Cells::many(Items::new(work.alloc))),
        Some(back) => match back.shape {
            Shape::Single(_) => {
                let value = store.read(formal, 0)?;
                let values = one(work, value)?;
                Ok(values)
            }
            Shape::Whole(subtype) => {
                let values = read_whole(work, formal, 0, subtype, store)?;
                Ok(Cells::many(values))
            }
        },
    }
}

/// What is copied back after a call, from left to right.
pub fn all_copied_back<P: Port + Drop>(
    work: &Work<'_>,
    calls: u32,
    passed: &[Passed],
    cells: &BackCells,
    store: &mut Store<P>,
) -> Result<(), End>
    ensures { Shows P.Tells (spec.all_copied_back work.now calls (passed_list work.now passed.now) cells.now) result store.old store.new }
{
    let rest = behind(passed, cells.before);
    copied_behind(work, calls, rest, cells.lists.as_slice(), store)
}

// the actual parameters behind so many
fn behind(passed: &[Passed], count: usize) -> &[Passed]
    ensures { result.now ≡ drop count passed.now }
{
    if count <= passed.len() {
        &passed[count..]
    } else {
        &passed[passed.len()..]
    }
}

#[tactic(auto, unfolding(ada_meaning::specs::Stored::bind, ada_meaning::specs::Stored::ret, ada_meaning::specs::Stored::leaves, ada_meaning::specs::Stored::spent, ada_meaning::specs::Stored::handles, crate::specs::Words::all_copied_back))]
fn copied_behind<P: Port + Drop>(
    work: &Work<'_>,
    calls: u32,
    passed: &[Passed],
    cells: &[Cells],
    store: &mut Store<P>,
) -> Result<(), End>
    ensures { Shows P.Tells (spec.all_copied_back work.now calls (passed_list work.now passed.now) cells.now) result store.old store.new }
{
    match passed.split_first() {
        None => Ok(()),
        Some((first, rest)) => match cells.split_first() {
            None => Ok(()),
            Some((values, others)) => {
                copied_back(work, calls, first.back, values.as_slice(), store)?;
                copied_behind(work, calls, rest, others, store)?;
                Ok(())
            }
        },
    }
}

#[tactic(auto, unfolding(ada_meaning::specs::Stored::bind, ada_meaning::specs::Stored::ret, ada_meaning::specs::Stored::leaves, ada_meaning::specs::Stored::spent, ada_meaning::specs::Stored::handles, crate::specs::Words::write_all))]
fn copied_back<P: Port + Drop>(
    work: &Work<'_>,
    calls: u32,
    back: Option<Back>,
    values: &[i64],
    store: &mut Store<P>,
) -> Result<(), End>
    ensures { Shows P.Tells (spec.copied_back work.now calls (back_option work.now back) values.now) result store.old store.new }
{
    match back {
        None => Ok(()),
        Some(back) => {
            if holds_back(back.check, values) {
                write_all(work, back.part.object, back.part.offset, values, store)?;
                Ok(())
            } else {
                Err(End::Left(Leave::Raises(Reason::ConstraintError)))
            }
        }
    }
}

fn holds_back(check: Option<Check>, values: &[i64]) -> bool
    ensures { result ≡ spec.holds_back check values.now }
{
    match check {
        None => true,
        Some(check) => match values.split_first() {
            None => true,
            Some((first, _)) => is_in(check.scalar, *first),
        },
    }
}

/// The cells of a variable without an initial value.
pub fn first_cells(work: &Work<'_>, object: u32) -> Result<Items<i64>, End>
    ensures { OrNoMemory (λ values. values ≡ object_defaults work.now object) result }
{
    let mut values = Items::new(work.alloc);
    match work.typed.objects.get(object as usize) {
        None => Ok(values),
        Some(object) => {
            defaults_of(work.typed, object.subtype, &mut values)?;
            Ok(values)
        }
    }
}
