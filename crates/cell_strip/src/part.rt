//! One block of cells, parts of which are owned apart from each other.
ghost use Rattle.std.specs.Prelude.{◌≡◌, ℕ, ◌+◌, ◌<◌, ◌⊎◌, Some, None, length, replicate, IfOk, true, not, cond, pos};
ghost use Rattle.cell_strip.specs.Ownership.{kept, merged, or_else};
ghost use Rattle.cell_strip.specs.Strips.{Strip, is_there, either_cell, cell, owns, stored, with_cells};
ghost use Rattle.cell_strip.specs.Regions.{has, covered};

use crate::cells::{Base, Cells, Deed, allocate, deallocate};
use crate::region::Region;
use std::alloc::{AllocError, Global};
use std::marker::Model;
use std::mem;

/// Some of the cells of a block, each of which holds a number of 64 bits. Contracts see the block, which is a name and a
/// number of cells, and which cells the part owns with their values. No two parts own one cell. A part must be spent: by
/// `free`, by `join_part`, or as what another type is made of. Another thread may take it over, and several may read it.
pub struct Part {
    base: Base<i64>,
    many: u32,
    cells: Cells<i64>,
    deed: Option<Deed<i64, Global>>,
    alloc: Global,
}

impl Model for Part {
    ghost use Rattle.cell_strip.specs.Strips.{Strip};

    ghost Value = { Strip };

    ghost use Rattle.cell_strip.specs.Parts.{seen, Whole};

    ghost view = { seen };

    ghost invariant = { Whole };
}

// Takes the right to free the block out, where it goes.
fn take_deed(deed: &mut Option<Deed<i64, Global>>, goes: bool) -> Option<Deed<i64, Global>>
    ensures { (result ≡ cond goes deed.old None) × (deed.new ≡ cond goes None deed.old) }
{
    if goes { deed.take() } else { None }
}

// Puts the right to free the block, which one of two parts has at most, in its place.
fn join_deeds(ours: &mut Option<Deed<i64, Global>>, theirs: Option<Deed<i64, Global>>)
    ensures { ours.new ≡ or_else ours.old theirs }
{
    let spare = if ours.is_some() {
        theirs
    } else {
        mem::replace(ours, theirs)
    };
    if let Some(deed) = spare {
        deed.spend();
    }
}

// Fills the new block's cells.
fn zeros(cells: &mut Cells<i64>, base: Base<i64>, many: usize)
    requires { (base.ptr ≡ cells.old.at) × (cells.old.slots ≡ replicate many (Some None)) }
    ensures { (cells.new.at ≡ cells.old.at) × (cells.new.slots ≡ replicate many (Some (Some (pos 0)))) }
{
    for i in 0..many {
        cells.write(base, i, 0);
    }
}

impl Part {
    /// The value of a cell that it owns. It takes no memory and no search.
    #[inline(always)]
    pub fn get(&self, at: u64) -> i64
        requires { owns self.now at ≡ true }
        ensures { cell self.now at ≡ Some result }
    {
        *self.cells.get(self.base, at as usize)
    }

    /// Gives a cell that it owns a value. It takes no memory and no search.
    #[inline(always)]
    pub fn set(&mut self, at: u64, value: i64)
        requires { owns self.old at ≡ true }
        ensures { self.new ≡ stored self.old at value }
    {
        let base = self.base;
        let _ = self.cells.read(base, at as usize);
        self.cells.write(base, at as usize, value);
    }

    /// The value of a cell that one of two parts of a block owns, by one load: it doesn't ask which of them.
    #[inline(always)]
    pub fn either(&self, other: &Part, at: u64) -> i64
        requires block { self.now.block ≡ other.now.block }
        requires there { is_there (either_cell self.now other.now at) ≡ true }
        ensures { either_cell self.now other.now at ≡ Some result }
    {
        *self.cells.either(&other.cells, self.base, at as usize)
    }

    /// Moves those of the region's cells out that it owns, where the block begins at the address `start`. It takes no
    /// memory, and the same time for each region.
    pub fn cut(&mut self, region: Region, start: u64) -> Part
        ensures taken { result ≡ with_cells self.old (kept (λ x. has region (start + x)) 0 self.old.cells) }
        ensures left { self.new ≡ with_cells self.old (kept (λ x. not (has region (start + x))) 0 self.old.cells) }
    {
        let first = region.has(start);
        let cells = self.cells.split(region, start);
        let deed = take_deed(&mut self.deed, first);
        Part {
            base: self.base,
            many: self.many,
            cells,
            deed,
            alloc: self.alloc,
        }
    }

    /// The allocator that its block is from.
    pub fn alloc(&self) -> Global {
        self.alloc
    }

    /// How many cells its block has, those of other parts included.
    pub fn size(&self) -> u32
        ensures many { result ≡ self.now.block.many }
        ensures long { length self.now.cells ≡ self.now.block.many }
    {
        self.many
    }

    /// Moves those cells out that it owns and that one of the regions has, where the block begins at the address 0. The
    /// regions may have cells in common. It takes no memory.
    pub fn cut_all(&mut self, regions: &[Region]) -> Part
        ensures taken { result ≡ with_cells self.old (kept (covered regions.now) 0 self.old.cells) }
        ensures left { self.new ≡ with_cells self.old (kept (λ x. not (covered regions.now x)) 0 self.old.cells) }
    {
        let mut taken = self.cut(Region::none(), 0);
        for i in 0..regions.len() {
            let part = self.cut(regions[i], 0);
            taken.join_part(part);
        }
        taken
    }

    /// Takes over the cells of another part of the same block. It takes no memory.
    pub fn join_part(&mut self, other: Part)
        requires { self.old.block ≡ other.block }
        ensures apart { (x : ℕ) → (cell self.old x ≡ None) ⊎ (cell other x ≡ None) }
        ensures union { self.new ≡ with_cells self.old (merged self.old.cells other.cells) }
    {
        let Part {
            base: _,
            many: _,
            cells,
            deed,
            alloc: _,
        } = other;
        self.cells.merge(cells);
        join_deeds(&mut self.deed, deed);
    }

    /// Gives the block back, of which it owns every cell. It takes no memory.
    pub fn free(self)
        requires { (x : ℕ) → x < self.block.many → owns self x ≡ true }
    {
        let Part {
            base,
            many,
            cells,
            deed,
            alloc,
        } = self;
        match deed {
            Some(deed) => deallocate(&alloc, base, many as usize, cells, deed),
            None => cells.end(),
        }
    }

    /// A new block of `many` cells of 0, owned whole. An Err is want of memory.
    pub fn root(alloc: Global, many: u32) -> Result<Part, AllocError>
        ensures { IfOk result (λ p. (p.block.many ≡ many) × (p.cells ≡ replicate many (Some (pos 0)))) }
    {
        let (base, mut cells, deed) = allocate(&alloc, many as usize)?;
        zeros(&mut cells, base, many as usize);
        Ok(Part {
            base,
            many,
            cells,
            deed: Some(deed),
            alloc,
        })
    }
}
