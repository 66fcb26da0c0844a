//! Memories, views and what is lent between them.
ghost use Rattle.std.specs.Prelude.{◌≡◌, ℕ, ℤ, pos, ◌+◌, ◌-◌, ◌<◌, ◌≤◌, ◌^◌, ◌++◌, ◌⊎◌, Some, None, length, take, set, replicate, cond, IfOk, true, false};
ghost use Rattle.cell_strip.specs.Strips.{cell, owns};
ghost use Rattle.cell_strip.specs.Regions.{covered};
ghost use Rattle.ada_base.specs.Cells.{Mine};
ghost use Rattle.cell_memory.specs.Sight.{cell_at, value_of, is_mine, is_gone, main_sight, thread_sight, stored, lent_out, taken_back, pushed, popped, lent_value, OwnThere, GivesBack};

use cell_strip::{Part, Region};
use std::alloc::{AllocError, Global};
use std::marker::Model;
use std::mem;

/// Cells that a view can own. A Memory must be freed, or given to a view.
pub struct Memory {
    part: Part,
}

impl Model for Memory {
    ghost use Rattle.cell_memory.specs.Sight.{Store};

    ghost Value = { Store };

    ghost use Rattle.cell_memory.specs.Wholes.{store, StoreWhole};

    ghost view = { store };

    ghost invariant = { StoreWhole };
}

impl Memory {
    /// So many cells of 0. An Err is want of memory.
    pub fn new(alloc: Global, n: u32) -> Result<Memory, AllocError>
        ensures { IfOk result (λ m. m.values ≡ replicate n (pos 0)) }
    {
        let part = Part::root(alloc, n)?;
        Ok(Memory { part })
    }

    /// Gives a cell a value. It takes no memory.
    pub fn set(&mut self, at: u64, value: i64)
        requires { at < length self.old.values }
        ensures { self.new ≡ record self.old { values = set self.old.values at value } }
    {
        let _size = self.part.size();
        self.part.set(at, value);
    }

    /// Gives the cells up. It takes no memory.
    pub fn free(self) {
        let Memory { part } = self;
        part.free();
    }
}

/// Cells that a main view lends: those of all regions of one thread, as one part of its block. A Lent must be put back, or
/// given to a view that is made over the one that lends.
pub struct Lent {
    part: Part,
}

impl Model for Lent {
    ghost use Rattle.cell_strip.specs.Strips.{Strip};

    ghost Value = { Strip };

    ghost view = { λ l. l.part };
}

/// What a view has below its own cells: cells of another view, to write, and all that the other has, to read.
pub struct Lower<'a> {
    lent: Part,
    outer: &'a Part,
}

/// What a path may read and write. The cells that stand last are its own: all of a main view, and those of a thread's view
/// that stand behind the cells of the main view over which it is made. A view must be given up by `into_lent`.
pub struct View<'a> {
    lower: Option<Lower<'a>>,
    base: u64,
    own: Part,
    len: u32,
}

impl<'a> Model for View<'a> {
    ghost use Rattle.cell_memory.specs.Sight.{Sight};

    ghost Value = { Sight };

    ghost use Rattle.cell_memory.specs.Wholes.{whole, Whole};

    ghost view = { whole };

    ghost invariant = { Whole };
}

impl<'a> View<'a> {
    /// The view to which a memory alone belongs. It takes no memory.
    pub fn main(own: Memory) -> View<'a>
        ensures { result ≡ main_sight own }
    {
        let Memory { part } = own;
        let len = part.size();
        View {
            lower: None,
            base: 0,
            own: part,
            len,
        }
    }

    /// A thread's view over a main view: it may write what it is lent and its own cells, and read what the main view has left.
    /// It takes no memory.
    pub fn thread(outer: &'a View<'a>, lent: Lent, own: Memory) -> View<'a>
        requires main { outer.now.held ≡ None }
        requires home { lent.block ≡ outer.now.home }
        ensures { result ≡ thread_sight outer.entry.now lent own }
    {
        let Lent { part: lent } = lent;
        let Memory { part } = own;
        let base = outer.len();
        let len = part.size();
        View {
            lower: Some(Lower {
                lent,
                outer: &outer.own,
            }),
            base,
            own: part,
            len,
        }
    }

    /// How many addresses it has, those that are lent out included.
    pub fn len(&self) -> u64
        ensures many { result ≡ length self.now.cells }
        ensures own { self.now.own ≤ length self.now.cells }
        ensures flat { self.now.held ≡ None → self.now.own ≡ length self.now.cells }
        ensures main { self.now.held ≡ None → (x : ℕ) → is_gone (cell_at self.now x) ≡ false → is_mine (cell_at self.now x) ≡ true }
        ensures small { (self.now.own < 2 ^ 32) × (length self.now.cells < 2 ^ 33) × (self.now.held ≡ None → length self.now.cells < 2 ^ 32) }
    {
        self.base + u64::from(self.len)
    }

    /// The value of a cell that it may read. It takes no memory and no search.
    #[inline(always)]
    pub fn get(&self, at: u64) -> i64
        requires { is_gone (cell_at self.now at) ≡ false }
        ensures { result ≡ value_of (cell_at self.now at) }
    {
        if at >= self.base {
            return self.own.get(at - self.base);
        }
        match &self.lower {
            Some(lower) => lower.lent.either(lower.outer, at),
            None => unreachable!(),
        }
    }

    /// Gives a cell that it may write a value. It takes no memory and no search.
    #[inline(always)]
    pub fn set(&mut self, at: u64, value: i64)
        requires { is_mine (cell_at self.old at) ≡ true }
        ensures { self.new ≡ stored self.old at value }
    {
        if at >= self.base {
            self.own.set(at - self.base, value);
            return;
        }
        match &mut self.lower {
            Some(lower) => lower.lent.set(at, value),
            None => unreachable!(),
        }
    }

    /// Lends those cells that one of the regions has and that it may write; the regions may be empty, and may have cells in
    /// common. They are gone until they are put back. It takes no memory.
    pub fn take(&mut self, regions: &[Region]) -> Lent
        requires main { self.old.held ≡ None }
        requires within { (x : ℕ) → covered regions.now x ≡ true → x < length self.old.cells }
        ensures view { self.new ≡ lent_out self.old regions.now }
        ensures home { result.block ≡ self.old.home }
        ensures cells { (x : ℕ) → cell result x ≡ cond (covered regions.now x) (lent_value (cell_at self.old x)) None }
    {
        Lent {
            part: self.own.cut_all(regions),
        }
    }

    /// Takes lent cells back with the values that they have now. It takes no memory.
    pub fn put_back(&mut self, lent: Lent)
        requires main { self.old.held ≡ None }
        requires home { lent.block ≡ self.old.home }
        ensures view { self.new ≡ taken_back self.old lent }
        ensures gone { (x : ℕ) (v : ℤ) → x < length self.old.cells → cell lent x ≡ Some v → is_gone (cell_at self.old x) ≡ true }
    {
        let Lent { part } = lent;
        self.own.join_part(part);
    }

    /// Makes the spare room at least `n` cells, and changes nothing else. An Err is want of memory.
    pub fn reserve(&mut self, n: u32) -> Result<(), AllocError>
        requires { OwnThere self.old }
        ensures ok { IfOk result (λ _. n ≤ self.new.spare) }
        ensures rest { (self.new.cells ≡ self.old.cells) × (self.new.own ≡ self.old.own) × (self.new.held ≡ self.old.held) }
    {
        let size = self.own.size();
        if size - self.len >= n {
            return Ok(());
        }
        let Some(least) = self.len.checked_add(n) else {
            return Err(AllocError);
        };
        // By a quarter more: while the cells are copied both blocks take memory.
        let many = least.max(size.saturating_add(size / 4));
        let own = copied(&self.own, self.len, many)?;
        let before = mem::replace(&mut self.own, own);
        before.free();
        Ok(())
    }

    /// Adds `n` cells of 0 behind the others. It takes no memory.
    pub fn push_frame(&mut self, n: u32)
        requires { n ≤ self.old.spare }
        ensures { self.new ≡ pushed self.old n }
    {
        clear(&mut self.own, self.len, n);
        self.len += n;
    }

    /// Takes the last `n` of its own cells off. It takes no memory.
    pub fn pop_frame(&mut self, n: u32)
        requires own { n ≤ self.old.own }
        requires there { (x : ℕ) → length self.old.cells - n ≤ x → x < length self.old.cells → is_gone (cell_at self.old x) ≡ false }
        ensures { self.new ≡ popped self.old n }
    {
        self.len -= n;
    }

    /// Gives its own cells up, and what it was made with back, with the values that the cells have now: nothing for a main view.
    /// It takes no memory.
    pub fn into_lent(self) -> Option<Lent>
        requires { OwnThere self }
        ensures { GivesBack self.entry result }
    {
        let View {
            lower,
            base: _,
            own,
            len: _,
        } = self;
        own.free();
        match lower {
            Some(Lower { lent, outer: _ }) => Some(Lent { part: lent }),
            None => None,
        }
    }
}

// A part of a new block of `many` cells, the first `len` of which are another part's.
fn copied(from: &Part, len: u32, many: u32) -> Result<Part, AllocError>
    requires fits { len ≤ many }
    requires there { (x : ℕ) → x < len → owns from.now x ≡ true }
    ensures { IfOk result (λ p. (p.block.many ≡ many) × ((x : ℕ) → x < many → owns p x ≡ true) × ((x : ℕ) → x < len → cell p x ≡ cell from.now x)) }
{
    let mut part = Part::root(from.alloc(), many)?;
    for i in 0..len {
        part.set(u64::from(i), from.get(u64::from(i)));
    }
    Ok(part)
}

// Sets `n` cells from `start` on to 0.
fn clear(part: &mut Part, start: u32, n: u32)
    requires fits { start + n < 2 ^ 32 }
    requires there { (x : ℕ) → start ≤ x → x < start + n → owns part.old x ≡ true }
    ensures block { part.new.block ≡ part.old.block }
    ensures zeros { (x : ℕ) → start ≤ x → x < start + n → cell part.new x ≡ Some (pos 0) }
    ensures others { (x : ℕ) → (x < start) ⊎ (start + n ≤ x) → cell part.new x ≡ cell part.old x }
{
    for i in 0..n {
        part.set(u64::from(start + i), 0);
    }
}
