//! The names that are declared somewhere: a list that is copied in little time, and in which a name is found at once.

ghost use Rattle.std.specs.Prelude.{◌≡◌, ◌-◌, ◌<◌, ◌∷◌, ◌++◌, [], IfOk, OnOk, ℕ, drop, length, option_map};
ghost use Rattle.name_rules.specs.Indexed.{Indexed, head_at, last_of, reached, taken_from};

use crate::scope::{Entry, What};
use ada_base::Items;
use std::alloc::{AllocError, Global};
use std::marker::Model;
use std::mem::replace;
use std::rc::Rc;

/// How many more entries are searched one by one: so many where others share what is indexed, and else so many less.
const ROOM: usize = 1024;

const SHARED: usize = 960;

/// What a name is declared as last, and at which place of the list.
#[derive(Clone, Copy)]
pub struct Latest {
    pub place: usize,
    pub what: What,
}

/// A list of entries with the latest one of each name, by its symbol.
#[derive(Drop)]
struct Index {
    entries: Items<Entry>,
    heads: Items<Option<Latest>>,
}

impl Model for Index {
    ghost use Rattle.std.specs.Prelude.{List};
    ghost use Rattle.name_rules.specs.declared.scope.Entry.{Entry};

    ghost Value = { List Entry };

    ghost use Rattle.name_rules.specs.Indexed.{Indexed};

    ghost view = { λ index. index.entries };

    ghost invariant = { λ index. Indexed index.heads index.entries };
}

/// Makes the table of names so long that it has a place for a symbol.
#[tactic(auto, using(crate::proofs::Heads::head_none))]
fn widened(heads: &mut Items<Option<Latest>>, symbol: usize) -> Result<(), AllocError>
    ensures { OnOk result ((symbol < length heads.new) × ((name : ℕ) → head_at heads.new name ≡ head_at heads.old name)) }
{
    'heads: while heads.len() <= symbol {
        heads.push(None)?;
    }
    Ok(())
}

/// One more entry, the latest, in a list and its table of names.
#[tactic(auto, using(crate::proofs::Heads::noted_indexed))]
fn noted(
    entries: &mut Items<Entry>,
    heads: &mut Items<Option<Latest>>,
    entry: Entry,
) -> Result<(), AllocError>
    ensures { OnOk result ((entries.new ≡ entries.old ++ entry ∷ []) × (Indexed heads.old entries.old → Indexed heads.new entries.new)) }
{
    let symbol = entry.symbol as usize;
    widened(heads, symbol)?;
    let latest = Latest {
        place: entries.len(),
        what: entry.what,
    };
    heads.set(symbol, Some(latest));
    entries.push(entry)?;
    Ok(())
}

/// More entries, the latest ones, in a list and its table of names.
#[tactic(auto, using(crate::proofs::Heads::append_one, crate::proofs::Heads::append_none, crate::proofs::Heads::drop_get, crate::proofs::Heads::drop_none, crate::proofs::Heads::drop_less))]
fn all_noted(
    entries: &mut Items<Entry>,
    heads: &mut Items<Option<Latest>>,
    more: &Items<Entry>,
) -> Result<(), AllocError>
    ensures { OnOk result ((entries.new ≡ entries.old ++ more.now) × (Indexed heads.old entries.old → Indexed heads.new entries.new)) }
{
    let mut i = 0;
    'more: while let Some(entry) = more.get(i) {
        noted(entries, heads, *entry)?;
        if i == usize::MAX {
            return Err(AllocError);
        }
        i += 1;
    }
    Ok(())
}

impl Index {
    /// No entry.
    #[tactic(auto, using(crate::proofs::Heads::indexed_none))]
    fn new(alloc: Global) -> Index
        ensures { result ≡ [] }
    {
        Index {
            entries: Items::new(alloc),
            heads: Items::new(alloc),
        }
    }

    /// These entries with more behind them.
    fn with_all(self, more: &Items<Entry>) -> Result<Index, AllocError>
        ensures { IfOk result (λ index. index ≡ self ++ more.now) }
    {
        let Index {
            mut entries,
            mut heads,
        } = self;
        all_noted(&mut entries, &mut heads, more)?;
        Ok(Index { entries, heads })
    }

    /// A copy of these entries with more behind them.
    fn extended(&self, alloc: Global, more: &Items<Entry>) -> Result<Index, AllocError>
        ensures { IfOk result (λ index. index ≡ self.now ++ more.now) }
    {
        let mut entries = Items::new(alloc);
        entries.extend(self.entries.as_slice())?;
        let mut heads = Items::new(alloc);
        heads.extend(self.heads.as_slice())?;
        all_noted(&mut entries, &mut heads, more)?;
        Ok(Index { entries, heads })
    }

    /// The entries in order.
    fn entries(&self) -> &Items<Entry>
        ensures { result.now ≡ self.now }
    {
        &self.entries
    }

    /// The latest entry of a name.
    fn latest(&self, name: u32) -> Option<Latest>
        ensures { (option_map (λ head. head.what) result ≡ last_of name self.now) × ((start : ℕ) → reached result start ≡ taken_from name start self.now) }
    {
        match self.heads.get(name as usize) {
            Some(head) => *head,
            None => None,
        }
    }
}

/// What a symbol is declared as last.
fn last_in(name: u32, own: &[Entry]) -> Option<What>
    ensures { result ≡ last_of name own.now }
{
    match own.iter().rev().find(|e| e.symbol == name) {
        Some(entry) => Some(entry.what),
        None => None,
    }
}

/// Whether a symbol is declared from a place on.
fn is_taken_in(name: u32, start: usize, own: &[Entry]) -> bool
    ensures { result ≡ taken_from name start own.now }
{
    own.iter().skip(start).any(|e| e.symbol == name)
}

/// What is known of a name by its latest entry.
fn what_at(latest: Option<Latest>) -> Option<What>
    ensures { result ≡ option_map (λ head. head.what) latest }
{
    match latest {
        Some(head) => Some(head.what),
        None => None,
    }
}

/// Whether the latest entry of a name stands at a place or behind it.
fn is_reached(latest: Option<Latest>, start: usize) -> bool
    ensures { result ≡ reached latest start }
{
    match latest {
        Some(head) => start <= head.place,
        None => false,
    }
}

/// How far a number is behind another, or 0.
fn past(start: usize, before: usize) -> usize
    ensures { result ≡ start - before }
{
    if start > before { start - before } else { 0 }
}

/// The entries of an index with more behind them; they are copied where others share them.
fn joined(alloc: Global, below: Rc<Index>, own: &Items<Entry>) -> Result<Index, AllocError>
    ensures { IfOk result (λ index. index ≡ below.value ++ own.now) }
{
    match Rc::try_unwrap(below) {
        Ok(index) => index.with_all(own),
        Err(shared) => shared.as_ref().extended(alloc, own),
    }
}

/// A list of entries, the latest last. Its copies share what is indexed.
#[derive(Drop)]
pub struct Entries {
    below: Rc<Index>,
    own: Items<Entry>,
    len: usize,
    room: usize,
    alloc: Global,
}

impl Model for Entries {
    ghost use Rattle.std.specs.Prelude.{List, ◌≡◌, ◌++◌, length};
    ghost use Rattle.name_rules.specs.declared.scope.Entry.{Entry};

    ghost Value = { List Entry };

    ghost view = { λ all. all.below.value ++ all.own };

    ghost invariant = { λ all. all.len ≡ length (all.below.value ++ all.own) };
}

impl Entries {
    /// No entry.
    pub fn new(alloc: Global) -> Result<Entries, AllocError>
        ensures { IfOk result (λ all. all ≡ []) }
    {
        Ok(Entries {
            below: Rc::new(alloc, Index::new(alloc))?,
            own: Items::new(alloc),
            len: 0,
            room: ROOM,
            alloc,
        })
    }

    /// How many there are.
    pub fn len(&self) -> usize
        ensures { result ≡ length self.now }
    {
        self.len
    }

    /// The same entries. An Err is want of memory.
    pub fn copied(&self) -> Result<Entries, AllocError>
        ensures { IfOk result (λ copy. copy ≡ self.now) }
    {
        let mut own = Items::new(self.alloc);
        own.extend(self.own.as_slice())?;
        Ok(Entries {
            below: self.below.clone()?,
            own,
            len: self.len,
            room: ROOM,
            alloc: self.alloc,
        })
    }

    /// Indexes all entries.
    #[tactic(auto, using(crate::proofs::Heads::append_none))]
    fn seal(&mut self) -> Result<(), AllocError>
        ensures { OnOk result (self.new ≡ self.old) }
    {
        let alloc = self.alloc;
        let none = Rc::new(alloc, Index::new(alloc))?;
        let below = replace(&mut self.below, none);
        let own = replace(&mut self.own, Items::new(alloc));
        let len = self.len;
        self.len = 0;
        let all = joined(alloc, below, &own)?;
        self.below = Rc::new(alloc, all)?;
        self.len = len;
        self.room = ROOM;
        Ok(())
    }

    /// Whether more entries are to be searched one by one. It is a question of time alone.
    fn has_room(&self) -> bool {
        self.room > SHARED || Rc::strong_count(&self.below) > 1
    }

    /// One more entry, the latest. An Err is want of memory.
    pub fn push(&mut self, entry: Entry) -> Result<(), AllocError>
        ensures { OnOk result (self.new ≡ self.old ++ entry ∷ []) }
    {
        if self.len == usize::MAX {
            return Err(AllocError);
        }
        self.own.push(entry)?;
        self.len += 1;
        if self.room == 0 || !self.has_room() {
            return self.seal();
        }
        self.room -= 1;
        Ok(())
    }

    /// More entries, those of a list from a place on. An Err is want of memory.
    #[tactic(auto, using(crate::proofs::Heads::append_one, crate::proofs::Heads::append_none, crate::proofs::Heads::drop_get, crate::proofs::Heads::drop_none, crate::proofs::Heads::drop_less))]
    fn with_more(&mut self, more: &Items<Entry>, start: usize) -> Result<(), AllocError>
        ensures { OnOk result (self.new ≡ self.old ++ drop start more.now) }
    {
        let mut i = start;
        'more: while let Some(entry) = more.get(i) {
            self.push(*entry)?;
            if i == usize::MAX {
                return Err(AllocError);
            }
            i += 1;
        }
        Ok(())
    }

    /// More entries, those of another list from a place on. An Err is want of memory.
    pub fn also_from(&mut self, more: &Entries, start: usize) -> Result<(), AllocError>
        ensures { OnOk result (self.new ≡ self.old ++ drop start more.now) }
    {
        let below = more.below.as_ref().entries();
        self.with_more(below, start)?;
        self.with_more(&more.own, past(start, below.len()))?;
        Ok(())
    }

    /// What a symbol is declared as last.
    #[tactic(auto, using(crate::proofs::Heads::last_own, crate::proofs::Heads::last_below))]
    pub fn last(&self, name: u32) -> Option<What>
        ensures { result ≡ last_of name self.now }
    {
        match last_in(name, self.own.as_slice()) {
            Some(what) => Some(what),
            None => what_at(self.below.as_ref().latest(name)),
        }
    }

    /// Whether a symbol is declared from a place on.
    #[tactic(auto, using(crate::proofs::Heads::taken_append))]
    pub fn is_taken(&self, name: u32, start: usize) -> bool
        ensures { result ≡ taken_from name start self.now }
    {
        let below = self.below.as_ref();
        let after = past(start, below.entries().len());
        is_reached(below.latest(name), start) || is_taken_in(name, after, self.own.as_slice())
    }
}
