//! The state of a run.

ghost use Rattle.std.specs.Prelude.{◌≡◌, ◌<◌, ◌*◌, ◌+◌, length, replicate, slice_get, slice_set, IfOk, IfSome, MatchResult, Ok};
ghost use Rattle.ada_meaning.specs.Stored as spec;
ghost use Rattle.behaviours.specs.Paths as spec';
ghost use Rattle.run_store.specs.Input.{begins_at, got, number_of};
ghost use Rattle.run_store.specs.Shows.{Shows, Gives, Does, outside_of, entity_of, region_of, Enters, unframed, Begins, Declares, finished, IsCell, IsSet};
ghost use Rattle.run_values.specs.Values.{OrNoMemory};

use crate::objects::{Mark, Object, Region};
use ada_base::{Items, Reason};
use ada_io::GetEnd;
use ada_meaning::{Slot, Variable};
use run_outside::Port;
use run_values::{End, Leave};
use std::alloc::{AllocError, Global};
use std::marker::Model;

/// The cells of objects, where they are, what a run counts, and the outside.
#[derive(Drop)]
pub struct Store<P: Port + Drop> {
    cells: Items<i64>,
    kept: Items<i64>,
    here: Items<Slot>,
    everywhere: Items<Slot>,
    frame: u64,
    turns: u64,
    declared: Items<Variable>,
    room: u64,
    port: P,
}

// How many objects and items of lists may be active at once, in all calls together, since the walk over a program goes one
// frame deeper for each. Of the gibibyte of native stack (1,073 MB) that the program sets aside, 1,000 calls with 64 levels
// in each take at most 360 MB. An item takes less than 1,000 bytes, which is 400 MB for all; 310 MB are left.
const ROOM: u64 = 400_000;

impl<P: Port + Drop> Model for Store<P> {
    ghost use Rattle.std.specs.Prelude.{length, None};
    ghost use Rattle.run_store.specs.Shows.{Image};
    ghost use Rattle.ada_base.specs.Notes.{InOrder};

    ghost Value = { Image };

    ghost view = { λ s. record { state = record { cells = s.cells; kept = s.kept; here = s.here; everywhere = s.everywhere; frame = s.frame; turns = s.turns; taken = length (P.outside s.port).came; held = (P.outside s.port).held; input = (P.outside s.port).came; output = (P.outside s.port).put; declared = s.declared; left = None; notes = InOrder; done = None }; coming = (P.outside s.port).coming; faults = (P.outside s.port).faults } };
}

/// The slot at a key, or none.
fn slot_at(slots: &Items<Slot>, key: usize) -> Slot
    ensures { result ≡ spec.slot_at slots.now key }
{
    match slots.get(key) {
        Some(slot) => *slot,
        None => Slot {
            frame: 0,
            address: 0,
            cells: 0,
        },
    }
}

// so many slots, none of which is anything's
fn no_slots(alloc: Global, count: usize) -> Result<Items<Slot>, AllocError>
    ensures { IfOk result (λ slots. slots ≡ replicate count spec.no_slot) }
{
    let mut slots = Items::new(alloc);
    for _k in 0..count {
        slots.push(Slot {
            frame: 0,
            address: 0,
            cells: 0,
        })?;
    }
    Ok(slots)
}

impl<P: Port + Drop> Store<P> {
    /// Where a run begins: no object has cells, and each table has so many slots, two for every object. An Err is want of
    /// memory, and gives the outside back.
    pub fn new(alloc: Global, slots: usize, port: P) -> Result<Store<P>, P>
        ensures { MatchResult result (λ store. store ≡ begins_at slots (P.outside port)) (λ back. back ≡ port) }
    {
        let Ok(here) = no_slots(alloc, slots) else {
            return Err(port);
        };
        let Ok(everywhere) = no_slots(alloc, slots) else {
            return Err(port);
        };
        Ok(Store {
            cells: Items::new(alloc),
            kept: Items::new(alloc),
            here,
            everywhere,
            frame: 1,
            turns: 0,
            declared: Items::new(alloc),
            room: ROOM,
            port,
        })
    }

    /// Room on the native stack for one item more of a list. An Err is want of memory.
    pub fn take_room(&mut self) -> Result<(), End>
        ensures same { self.new ≡ self.old }
        ensures only { OrNoMemory (λ u. Unit {0}) result }
    {
        match self.room.checked_sub(1) {
            None => Err(End::NoMemory),
            Some(room) => {
                self.room = room;
                Ok(())
            }
        }
    }

    /// The room of an item that is no longer active.
    pub fn give_room(&mut self)
        ensures { self.new ≡ self.old }
    {
        self.room = self.room.saturating_add(1);
    }

    /// The outside, as the run left it.
    pub fn into_port(self) -> P
        ensures { P.outside result ≡ outside_of self }
    {
        self.port
    }

    /// The outside as the run left it, the cells of what is visible everywhere, and the variables of the main procedure that
    /// were elaborated, in order. The bytes that were taken are those that came. It takes no memory.
    pub fn into_end(self) -> (P, Items<i64>, Items<Variable>)
        ensures { (P.outside result.0 ≡ outside_of self) × (result.1 ≡ self.state.kept) × (result.2 ≡ self.state.declared) × (self.state.taken ≡ length self.state.input) }
    {
        (self.port, self.kept, self.declared)
    }

    /// An iteration or a call begins.
    #[tactic(auto, unfolding(ada_meaning::specs::Stored::turn))]
    pub fn turn(&mut self, limit: u64) -> Result<(), End>
        ensures { Shows P.Tells (spec.turn limit) result self.old self.new }
    {
        if self.turns < limit {
            self.turns += 1;
            Ok(())
        } else {
            Err(End::Spent)
        }
    }

    /// The turns of a thread count from here.
    #[tactic(auto, unfolding(ada_meaning::specs::Stored::rewinds))]
    pub fn rewind(&mut self, turns: u64)
        ensures { Does P.Tells (spec.rewinds turns) self.old self.new }
    {
        self.turns = turns;
    }

    /// A cell of an object.
    #[tactic(auto, unfolding(ada_meaning::specs::Stored::reads))]
    pub fn read(&self, object: Object, offset: u64) -> Result<i64, End>
        ensures { Shows P.Tells (spec.reads (entity_of object) offset) result self.now self.now }
    {
        let key = object.key();
        let here = slot_at(&self.here, key);
        if here.frame == self.frame {
            cell_of(&self.cells, here, offset)
        } else {
            let everywhere = slot_at(&self.everywhere, key);
            if everywhere.frame == 1 {
                cell_of(&self.kept, everywhere, offset)
            } else {
                Err(End::Left(Leave::Raises(Reason::ProgramError)))
            }
        }
    }

    /// A cell of an object, where it has one.
    #[inline(always)]
    #[tactic(auto, unfolding(ada_meaning::specs::Stored::reads))]
    pub fn cell(&self, object: Object, offset: u64) -> Option<i64>
        ensures { Gives P.Tells (spec.reads (entity_of object) offset) self.now result }
    {
        let key = object.key();
        let here = slot_at(&self.here, key);
        if here.frame == self.frame {
            found_cell(&self.cells, here, offset)
        } else {
            let everywhere = slot_at(&self.everywhere, key);
            if everywhere.frame == 1 {
                found_cell(&self.kept, everywhere, offset)
            } else {
                None
            }
        }
    }

    /// A cell of a variable gets a value.
    #[tactic(auto, unfolding(ada_meaning::specs::Stored::writes))]
    pub fn write(&mut self, number: u32, offset: u64, value: i64) -> Result<(), End>
        ensures { Shows P.Tells (spec.writes number offset value) result self.old self.new }
    {
        let key = Object::Variable(number).key();
        let here = slot_at(&self.here, key);
        if here.frame == self.frame {
            put_cell(&mut self.cells, here, offset, value)
        } else {
            let everywhere = slot_at(&self.everywhere, key);
            if everywhere.frame == 1 {
                put_cell(&mut self.kept, everywhere, offset, value)
            } else {
                Err(End::Left(Leave::Raises(Reason::ProgramError)))
            }
        }
    }

    /// How many turns were taken.
    pub fn turns(&self) -> u64
        ensures { result ≡ self.now.state.turns }
    {
        self.turns
    }

    /// A number that is read (A.10.8).
    pub fn get(&mut self, limit: u64) -> Result<i64, End>
        ensures { Shows P.Tells (got limit) result self.old self.new }
    {
        let Some(left) = limit.checked_sub(self.turns) else {
            return Err(End::NoMemory);
        };
        let got = self.port.get(left);
        self.turns += got.took;
        number_of(got.end)
    }

    /// A frame of its own for a subprogram's objects. It gives the frame before.
    pub fn enter(&mut self) -> Result<u64, End>
        ensures { Enters result self.old self.new }
    {
        let before = self.frame;
        match before.checked_add(1) {
            None => Err(End::NoMemory),
            Some(frame) => {
                self.frame = frame;
                Ok(before)
            }
        }
    }

    /// Back to a frame.
    pub fn leave(&mut self, frame: u64)
        ensures { self.new ≡ unframed frame self.old }
    {
        self.frame = frame;
    }

    /// A new instance of an object with these cells. An Err is want of memory, and leaves the state as it was.
    pub fn begin(&mut self, region: Region, object: Object, values: &[i64]) -> Result<Mark, End>
        ensures { Begins (region_of region) object values.now result self.old self.new }
    {
        let Some(room) = self.room.checked_sub(1) else {
            return Err(End::NoMemory);
        };
        let mark = match region {
            Region::Here => self.begin_here(object, values)?,
            Region::Everywhere => self.begin_everywhere(object, values)?,
        };
        self.room = room;
        Ok(mark)
    }

    fn begin_here(&mut self, object: Object, values: &[i64]) -> Result<Mark, End>
        ensures { Begins spec'.Here object values.now result self.old self.new }
    {
        let key = object.key();
        if key >= self.here.len() {
            return Err(End::NoMemory);
        }
        let mark = Mark {
            slot: slot_at(&self.here, key),
            height: self.cells.len() as u64,
        };
        let slot = Slot {
            frame: self.frame,
            address: mark.height,
            cells: values.len() as u64,
        };
        match self.cells.extend(values) {
            Ok(()) => {
                self.here.set(key, slot);
                Ok(mark)
            }
            Err(_) => Err(End::NoMemory),
        }
    }

    fn begin_everywhere(&mut self, object: Object, values: &[i64]) -> Result<Mark, End>
        ensures { Begins spec'.Everywhere object values.now result self.old self.new }
    {
        let key = object.key();
        if key >= self.everywhere.len() {
            return Err(End::NoMemory);
        }
        let mark = Mark {
            slot: slot_at(&self.everywhere, key),
            height: self.cells.len() as u64,
        };
        let slot = Slot {
            frame: 1,
            address: self.kept.len() as u64,
            cells: values.len() as u64,
        };
        let count = self.declared.len();
        declare(&mut self.declared, object, slot)?;
        match self.kept.extend(values) {
            Ok(()) => {
                self.everywhere.set(key, slot);
                Ok(mark)
            }
            Err(_) => {
                self.declared.truncate(count);
                Err(End::NoMemory)
            }
        }
    }

    /// The end of an instance: what the object was before, and as many cells as before.
    pub fn end(&mut self, region: Region, object: Object, mark: Mark)
        ensures { self.new ≡ finished (region_of region) object mark self.old }
    {
        self.room = self.room.saturating_add(1);
        let key = object.key();
        match region {
            Region::Here => {
                self.cells.truncate(mark.height as usize);
                put_slot(&mut self.here, key, mark.slot);
            }
            Region::Everywhere => put_slot(&mut self.everywhere, key, mark.slot),
        }
    }

    /// A piece of output.
    #[tactic(auto, unfolding(ada_meaning::specs::Stored::puts))]
    pub fn put(&mut self, piece: &[u8]) -> Result<(), End>
        ensures { Shows P.Tells (spec.puts piece.now) result self.old self.new }
    {
        match self.port.put(piece) {
            Ok(()) => Ok(()),
            Err(_) => Err(End::WriteFault),
        }
    }
}

fn number_of(end: GetEnd) -> Result<i64, End>
    ensures { result ≡ number_of end }
{
    match end {
        GetEnd::Number { value } => Ok(value),
        GetEnd::Raise { reason } => Err(End::Left(Leave::Raises(reason))),
        GetEnd::ReadFault => Err(End::ReadFault),
        GetEnd::Spent => Err(End::Spent),
    }
}

// a slot at a key, where the table has one
fn put_slot(slots: &mut Items<Slot>, key: usize, slot: Slot)
    ensures { slots.new ≡ slice_set slots.old key slot }
{
    if key < slots.len() {
        slots.set(key, slot);
    }
}

// a variable of the main procedure is listed
fn declare(declared: &mut Items<Variable>, object: Object, slot: Slot) -> Result<(), End>
    ensures { Declares object slot result declared.old declared.new }
{
    match object {
        Object::Constant(_) => Ok(()),
        Object::Variable(object) => {
            let variable = Variable {
                object,
                address: slot.address,
                cells: slot.cells,
            };
            match declared.push(variable) {
                Ok(()) => Ok(()),
                Err(_) => Err(End::NoMemory),
            }
        }
    }
}

fn found_cell(cells: &Items<i64>, slot: Slot, offset: u64) -> Option<i64>
    ensures { IfSome result (λ v. IsCell cells.now slot offset (Ok v)) }
{
    if offset < slot.cells {
        match slot.address.checked_add(offset) {
            None => None,
            Some(address) => cells.get(address as usize).copied(),
        }
    } else {
        None
    }
}

fn cell_of(cells: &Items<i64>, slot: Slot, offset: u64) -> Result<i64, End>
    ensures { IsCell cells.now slot offset result }
{
    if offset < slot.cells {
        match slot.address.checked_add(offset) {
            None => Err(End::NoMemory),
            Some(address) => match cells.get(address as usize) {
                None => Err(End::Left(Leave::Raises(Reason::ProgramError))),
                Some(value) => Ok(*value),
            },
        }
    } else {
        Err(End::Left(Leave::Raises(Reason::ProgramError)))
    }
}

fn put_cell(cells: &mut Items<i64>, slot: Slot, offset: u64, value: i64) -> Result<(), End>
    ensures { IsSet cells.old slot offset value result cells.new }
{
    if offset < slot.cells {
        match slot.address.checked_add(offset) {
            None => Err(End::NoMemory),
            Some(address) => {
                if (address as usize) < cells.len() {
                    cells.set(address as usize, value);
                }
                Ok(())
            }
        }
    } else {
        Err(End::Left(Leave::Raises(Reason::ProgramError)))
    }
}
