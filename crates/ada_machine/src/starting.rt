// A machine at the entry of a body, and one that goes on with an answer.
ghost use Rattle.std.specs.Prelude.{◌≡◌, ◌+◌, ◌^◌, ◌<◌, ◌≤◌, ◌∷◌, [], ℕ, ℤ, List, length, drop, reverse, slice_get, slice_index, EachIndex, vec_len, vec_capacity, Some, None, pos, IfOk};
ghost use Rattle.stack_code.specs.Answers.{IsAnswer};
ghost use Rattle.ada_base.specs.Cells.{Cell};
ghost use Rattle.stack_code.specs.Machine.{after_fork, after_get, begun, resumed, on, sees};
ghost use Rattle.stack_code.specs.Stands.{IsForward, IsOuter, Sees};
ghost use Rattle.stack_code.specs.Valid.{HasStack, IsValid, Lands};
ghost use Rattle.ada_machine.specs.States.{state_of, frames_of, Awaits, Ready, BeginsAt, HasNumber, HasPlace, IsEntry, IsRead};

use crate::machine::Machine;
use crate::operands::put;
use crate::walking::fetch;
use ada_base::Items;
use stack_code::{Around, Code, Gave, Instr, Leave};
use std::alloc::{AllocError, Global};

/// Where a body begins, and the greatest height of its operand stack.
#[derive(Clone, Copy)]
pub struct Begin {
    /// Its first instruction.
    pub entry: u32,
    /// The height, in numbers.
    pub most: u32,
}

fn begin_of(code: &Code, body: Around) -> Begin
    requires { HasStack code.now body (λ most. Unit {0}) }
    ensures { BeginsAt code.now body result }
{
    match body {
        Around::Sub(number) => {
            let sub = &code.subs.as_slice()[number as usize];
            Begin {
                entry: sub.entry,
                most: sub.stack,
            }
        }
        Around::Site(number) => {
            let site = &code.sites.as_slice()[number as usize];
            Begin {
                entry: site.entry,
                most: site.stack,
            }
        }
    }
}

/// What a path has begun already: turns, active calls, and active constructs.
#[derive(Clone, Copy)]
pub struct Counts {
    /// The turns that were begun.
    pub turns: u64,
    /// The active calls, at most 1,000.
    pub calls: u32,
    /// The active constructs, at most 16.
    pub nested: u32,
}

impl Machine {
    /// A machine at the entry of the main procedure or of a construct's threads. It sees the frames that begin at those
    /// addresses, its own first, and then those around it outward. An Err is want of memory.
    pub fn start(
        alloc: Global,
        code: &Code,
        body: Around,
        frames: &[u64],
        counts: Counts,
    ) -> Result<Machine, AllocError>
        requires valid { IsValid code.now }
        requires forward { IsForward code.now }
        requires outer { IsOuter body }
        requires there { HasStack code.now body (λ most. Unit {0}) }
        requires own { 0 < length frames.now }
        requires sees { Sees code.now body (drop 1 frames.now) }
        requires near { EachIndex frames.now (λ k. slice_index frames.now k ≤ 2 ^ 62) }
        ensures ready { IfOk result (λ m. (cells : List Cell) → Ready code.now m cells) }
        ensures entry { IfOk result (λ m. IsEntry code.now body m.pc) }
        ensures looks { IfOk result (λ m. m.looks ≡ 0) }
        ensures begun { IfOk result (λ m. (cells : List Cell) → state_of m cells ≡ begun m.pc (slice_index frames.now 0) (drop 1 frames.now) counts.turns counts.calls counts.nested None cells) }
    {
        let begin = begin_of(code, body);
        let stack = Vec::with_capacity(alloc, begin.most as usize)?;
        let mut outward = Vec::new(alloc);
        outward.extend_from_slice(&frames[1..])?;
        Ok(Machine {
            pc: begin.entry as usize,
            stack,
            floor: 0,
            nest: 0,
            kept: Vec::new(alloc),
            rounds: Vec::new(alloc),
            base: frames[0],
            outward,
            waiting: Vec::new(alloc),
            calls: counts.calls,
            nested: counts.nested,
            turns: counts.turns,
            looks: 0,
            line: Items::new(alloc),
            raising: None,
        })
    }

    /// The turns that were begun.
    pub fn turns(&self) -> u64
        ensures { result ≡ self.now.turns }
    {
        self.turns
    }

    /// How often the machine might have paused and went on; the count stands still at the greatest number of 64 bits.
    pub fn looks(&self) -> u64
        ensures { result ≡ self.now.looks }
    {
        self.looks
    }

    /// The active calls.
    pub fn calls(&self) -> u32
        ensures { result ≡ self.now.calls }
    {
        self.calls
    }

    /// The active constructs.
    pub fn nested(&self) -> u32
        ensures { result ≡ self.now.nested }
    {
        self.nested
    }

    /// Where the frames begin that the threads of a construct see which it begins now, the innermost first: its own, and,
    /// outside subprograms that it called, those around it outward. An Err is want of memory.
    pub fn frames(&self, alloc: Global) -> Result<Vec<u64>, AllocError>
        ensures { IfOk result (λ frames. (cells : List Cell) → frames.items ≡ sees (state_of self.now cells)) }
    {
        let mut frames = Vec::new(alloc);
        frames.push(self.base)?;
        if self.waiting.is_empty() {
            frames.extend_from_slice(self.outward.as_slice())?;
        }
        Ok(frames)
    }

    /// Counts turns that threads of a construct began.
    pub fn add_turns(&mut self, turns: u64)
        requires { self.old.turns + turns < 2 ^ 64 }
        ensures { self.new ≡ record self.old { turns = self.old.turns + turns } }
    {
        self.turns += turns;
    }
}

// The answer of a construct.
fn answer_fork(m: &mut Machine, gave: Gave)
    requires room { HasPlace gave (vec_len m.old.stack) (vec_capacity m.old.stack) }
    requires numbers { HasNumber gave }
    requires next { m.old.pc < usize.MAX }
    ensures state { (cells : List Cell) → state_of m.new cells ≡ after_fork gave (state_of m.old cells) }
    ensures room { vec_capacity m.new.stack ≡ vec_capacity m.old.stack }
    ensures looks { m.new.looks ≡ m.old.looks }
{
    match gave {
        Gave::Nothing => {
            put(&mut m.stack, 0);
            put(&mut m.stack, 0);
            m.pc += 1;
        }
        Gave::Numbers(numbers) => {
            let mut parts = numbers.into_vec();
            parts.as_mut_slice().reverse();
            let first = parts.take_last();
            m.kept = parts;
            put(&mut m.stack, first);
            m.pc += 1;
        }
        Gave::Left(leave) => match leave {
            Leave::Raise(reason) => {
                m.raising = Some(reason);
            }
            Leave::Exit(number) => {
                put(&mut m.stack, 0);
                put(&mut m.stack, 3 + i64::from(number));
                m.pc += 1;
            }
            Leave::Return(None) => {
                put(&mut m.stack, 0);
                put(&mut m.stack, 1);
                m.pc += 1;
            }
            Leave::Return(Some(value)) => {
                put(&mut m.stack, value);
                put(&mut m.stack, 2);
                m.pc += 1;
            }
        },
    }
}

// The answer of an input.
fn answer_get(m: &mut Machine, gave: Gave)
    requires room { HasPlace gave (vec_len m.old.stack) (vec_capacity m.old.stack) }
    requires read { IsRead gave }
    requires next { m.old.pc < usize.MAX }
    ensures state { (cells : List Cell) → state_of m.new cells ≡ after_get gave (state_of m.old cells) }
    ensures room { vec_capacity m.new.stack ≡ vec_capacity m.old.stack }
    ensures looks { m.new.looks ≡ m.old.looks }
{
    match gave {
        Gave::Numbers(numbers) => {
            let mut parts = numbers.into_vec();
            let first = parts.take_last();
            put(&mut m.stack, first);
            m.pc += 1;
        }
        Gave::Left(Leave::Raise(reason)) => {
            m.raising = Some(reason);
        }
        _ => {}
    }
}

impl Machine {
    /// Goes on with the answer of a construct, or of output or input.
    pub fn resume_after(&mut self, code: &Code, gave: Gave)
        requires waits { Awaits code.now self.old }
        requires answer { IsAnswer code.now (slice_get code.now.instrs self.old.pc) gave }
        ensures state { (cells : List Cell) → state_of self.new cells ≡ resumed code.now gave (state_of self.old cells) }
        ensures ready { (cells : List Cell) → Ready code.now self.new cells }
        ensures looks { self.new.looks ≡ self.old.looks }
        ensures waiting { frames_of self.new.waiting.items ≡ frames_of self.old.waiting.items }
    {
        match fetch(code, self.pc) {
            Instr::Fork(_) => {
                self.kept.clear();
                answer_fork(self, gave);
            }
            Instr::Get => answer_get(self, gave),
            _ => self.pc += 1,
        }
    }
}
