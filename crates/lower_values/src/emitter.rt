//! How code is emitted.

ghost use Rattle.std.specs.Prelude.{◌≡◌, ◌+◌, ◌++◌, ◌∷◌, [], ◌&&◌, length, nat_lt, slice_set, true, IsTrue};
ghost use Rattle.lower_emission.specs.Emits.{put, gap, aimed, aimed_at, aimed_false};
ghost use Rattle.lower_emission.specs.Scope.{◌⨟◌, forks, keep, keep_checked, mark, one};
ghost use Rattle.lower_values.specs.Words.{env_of, is_narrow, Emits, Finds, Fits, Leaps, Wrote};
ghost use Rattle.stack_code.specs.declared.instr.Instr.TheVariants as i;

use crate::instrs::set_instr;
use crate::types::{Emitter, Env};
use lower_emission::types::Placed;
use stack_code::{Instr, SiteKind};
use typed_tree::Scalar;

/// A loop that has begun: the jump into it and the one out of it, whose aims aren't known yet, and where its turns begin.
#[derive(Clone, Copy)]
pub struct Begun {
    pub enter: u32,
    pub leave: u32,
    pub head: u32,
}

impl Emitter {
    /// An instruction is put at the end, with what holds around it.
    #[tactic(auto, using(crate::proofs::Fitting::fits_kept, crate::proofs::Fitting::fits_short))]
    fn push(&mut self, placed: Placed)
        ensures wrote { Wrote (λ c. c ++ placed ∷ []) self.old self.new }
        ensures fits { Fits true self.old self.new }
    {
        if self.code.push(placed).is_err() {
            self.whole = false;
            self.short = true;
        }
    }

    /// An instruction is put at the end.
    pub fn put(&mut self, env: &Env<'_>, height: u32, instr: Instr)
        ensures wrote { Wrote (put (mark (env_of env.now)) height instr) self.old self.new }
        ensures fits { Fits true self.old self.new }
    {
        self.push(env.placed(env.free, height, instr));
    }

    /// An instruction is put at the end where so many operands more are on the stack.
    #[tactic(auto, using(crate::proofs::Fitting::fits_then))]
    pub fn put_above(&mut self, env: &Env<'_>, height: u32, operands: u32, instr: Instr)
        ensures wrote { Wrote (put (mark (env_of env.now)) (height + operands) instr) self.old self.new }
        ensures fits { Fits (is_narrow (height + operands)) self.old self.new }
    {
        let above = self.sum(height, operands);
        self.put(env, above, instr);
    }

    /// Two operands are pushed, and an instruction takes them.
    #[tactic(auto, using(crate::proofs::Fitting::fits_operate))]
    pub fn operate(&mut self, env: &Env<'_>, height: u32, left: Instr, right: Instr, instr: Instr)
        ensures emits { Emits (one (env_of env.now) height left ⨟ one (env_of env.now) (height + 1) right ⨟ one (env_of env.now) (height + 1 + 1) instr) self.old self.new }
        ensures fits { Fits (is_narrow (height + 2)) self.old self.new }
    {
        self.put(env, height, left);
        self.put_above(env, height, 1, right);
        self.put_above(env, height, 2, instr);
    }

    /// The operand above that height goes to a cell of the frame.
    #[tactic(auto, using(crate::proofs::Fitting::fits_both))]
    pub fn keep(&mut self, env: &Env<'_>, height: u32, cell: u32)
        ensures emits { Emits (keep (env_of env.now) (height + 1) cell) self.old self.new }
        ensures fits { Fits (is_narrow (height + 1) && is_narrow (cell + 1)) self.old self.new }
    {
        let above = self.sum(height, 1);
        let behind = self.sum(cell, 1);
        self.push(env.placed(env.free.max(behind), above, Instr::StoreL(cell)));
    }

    /// The same, where the operand is one of a subtype's numbers, and else a raise.
    #[tactic(auto, using(crate::proofs::Fitting::fits_both))]
    pub fn keep_checked(&mut self, env: &Env<'_>, height: u32, scalar: Scalar, cell: u32)
        ensures emits { Emits (keep_checked (env_of env.now) (height + 1) scalar cell) self.old self.new }
        ensures fits { Fits (is_narrow (height + 1) && is_narrow (cell + 1)) self.old self.new }
    {
        let above = self.sum(height, 1);
        let behind = self.sum(cell, 1);
        self.push(env.placed(env.free.max(behind), above, set_instr(scalar, cell)));
    }

    /// A construct is begun.
    pub fn fork(&mut self, env: &Env<'_>, height: u32, kind: SiteKind, site: u32)
        ensures emits { Emits (forks (env_of env.now) height kind site) self.old self.new }
        ensures fits { Fits true self.old self.new }
    {
        let fork = Placed {
            kind,
            ..env.placed(env.free, height, Instr::Fork(site))
        };
        self.push(fork);
    }

    /// A sum, if there is room for it.
    #[tactic(auto, using(crate::proofs::Fitting::fits_kept, crate::proofs::Fitting::fits_lost))]
    pub fn sum(&mut self, number: u32, more: u32) -> u32
        ensures finds { Finds (number + more) self.old result self.new }
        ensures fits { Fits (is_narrow (number + more)) self.old self.new }
    {
        match number.checked_add(more) {
            Some(found) => found,
            None => {
                self.whole = false;
                0
            }
        }
    }

    /// The number of what comes next.
    #[tactic(auto, using(crate::proofs::Fitting::fits_kept, crate::proofs::Fitting::fits_lost))]
    pub fn here(&mut self) -> u32
        ensures finds { Finds (length self.old.code) self.old result self.new }
        ensures fits { Fits (is_narrow (length self.old.code)) self.old self.new }
    {
        match u32::try_from(self.code.len()) {
            Ok(found) => found,
            Err(_) => {
                self.whole = false;
                0
            }
        }
    }

    /// A jump whose aim isn't known yet is put at the end, and its number given.
    #[tactic(auto, using(crate::proofs::Fitting::fits_then))]
    pub fn gap(&mut self, env: &Env<'_>, height: u32) -> u32
        ensures leaps { Leaps (gap (mark (env_of env.now)) height) self.old result self.new }
        ensures fits { Fits (is_narrow (length self.old.code)) self.old self.new }
    {
        let at = self.here();
        self.put(env, height, Instr::Jump(0));
        at
    }

    /// A loop is begun, and a turn of it.
    pub fn begin(&mut self, env: &Env<'_>, height: u32) -> Begun
        ensures begins { IsTrue self.new.whole → IsTrue self.old.whole × ((self.new.code ≡ put (mark (env_of env.now)) height i.Turn (gap (mark (env_of env.now)) height (gap (mark (env_of env.now)) height self.old.code))) × ((result.enter ≡ length self.old.code) × ((result.leave ≡ length (gap (mark (env_of env.now)) height self.old.code)) × (result.head ≡ length (gap (mark (env_of env.now)) height (gap (mark (env_of env.now)) height self.old.code)))))) }
        ensures fits { Fits (is_narrow (length self.old.code + 2)) self.old self.new }
    {
        let enter = self.gap(env, height);
        let leave = self.gap(env, height);
        let head = self.here();
        self.put(env, height, Instr::Turn);
        Begun { enter, leave, head }
    }

    /// An instruction that stands already is replaced.
    #[tactic(auto, using(crate::proofs::Fitting::fits_kept, crate::proofs::Fitting::fits_lost))]
    fn set(&mut self, at: u32, placed: Placed)
        ensures wrote { Wrote (λ c. slice_set c at placed) self.old self.new }
        ensures fits { Fits (nat_lt at (length self.old.code)) self.old self.new }
    {
        if (at as usize) < self.code.len() {
            self.code.set(at as usize, placed);
        } else {
            self.whole = false;
        }
    }

    /// A jump is aimed at a place.
    pub fn aim_at(&mut self, env: &Env<'_>, height: u32, at: u32, to: u32)
        ensures wrote { Wrote (aimed_at (mark (env_of env.now)) height at to) self.old self.new }
        ensures fits { Fits (nat_lt at (length self.old.code)) self.old self.new }
    {
        self.set(at, env.placed(env.free, height, Instr::Jump(to)));
    }

    /// A jump is aimed at what comes next.
    pub fn aim(&mut self, env: &Env<'_>, height: u32, at: u32)
        ensures wrote { Wrote (aimed (mark (env_of env.now)) height at) self.old self.new }
        ensures fits { Fits (is_narrow (length self.old.code) && nat_lt at (length self.old.code)) self.old self.new }
    {
        let to = self.here();
        self.aim_at(env, height, at, to);
    }

    /// The same of a jump that is made where what is on the stack is false.
    pub fn aim_false(&mut self, env: &Env<'_>, height: u32, at: u32)
        ensures wrote { Wrote (aimed_false (mark (env_of env.now)) height at) self.old self.new }
        ensures fits { Fits ((is_narrow (length self.old.code) && is_narrow (height + 1)) && nat_lt at (length self.old.code)) self.old self.new }
    {
        let to = self.here();
        let above = self.sum(height, 1);
        self.set(at, env.placed(env.free, above, Instr::JFalse(to)));
    }
}
