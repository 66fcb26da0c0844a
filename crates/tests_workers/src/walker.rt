//! A walker goes through a list of steps.
ghost use Rattle.std.specs.Prelude.{◌≡◌, ℕ, ◌+◌, ◌<◌, ◌≤◌, length, Some, None};
ghost use Rattle.cell_memory.specs.Sight.{OwnThere};
ghost use Rattle.ada_workers.specs.Paths.{SamePlace, Fine};
ghost use Rattle.tests_workers.specs.Walks.{walk, step, Goes, Stepped};

use ada_workers::{Halt, Path, Stop};
use cell_memory::View;
use std::alloc::Global;

#[derive(Clone, Copy)]
pub(crate) enum Op {
    Put(u64, i64),
    Copy(u64, u64),
    Turn,
    Leave,
}

#[derive(Drop)]
pub(crate) struct Walker {
    pub ops: Vec<Op>,
    pub at: usize,
    pub turns: u64,
    pub limit: u64,
}

impl Walker {
    // One step; it answers how the walker stopped, if it did.
    fn step_once<H: Halt>(&mut self, view: &mut View<'_>, halt: &mut H, begun: u64) -> Option<Stop>
        requires since { begun ≤ self.old.turns }
        requires more { self.old.at < length self.old.ops.items }
        requires fine { Goes (step self.old None view.old.cells) }
        requires there { OwnThere view.old }
        ensures on { result ≡ None → (self.new.ops ≡ self.old.ops) × (self.new.at ≡ self.old.at + 1) }
        ensures step { Stepped self.old view.old.cells result self.new view.new.cells }
        ensures place { SamePlace view.old view.new }
        ensures kept { H.kept halt.new ≡ H.kept halt.old }
        ensures stays { H.told halt.old → H.told halt.new }
        ensures paused { (looks : ℕ) → result ≡ Some (Stop.Paused looks) → H.told halt.new }
        ensures looks { (looks : ℕ) → result ≡ Some (Stop.Paused looks) → begun + looks ≡ self.old.turns }
    {
        match self.ops[self.at] {
            Op::Put(to, value) => {
                view.set(to, value);
                self.at += 1;
                None
            }
            Op::Copy(from, to) => {
                let value = view.get(from);
                view.set(to, value);
                self.at += 1;
                None
            }
            Op::Turn => {
                if halt.asked() {
                    return Some(Stop::Paused(self.turns - begun));
                }
                if self.turns >= self.limit {
                    return Some(Stop::Spent);
                }
                self.turns += 1;
                self.at += 1;
                None
            }
            Op::Leave => Some(Stop::Gone),
        }
    }
}

impl Path for Walker {
    ghost use Rattle.tests_workers.specs.Walks.{walk};
    ghost use Rattle.tests_workers.specs.Walking.{walk_frames};

    ghost runs = { walk };

    fn go<H: Halt>(&mut self, _alloc: Global, view: &mut View<'_>, halt: &mut H) -> Stop {
        let begun = self.turns;
        while self.at < self.ops.len() {
            if let Some(stop) = self.step_once(view, halt, begun) {
                return stop;
            }
        }
        Stop::Ended
    }

    ghost frames = { walk_frames };
}
