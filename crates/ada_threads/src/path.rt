// The thread of the machine as a path that workers run.
ghost use Rattle.std.specs.Prelude.{◌≡◌, ◌≤◌};
ghost use Rattle.ada_threads.specs.Came.{OfBody, WayWell};
ghost use Rattle.ada_threads.specs.ThreadPaths.{TellsWay, path_after};

use crate::pursuing::run_body;
use crate::thread::MachineThread;
use crate::way::{Ran, Way};
use ada_machine::Halt;
use ada_workers::{Path, Stop};
use cell_memory::View;
use std::alloc::Global;

// How deep constructs may be nested natively; code raises Storage_Error at 16.
const LEVELS: u32 = 64;

impl<'a> MachineThread<'a> {
    // Keeps what the body came to, and tells it.
    fn came(&mut self, ran: Ran) -> Stop
        requires within { ran.turns ≤ self.old.limit }
        requires well { OfBody self.old (λ b. WayWell b ran.way) }
        ensures path { self.new ≡ path_after self.old ran.way ran.turns }
        ensures told { TellsWay ran.way ran.looks result }
    {
        self.counts.turns = ran.turns;
        self.how = Some(ran.way);
        match ran.way {
            Way::Done(_) => Stop::Ended,
            Way::Left(_) => Stop::Gone,
            Way::Spent => Stop::Spent,
            Way::Paused => {
                if ran.looks < u64::MAX {
                    Stop::Paused(ran.looks)
                } else {
                    Stop::NoMemory
                }
            }
            Way::NoMemory => Stop::NoMemory,
        }
    }
}

impl<'a> Path for MachineThread<'a> {
    ghost use Rattle.machine_paths.specs.Threads.{runs};
    ghost use Rattle.ada_threads.specs.Framing.{thread_frames};

    ghost runs = { runs };

    fn go<H: Halt>(&mut self, _alloc: Global, view: &mut View<'_>, halt: &mut H) -> Stop {
        let ran = run_body(self, view, halt, LEVELS);
        self.came(ran)
    }

    ghost frames = { thread_frames };
}
