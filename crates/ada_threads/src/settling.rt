// What a machine that stopped left behind.
ghost use Rattle.std.specs.Prelude.{◌≡◌};
ghost use Rattle.cell_memory.specs.Sight.{OwnThere, lower_length};
ghost use Rattle.stack_code.specs.Tops.{IsTopped};
ghost use Rattle.ada_machine.specs.States.{state_of, frames_of};
ghost use Rattle.ada_machine.specs.Places.{Stays};
ghost use Rattle.ada_machine.specs.Viewed.{seat_of};
ghost use Rattle.ada_threads.specs.Going.{clipped};

use ada_machine::{Cells, Machine};
use cell_memory::View;

/// Takes off the frames of the calls that a machine which stopped had begun. It takes no memory.
pub fn settle(machine: &Machine, view: &mut View<'_>)
    requires whole { OwnThere view.old }
    requires tops { IsTopped (lower_length view.old) (state_of machine.now view.old.cells) }
    ensures cells { view.new.cells ≡ clipped (frames_of machine.now.waiting.items) view.old.cells }
    ensures stays { Stays lower_length OwnThere seat_of view.old view.new }
{
    match machine.waiting.as_slice().first() {
        Some(lowest) => Cells::pop_frame(view, lowest.top),
        None => {}
    }
}
