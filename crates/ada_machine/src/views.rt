// Views as the cells of a path.
ghost use Rattle.std.specs.Prelude.{◌≤◌, length};

use crate::cells::Cells;
use cell_memory::View;
use std::alloc::AllocError;

impl<'a> Cells for View<'a> {
    ghost use Rattle.cell_memory.specs.Sight.{OwnThere, lower_length};
    ghost use Rattle.ada_machine.specs.Viewed.{Seat, seat_of};

    ghost cells = { λ v. v.cells };

    ghost floor = { lower_length };

    ghost whole = { OwnThere };

    ghost Home = { Seat };

    ghost place = { seat_of };

    #[inline(always)]
    fn get(&self, at: u64) -> i64 {
        View::get(self, at)
    }

    #[inline(always)]
    fn set(&mut self, at: u64, value: i64) {
        View::set(self, at, value);
    }

    fn len(&self) -> u64 {
        View::len(self)
    }

    fn push_frame(&mut self, count: u32) -> Result<(), AllocError> {
        let _many = View::len(self);
        self.reserve(count)?;
        View::push_frame(self, count);
        Ok(())
    }

    fn pop_frame(&mut self, base: u64) {
        let more = View::len(self) - base;
        View::pop_frame(self, more as u32);
    }
}
