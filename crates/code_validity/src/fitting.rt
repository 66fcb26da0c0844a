//! Whether an instruction keeps the rules at its place.

ghost use Rattle.std.specs.Prelude.{◌<◌, ◌↔◌, IsTrue};
ghost use Rattle.stack_code.specs.Valid.{SpotFits};

use crate::belonging::belongs;
use crate::bodies::stack_admits;
use crate::operands::{ends_of, flow_of, nest_after, pushes_of, takes_of};
use stack_code::{Code, Instr, Spot, leads, names_holder};

// Whether an instruction keeps the rules at its place.
pub(crate) fn spot_fits(code: &Code, at: usize, instr: Instr, spot: Spot) -> bool
    requires { at < usize.MAX }
    ensures { IsTrue result ↔ SpotFits code.now at instr spot }
{
    let taken = takes_of(code, instr);
    if taken > spot.stack {
        return false;
    }
    let height = u64::from(spot.stack - taken) + u64::from(pushes_of(code, instr));
    if !stack_admits(code, spot.body, spot.stack) {
        return false;
    }
    if ends_of(instr) > spot.nest {
        return false;
    }
    let nest = nest_after(instr, spot.nest);
    if !leads(code, at, spot.body, height, nest, flow_of(instr)) {
        return false;
    }
    if !belongs(code, at, spot.body, instr) {
        return false;
    }
    names_holder(code, at, spot.held)
}
