//! Whether code is valid: each instruction at its place, and all tables.

ghost use Rattle.std.specs.Prelude.{◌≡◌, ◌<◌, ◌↔◌, IsTrue};
ghost use Rattle.stack_code.specs.Valid.{Each, Has, IsValid, SpotFits};

use crate::fitting::spot_fits;
use crate::slack::guards_fit;
use crate::tables::{handlers_fit, has_main, sites_fit, subs_fit};
use stack_code::{Code, Instr};

fn instr_fits(code: &Code, at: usize, instr: Instr) -> bool
    requires { at < usize.MAX }
    ensures { IsTrue result ↔ Has code.now.spots at (SpotFits code.now at instr) }
{
    match code.spots.get(at) {
        Some(spot) => spot_fits(code, at, instr, *spot),
        None => false,
    }
}

fn instrs_fit(code: &Code) -> bool
    ensures { IsTrue result ↔ Each code.now.instrs (λ at i. Has code.now.spots at (SpotFits code.now at i)) }
{
    let instrs = code.instrs.as_slice();
    for at in 0..instrs.len() {
        if !instr_fits(code, at, instrs[at]) {
            return false;
        }
    }
    true
}

/// Whether the code keeps all rules: whether it is there what each jump, call and table entry leads to, and each
/// instruction finds its operands. It takes no memory.
pub fn validate(code: &Code) -> bool
    ensures { IsTrue result ↔ IsValid code.now }
{
    if code.spots.len() != code.instrs.len() {
        return false;
    }
    if !instrs_fit(code) {
        return false;
    }
    if !has_main(code) {
        return false;
    }
    if !sites_fit(code) {
        return false;
    }
    if !subs_fit(code) {
        return false;
    }
    if !handlers_fit(code) {
        return false;
    }
    guards_fit(code)
}
