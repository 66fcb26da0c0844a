//! What a body of code has: its frame and its stack in cells, whether it is a thread or may be called, and which body is around it.

ghost use Rattle.std.specs.Prelude.{◌≡◌, ◌<◌, ◌≤◌, ◌↔◌, Some, IsTrue};
ghost use Rattle.stack_code.specs.Valid.{HasFrame, HasStack, IsThread, IsCallee, outward, step_out};

use crate::operands::is_reduction;
use stack_code::{Around, Code};

pub(crate) fn frame_exceeds(code: &Code, body: Around, cell: u32) -> bool
    ensures { IsTrue result ↔ HasFrame code.now body (λ cells. cell < cells) }
{
    match body {
        Around::Sub(number) => match code.subs.get(number as usize) {
            Some(sub) => cell < sub.frame,
            None => false,
        },
        Around::Site(number) => match code.sites.get(number as usize) {
            Some(site) => cell < site.frame,
            None => false,
        },
    }
}

/// Whether a body's operand stack may be so high.
pub(crate) fn stack_admits(code: &Code, body: Around, height: u32) -> bool
    ensures { IsTrue result ↔ HasStack code.now body (λ most. height ≤ most) }
{
    match body {
        Around::Sub(number) => match code.subs.get(number as usize) {
            Some(sub) => height <= sub.stack,
            None => false,
        },
        Around::Site(number) => match code.sites.get(number as usize) {
            Some(site) => height <= site.stack,
            None => false,
        },
    }
}

pub(crate) fn is_thread(code: &Code, body: Around, reduces: bool) -> bool
    ensures { IsTrue result ↔ IsThread code.now body reduces }
{
    match body {
        Around::Sub(_) => false,
        Around::Site(number) => match code.sites.get(number as usize) {
            Some(site) => is_reduction(site.kind) == reduces,
            None => false,
        },
    }
}

pub(crate) fn is_callee(code: &Code, body: Around, gives: bool) -> bool
    ensures { IsTrue result ↔ IsCallee code.now body gives }
{
    match body {
        Around::Sub(number) => {
            0 < number
                && match code.subs.get(number as usize) {
                    Some(sub) => sub.gives == gives,
                    None => false,
                }
        }
        Around::Site(_) => false,
    }
}

fn step_out(code: &Code, body: Around) -> Option<Around>
    ensures { result ≡ step_out code.now body }
{
    match body {
        Around::Sub(_) => None,
        Around::Site(number) => match code.sites.get(number as usize) {
            Some(site) => Some(site.around),
            None => None,
        },
    }
}

// The body so many steps around a body, where there is one.
pub(crate) fn outward(code: &Code, body: Around, steps: u32) -> Option<Around>
    ensures { result ≡ outward code.now (Some body) steps }
{
    let mut reached = body;
    for done in 0..steps {
        match step_out(code, reached) {
            Some(next) => reached = next,
            None => return None,
        }
    }
    Some(reached)
}
