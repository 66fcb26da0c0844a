//! Handlers and alternatives (5.4, 11.4).

ghost use Rattle.std.specs.Prelude.{◌≡◌, ◌<◌, IfSome, option_map};
ghost use Rattle.typed_tree.specs.Decoded.{alternatives_at, handlers_at, leaves_at, reasons_in, spans_in, stmts_at};
ghost use Rattle.ada_meaning.specs.Values.{has_reason, is_chosen, reason_eq};
ghost use Rattle.run_parts.specs.Found.{found_alternative, found_handler};
ghost use Rattle.run_parts.specs.Words.{nodes_of};

use crate::work::Work;
use ada_base::Reason;
use run_values::between;
use typed_tree::{Handler, Leaf};

/// The statements of the first handler of a reason.
pub fn find_handler(work: &Work<'_>, id: u32, reason: Reason) -> Option<u32>
    ensures is { option_map (stmts_at (nodes_of work.now)) result ≡ found_handler (handlers_at (nodes_of work.now) id) reason }
    ensures below { IfSome result (λ stmts. stmts < id) }
{
    let mut at = id;
    while let Some(cell) = work.typed.nodes.handlers(at) {
        match work.typed.nodes.handler(cell.first) {
            None => {}
            Some(Handler::Others { stmts }) => return Some(stmts),
            Some(Handler::Reasons { reasons, stmts }) => {
                if has_reason(work, reasons, reason) {
                    return Some(stmts);
                }
            }
        }
        at = cell.rest;
    }
    None
}

fn has_reason(work: &Work<'_>, id: u32, reason: Reason) -> bool
    ensures { result ≡ has_reason (reasons_in (leaves_at (nodes_of work.now) id)) reason }
{
    match work.typed.nodes.leaf(id) {
        None => false,
        Some(cell) => match cell.leaf {
            Leaf::Reason(one) => same_reason(one, reason) || has_reason(work, cell.rest, reason),
            _ => has_reason(work, cell.rest, reason),
        },
    }
}

fn same_reason(a: Reason, b: Reason) -> bool
    ensures { result ≡ reason_eq a b }
{
    match (a, b) {
        (Reason::ConstraintError, Reason::ConstraintError) => true,
        (Reason::ProgramError, Reason::ProgramError) => true,
        (Reason::StorageError, Reason::StorageError) => true,
        (Reason::DataError, Reason::DataError) => true,
        (Reason::EndError, Reason::EndError) => true,
        (Reason::Declared(m), Reason::Declared(n)) => m == n,
        _ => false,
    }
}

/// The statements of the first alternative that has a value (5.4).
pub fn find_alternative(work: &Work<'_>, id: u32, value: i64) -> Option<u32>
    ensures is { option_map (stmts_at (nodes_of work.now)) result ≡ found_alternative (alternatives_at (nodes_of work.now) id) value }
    ensures below { IfSome result (λ stmts. stmts < id) }
{
    let mut at = id;
    while let Some(cell) = work.typed.nodes.alternatives(at) {
        match work.typed.nodes.alternative(cell.first) {
            None => {}
            Some(alternative) => {
                if alternative.others || is_chosen(work, alternative.choices, value) {
                    return Some(alternative.stmts);
                }
            }
        }
        at = cell.rest;
    }
    None
}

fn is_chosen(work: &Work<'_>, id: u32, value: i64) -> bool
    ensures { result ≡ is_chosen (spans_in (leaves_at (nodes_of work.now) id)) value }
{
    match work.typed.nodes.leaf(id) {
        None => false,
        Some(cell) => match cell.leaf {
            Leaf::Span(span) => between(span.low, value, span.high)
                || is_chosen(work, cell.rest, value),
            _ => is_chosen(work, cell.rest, value),
        },
    }
}
