//! Static expressions (4.9).

ghost use Rattle.std.specs.Prelude.{◌≡◌, slice_get};
ghost use Rattle.typed_tree.specs.Decoded.{expr_at, selections_at};
ghost use Rattle.typed_tree.specs.Statics.{constant_value, is_whole, static_value};

use crate::expressions::{Expr, Root};
use crate::nodes::Nodes;
use crate::typed::Typed;

/// The value of the expression of a number, where it is static; None exactly where it isn't static or has no value. It
/// takes no memory.
pub fn eval(typed: &Typed, expr: u32) -> Option<i64>
    ensures { result ≡ static_value typed.now.objects (expr_at typed.now.nodes expr) }
{
    match typed.nodes.expr(expr) {
        Expr::Static { value, .. } => Some(value),
        Expr::Constant {
            root: Root::Object(object),
            selections,
            ..
        } => {
            if is_whole(&typed.nodes, selections) {
                constant_value(typed, object)
            } else {
                None
            }
        }
        _ => None,
    }
}

/// Whether no selection stands in the list of a number.
fn is_whole(nodes: &Nodes, selections: u32) -> bool
    ensures { result ≡ is_whole (selections_at nodes.now selections) }
{
    let mut at = selections;
    while let Some(cell) = nodes.selections(at) {
        if nodes.selection(cell.first).is_some() {
            return false;
        }
        at = cell.rest;
    }
    true
}

fn constant_value(typed: &Typed, object: u32) -> Option<i64>
    ensures { result ≡ constant_value (slice_get typed.now.objects object) }
{
    match typed.objects.get(object as usize) {
        Some(object) => object.value,
        None => None,
    }
}
