//! Which values of an aggregate are computed anew for each of several components (4.3).

ghost use Rattle.std.specs.Prelude.{◌≡◌};
ghost use Rattle.typed_tree.specs.Decoded.{associations_at, composite_at, expr_at, leaves_at, runs_in, selections_at, value_at};
ghost use Rattle.typed_tree.specs.Statics as statics;
ghost use Rattle.lower_emission.specs.Repeats as spec;

use typed_tree::{Composite, Expr, Leaf, Nodes, Value};

/// Whether a value is computed anew for each of several components of these runs (4.3.3).
pub fn is_repeated(nodes: &Nodes, runs: u32, value: u32) -> bool
    ensures { result ≡ spec.is_repeated (runs_in (leaves_at nodes.now runs)) (value_at nodes.now value) }
{
    is_several(nodes, runs) && !is_plain(nodes, value)
}

fn is_several(nodes: &Nodes, runs: u32) -> bool
    ensures { result ≡ spec.several (runs_in (leaves_at nodes.now runs)) }
{
    let mut at = runs;
    while let Some(cell) = nodes.leaf(at) {
        if let Leaf::Run(run) = cell.leaf {
            return 1 < run.count || has_run(nodes, cell.rest);
        }
        at = cell.rest;
    }
    false
}

fn has_run(nodes: &Nodes, runs: u32) -> bool
    ensures { result ≡ spec.some_run (runs_in (leaves_at nodes.now runs)) }
{
    let mut at = runs;
    while let Some(cell) = nodes.leaf(at) {
        if let Leaf::Run(_) = cell.leaf {
            return true;
        }
        at = cell.rest;
    }
    false
}

/// Whether a value is the same each time and does nothing: it is static, or names a whole object or the target, or is an
/// aggregate of such values.
#[cycle(plain)]
pub fn is_plain(nodes: &Nodes, value: u32) -> bool
    ensures { result ≡ spec.is_plain (value_at nodes.now value) }
{
    match nodes.value(value) {
        None => true,
        Some(Value::Number { value, .. }) => is_plain_expr(nodes, value),
        Some(Value::Cells { composite }) => is_plain_composite(nodes, composite),
    }
}

fn is_plain_expr(nodes: &Nodes, id: u32) -> bool
    ensures { result ≡ spec.is_plain_expr (expr_at nodes.now id) }
{
    match nodes.expr(id) {
        Expr::Static { .. } | Expr::Parameter { .. } | Expr::Target { .. } => true,
        Expr::Variable { selections, .. } | Expr::Constant { selections, .. } => {
            is_whole(nodes, selections)
        }
        _ => false,
    }
}

#[cycle(plain)]
fn is_plain_composite(nodes: &Nodes, id: u32) -> bool
    ensures { result ≡ spec.is_plain_composite (composite_at nodes.now id) }
{
    match nodes.composite(id) {
        Composite::WholeVariable { selections, .. } | Composite::WholeConstant { selections, .. } =>
            { is_whole(nodes, selections) }
        Composite::WholeTarget { .. } => true,
        Composite::If { .. } => false,
        Composite::Aggregate { associations, .. } => are_plain(nodes, associations),
    }
}

#[cycle(plain)]
fn are_plain(nodes: &Nodes, id: u32) -> bool
    ensures { result ≡ spec.are_plain (associations_at nodes.now id) }
{
    let mut at = id;
    while let Some(cell) = nodes.associations(at) {
        if let Some(found) = nodes.association(cell.first) {
            if found.iterated.is_some() || !is_plain(nodes, found.value) {
                return false;
            }
        }
        at = cell.rest;
    }
    true
}

fn is_whole(nodes: &Nodes, selections: u32) -> bool
    ensures { result ≡ statics.is_whole (selections_at nodes.now selections) }
{
    let mut at = selections;
    while let Some(cell) = nodes.selections(at) {
        if nodes.selection(cell.first).is_some() {
            return false;
        }
        at = cell.rest;
    }
    true
}
