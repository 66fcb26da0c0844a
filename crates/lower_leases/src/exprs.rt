//! The parallel constructs in expressions (4.4) and in what stands in them.

ghost use Rattle.std.specs.Prelude.{◌≡◌, cond, IsTrue};
ghost use Rattle.lower_emission.specs.Repeats.{some_run};
ghost use Rattle.typed_tree.specs.Decoded.{actuals_at, as_actual, as_association, as_selection, associations_at, chunk_at, composite_at, expr_at, iteration_at, leaves_at, optional_at, part_at, runs_in, selections_at, value_at};
ghost use Rattle.typed_tree.specs.Syntax.{Actuals, Associations, Selections};
ghost use Rattle.ada_lower.specs.Standings as spec;
ghost use Rattle.lower_leases.specs.Words.{expr_left, composite_left, reduced, Finds, IsBelow, Learns};

use crate::standings::{Finding, deeper, stands};
use typed_tree::{Actual, Chunk, Composite, Expr, Iteration, Leaf, Nodes, Selection, Value};

/// The numbers of the parts of a reduction (4.5.10): its initial value, its chunk specification, its iteration and its
/// value.
#[derive(Clone, Copy)]
pub struct Reduced {
    pub initial: u32,
    pub chunk: u32,
    pub iteration: u32,
    pub value: u32,
}

/// Whether an iteration goes through a range.
pub fn goes_through_range(nodes: &Nodes, iteration: u32) -> bool
    ensures { result ≡ spec.goes_through_range (iteration_at nodes.now iteration) }
{
    match nodes.iteration(iteration) {
        Some(Iteration::Range { .. }) => true,
        Some(Iteration::Components { .. }) | None => false,
    }
}

/// An expression. What stands last in it is gone through by a loop, so that a chain of operators takes no native stack.
#[cycle(text)]
pub fn expr(nodes: &Nodes, depth: u32, id: u32, out: &mut Finding)
    ensures { Finds (spec.expr_standings depth (expr_at nodes.now id) out.old.found) out.old out.new }
{
    let mut rest = Some(id);
    'parts: while let Some(at) = rest {
        rest = expr_step(nodes, depth, at, out);
    }
}

/// All of an expression but one part that may be left.
#[cycle(text)]
#[inline(never)]
#[tactic(auto, unfolding(ada_lower::specs::Standings::expr_standings))]
fn expr_step(nodes: &Nodes, depth: u32, id: u32, out: &mut Finding) -> Option<u32>
    ensures { (IsTrue out.new.whole → IsTrue out.old.whole × (expr_left nodes.now depth out.new.found result ≡ spec.expr_standings depth (expr_at nodes.now id) out.old.found)) × IsBelow id result }
{
    match nodes.expr(id) {
        Expr::Static { .. } | Expr::Parameter { .. } | Expr::Target { .. } => None,
        Expr::Variable {
            selections: parts,
            ..
        }
        | Expr::Constant {
            selections: parts,
            ..
        } => {
            selections(nodes, depth, parts, out);
            None
        }
        Expr::Group { inside: last }
        | Expr::Unary { operand: last, .. }
        | Expr::Convert { value: last, .. } => Some(last),
        Expr::Binary {
            left: last,
            right: other,
            ..
        }
        | Expr::AndThen {
            left: last,
            right: other,
        }
        | Expr::OrElse {
            left: last,
            right: other,
        }
        | Expr::Relation {
            left: last,
            right: other,
            ..
        } => {
            expr(nodes, depth, other, out);
            Some(last)
        }
        Expr::Membership {
            value: one,
            low: two,
            high: last,
            ..
        }
        | Expr::If {
            condition: one,
            value: two,
            otherwise: last,
        } => {
            both(nodes, depth, one, two, out);
            Some(last)
        }
        Expr::Call { actuals: parts, .. } => {
            actuals(nodes, depth, parts, out);
            None
        }
        Expr::Reduction {
            initial,
            site,
            chunk,
            iteration,
            value,
            ..
        } => {
            let parts = Reduced {
                initial,
                chunk,
                iteration,
                value,
            };
            reduction(nodes, depth, site, parts, out);
            None
        }
    }
}

/// Two expressions, one after the other.
#[cycle(text)]
#[inline(never)]
fn both(nodes: &Nodes, depth: u32, one: u32, two: u32, out: &mut Finding)
    ensures { Finds (spec.expr_standings depth (expr_at nodes.now two) (spec.expr_standings depth (expr_at nodes.now one) out.old.found)) out.old out.new }
{
    expr(nodes, depth, one, out);
    expr(nodes, depth, two, out);
}

/// An expression that may be left out.
#[cycle(text)]
#[tactic(auto, using(crate::proofs::Reading::present_is), unfolding(ada_lower::specs::Standings::optional_standings))]
pub fn optional(nodes: &Nodes, depth: u32, id: u32, out: &mut Finding)
    ensures { Finds (spec.optional_standings depth (optional_at nodes.now id) out.old.found) out.old out.new }
{
    match nodes.optional(id) {
        None => {}
        Some(_) => expr(nodes, depth, id, out),
    }
}

/// What a name goes on with (4.1.1, 4.1.3).
#[cycle(text)]
#[tactic(auto, unfolding(ada_lower::specs::Standings::selections_standings))]
pub fn selections(nodes: &Nodes, depth: u32, id: u32, out: &mut Finding)
    ensures { Finds (spec.selections_standings depth (selections_at nodes.now id) out.old.found) out.old out.new }
{
    let mut at = id;
    'cells: while let Some(cell) = nodes.selections(at) {
        selection(nodes, depth, cell.first, out);
        at = cell.rest;
    }
}

#[cycle(text)]
#[tactic(auto, unfolding(ada_lower::specs::Standings::selections_standings))]
fn selection(nodes: &Nodes, depth: u32, id: u32, out: &mut Finding)
    ensures { IsTrue out.new.whole → IsTrue out.old.whole × ((rest : Selections) → spec.selections_standings depth rest out.new.found ≡ spec.selections_standings depth (as_selection (part_at nodes.now id) rest) out.old.found) }
{
    match nodes.selection(id) {
        Some(Selection::Index { index, .. }) => expr(nodes, depth, index, out),
        Some(Selection::Field { .. }) | None => {}
    }
}

/// Actual parameters (6.4.1).
#[cycle(text)]
#[tactic(auto, unfolding(ada_lower::specs::Standings::actuals_standings))]
pub fn actuals(nodes: &Nodes, depth: u32, id: u32, out: &mut Finding)
    ensures { Finds (spec.actuals_standings depth (actuals_at nodes.now id) out.old.found) out.old out.new }
{
    let mut at = id;
    'cells: while let Some(cell) = nodes.actuals(at) {
        actual(nodes, depth, cell.first, out);
        at = cell.rest;
    }
}

#[cycle(text)]
#[tactic(auto, unfolding(ada_lower::specs::Standings::actuals_standings))]
fn actual(nodes: &Nodes, depth: u32, id: u32, out: &mut Finding)
    ensures { IsTrue out.new.whole → IsTrue out.old.whole × ((rest : Actuals) → spec.actuals_standings depth rest out.new.found ≡ spec.actuals_standings depth (as_actual (part_at nodes.now id) rest) out.old.found) }
{
    match nodes.actual(id) {
        None => {}
        Some(Actual::In { value: part, .. }) => value(nodes, depth, part, out),
        Some(
            Actual::InOut {
                selections: parts,
                ..
            }
            | Actual::Out {
                selections: parts,
                ..
            }
            | Actual::CompositeInOut {
                selections: parts,
                ..
            }
            | Actual::CompositeOut {
                selections: parts,
                ..
            },
        ) => selections(nodes, depth, parts, out),
    }
}

/// What is stored somewhere.
#[cycle(text)]
#[tactic(auto, unfolding(ada_lower::specs::Standings::value_standings, ada_lower::specs::Standings::composite_standings, ada_lower::specs::Standings::associations_standings))]
pub fn value(nodes: &Nodes, depth: u32, id: u32, out: &mut Finding)
    ensures { Finds (spec.value_standings depth (value_at nodes.now id) out.old.found) out.old out.new }
{
    match nodes.value(id) {
        None => {}
        Some(Value::Number { value: part, .. }) => expr(nodes, depth, part, out),
        Some(Value::Cells { composite: part }) => composite(nodes, depth, part, out),
    }
}

/// An expression of an array or record type. The last part of a conditional expression is gone through by a loop.
#[cycle(text)]
fn composite(nodes: &Nodes, depth: u32, id: u32, out: &mut Finding)
    ensures { Finds (spec.composite_standings depth (composite_at nodes.now id) out.old.found) out.old out.new }
{
    let mut rest = Some(id);
    'parts: while let Some(at) = rest {
        rest = composite_step(nodes, depth, at, out);
    }
}

#[cycle(text)]
#[inline(never)]
#[tactic(auto, unfolding(ada_lower::specs::Standings::composite_standings))]
fn composite_step(nodes: &Nodes, depth: u32, id: u32, out: &mut Finding) -> Option<u32>
    ensures { (IsTrue out.new.whole → IsTrue out.old.whole × (composite_left nodes.now depth out.new.found result ≡ spec.composite_standings depth (composite_at nodes.now id) out.old.found)) × IsBelow id result }
{
    match nodes.composite(id) {
        Composite::WholeVariable {
            selections: parts,
            ..
        }
        | Composite::WholeConstant {
            selections: parts,
            ..
        } => {
            selections(nodes, depth, parts, out);
            None
        }
        Composite::WholeTarget { .. } => None,
        Composite::If {
            condition,
            value: part,
            otherwise,
        } => {
            chosen(nodes, depth, condition, part, out);
            Some(otherwise)
        }
        Composite::Aggregate {
            associations: parts,
            ..
        } => {
            associations(nodes, depth, parts, out);
            None
        }
    }
}

/// A condition and what it chooses.
#[cycle(text)]
#[inline(never)]
fn chosen(nodes: &Nodes, depth: u32, condition: u32, part: u32, out: &mut Finding)
    ensures { Finds (spec.composite_standings depth (composite_at nodes.now part) (spec.expr_standings depth (expr_at nodes.now condition) out.old.found)) out.old out.new }
{
    expr(nodes, depth, condition, out);
    composite(nodes, depth, part, out);
}

/// Associations of an aggregate (4.3.1, 4.3.3).
#[cycle(text)]
#[tactic(auto, unfolding(ada_lower::specs::Standings::associations_standings))]
fn associations(nodes: &Nodes, depth: u32, id: u32, out: &mut Finding)
    ensures { Finds (spec.associations_standings depth (associations_at nodes.now id) out.old.found) out.old out.new }
{
    let mut at = id;
    'cells: while let Some(cell) = nodes.associations(at) {
        association(nodes, depth, cell.first, out);
        at = cell.rest;
    }
}

#[cycle(text)]
#[tactic(auto, unfolding(ada_lower::specs::Standings::associations_standings))]
fn association(nodes: &Nodes, depth: u32, id: u32, out: &mut Finding)
    ensures { IsTrue out.new.whole → IsTrue out.old.whole × ((rest : Associations) → spec.associations_standings depth rest out.new.found ≡ spec.associations_standings depth (as_association (part_at nodes.now id) rest) out.old.found) }
{
    match nodes.association(id) {
        None => {}
        Some(part) => {
            let evaluated = gives_some(nodes, part.runs);
            given(nodes, depth, evaluated, part.value, out);
        }
    }
}

/// The value of an association, if that gives some component.
#[cycle(text)]
#[inline(never)]
fn given(nodes: &Nodes, depth: u32, evaluated: bool, part: u32, out: &mut Finding)
    ensures { Finds (cond evaluated (spec.value_standings depth (value_at nodes.now part) out.old.found) out.old.found) out.old out.new }
{
    if evaluated {
        value(nodes, depth, part, out);
    }
}

/// Whether there is a run.
fn gives_some(nodes: &Nodes, runs: u32) -> bool
    ensures { result ≡ some_run (runs_in (leaves_at nodes.now runs)) }
{
    let mut at = runs;
    while let Some(cell) = nodes.leaf(at) {
        if let Leaf::Run(_) = cell.leaf {
            return true;
        }
        at = cell.rest;
    }
    false
}

/// An iteration (5.5, 5.5.2). What is evaluated once stands around its turns, and its filter within.
#[cycle(text)]
#[tactic(auto, unfolding(ada_lower::specs::Standings::iteration_standings, ada_lower::specs::Standings::selections_standings, ada_lower::specs::Standings::optional_standings))]
pub fn iteration(nodes: &Nodes, depth: u32, within: u32, id: u32, out: &mut Finding)
    ensures { Finds (spec.iteration_standings depth within (iteration_at nodes.now id) out.old.found) out.old out.new }
{
    match nodes.iteration(id) {
        None => {}
        Some(
            Iteration::Range {
                low,
                high,
                filter,
                ..
            },
        ) => {
            both(nodes, depth, low, high, out);
            optional(nodes, within, filter, out);
        }
        Some(
            Iteration::Components {
                selections: parts,
                filter,
                ..
            },
        ) => {
            selections(nodes, depth, parts, out);
            optional(nodes, within, filter, out);
        }
    }
}

/// A chunk specification (5.5).
#[cycle(text)]
#[tactic(auto, unfolding(ada_lower::specs::Standings::chunk_standings))]
pub fn chunk(nodes: &Nodes, depth: u32, id: u32, out: &mut Finding)
    ensures { Finds (spec.chunk_standings depth (chunk_at nodes.now id) out.old.found) out.old out.new }
{
    match nodes.chunk(id) {
        None => {}
        Some(Chunk::Count { value: part }) => expr(nodes, depth, part, out),
        Some(Chunk::Each { low, high, .. }) => both(nodes, depth, low, high, out),
    }
}

/// The construct that a reduction is, if it is parallel.
fn with_site(nodes: &Nodes, depth: u32, site: Option<u32>, iteration: u32, out: &mut Finding)
    ensures { Finds (spec.with_site depth site (spec.goes_through_range (iteration_at nodes.now iteration)) out.old.found) out.old out.new }
{
    match site {
        None => {}
        Some(number) => {
            let ranges = goes_through_range(nodes, iteration);
            stands(number, depth, ranges, out);
        }
    }
}

/// Where the values of a reduction stand.
fn depth_in(depth: u32, site: Option<u32>, out: &mut Finding) -> u32
    ensures { Learns (spec.depth_in depth site) out.old result out.new }
{
    match site {
        None => depth,
        Some(_) => deeper(depth, out),
    }
}

/// A reduction (4.5.10).
#[cycle(text)]
#[inline(never)]
fn reduction(nodes: &Nodes, depth: u32, site: Option<u32>, parts: Reduced, out: &mut Finding)
    ensures { Finds (reduced nodes.now depth site parts out.old.found) out.old out.new }
{
    with_site(nodes, depth, site, parts.iteration, out);
    let within = depth_in(depth, site, out);
    expr(nodes, depth, parts.initial, out);
    chunk(nodes, depth, parts.chunk, out);
    iteration(nodes, depth, within, parts.iteration, out);
    expr(nodes, within, parts.value, out);
}
