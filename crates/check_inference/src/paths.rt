//! Paths of names (9.10.1).

ghost use Rattle.std.specs.Prelude.{◌≡◌, ◌++◌, ◌∷◌, map, replicate, IfOk, OnOk};
ghost use Rattle.typed_tree.specs.Decoded.{as_selection, chunk_at, expr_at, part_at, selections_at};
ghost use Rattle.typed_tree.specs.Syntax.{Selections};
ghost use Rattle.ada_meaning.specs.Values.{is_modular};
ghost use Rattle.check_effects.specs.Effects.{a_distance, a_parameter, added, by_distance, is_distance, opposite, shifted};
ghost use Rattle.check_clashes.specs.declared.effects.Selector.TheVariants as selector_of;
ghost use Rattle.check_inference.specs.Paths as spec;
ghost use Rattle.check_inference.specs.Paths.{bound_of, name_of, place_of};
ghost use Rattle.check_inference.specs.Words.{path_name};

use crate::environment::{Environment, Item, Named, hide, role, root_named};
use crate::source::Source;
use ada_base::{Base, Items, Op};
use check_clashes::effects::{Path, Selector};
use std::alloc::AllocError;
use typed_tree::{Chunk, Class, Expr, Root, Selection};

/// The parameter that an expression is.
fn parameter(source: Source<'_>, id: u32) -> Option<u32>
    ensures { result ≡ a_parameter (expr_at source.entry.typed.now.nodes id) }
{
    match source.typed.nodes.expr(id) {
        Expr::Parameter { parameter, .. } => Some(parameter),
        _ => None,
    }
}

fn is_distance(value: i64) -> bool
    ensures { result ≡ is_distance value }
{
    1 <= value && value <= 2_147_483_647
}

/// The distance from a parameter that an expression is: one number literal from 1 to 2147483647.
fn distance(source: Source<'_>, id: u32) -> Option<i64>
    ensures { result ≡ a_distance (expr_at source.entry.typed.now.nodes id) }
{
    match source.typed.nodes.expr(id) {
        Expr::Static { value, literal, .. } => {
            if literal && is_distance(value) {
                Some(value)
            } else {
                None
            }
        }
        _ => None,
    }
}

/// The same where it is subtracted.
fn opposite(source: Source<'_>, id: u32) -> Option<i64>
    ensures { result ≡ opposite (a_distance (expr_at source.entry.typed.now.nodes id)) }
{
    match source.typed.nodes.expr(id) {
        Expr::Static { value, literal, .. } => {
            if literal && is_distance(value) {
                Some(-value)
            } else {
                None
            }
        }
        _ => None,
    }
}

/// What a parameter and a distance are as an index, where both are there.
fn shifted(env: Environment<'_>, parameter: Option<u32>, distance: Option<i64>) -> Selector
    ensures { result ≡ shifted selector_of.Any (spec.role (place_of env.entry)) parameter distance }
{
    match (parameter, distance) {
        (Some(number), Some(n)) => role(env, number, n),
        _ => Selector::Any,
    }
}

fn is_modular(class: Class) -> bool
    ensures { result ≡ is_modular class }
{
    matches!(class, Class::Integer(Base::Modulo(_)))
}

/// What an operation of two operands is as an index. Numbers of a modular type lie on a circle.
fn by_distance(
    source: Source<'_>,
    env: Environment<'_>,
    op: Op,
    class: Class,
    left: u32,
    right: u32,
) -> Selector
    ensures { result ≡ by_distance selector_of.Any (spec.role (place_of env.entry)) op class (expr_at source.entry.typed.now.nodes left) (expr_at source.entry.typed.now.nodes right) }
{
    if is_modular(class) {
        Selector::Any
    } else {
        added(source, env, op, left, right)
    }
}

fn added(source: Source<'_>, env: Environment<'_>, op: Op, left: u32, right: u32) -> Selector
    ensures { result ≡ added selector_of.Any (spec.role (place_of env.entry)) op (expr_at source.entry.typed.now.nodes left) (expr_at source.entry.typed.now.nodes right) }
{
    match op {
        Op::Add => {
            let first = parameter(source, left);
            if first.is_some() {
                shifted(env, first, distance(source, right))
            } else {
                shifted(env, parameter(source, right), distance(source, left))
            }
        }
        Op::Sub => shifted(env, parameter(source, left), opposite(source, right)),
        _ => Selector::Any,
    }
}

/// What an index is.
fn index(source: Source<'_>, env: Environment<'_>, id: u32) -> Selector
    ensures { result ≡ spec.selector (place_of env.entry) (expr_at source.entry.typed.now.nodes id) }
{
    match source.typed.nodes.expr(id) {
        Expr::Static { value, .. } => Selector::Fixed(value),
        Expr::Parameter { parameter, .. } => role(env, parameter, 0),
        Expr::Binary {
            op,
            class,
            left,
            right,
            ..
        } => by_distance(source, env, op, class, left, right),
        _ => Selector::Any,
    }
}

#[tactic(auto, unfolding(crate::specs::Paths::selectors_with))]
fn selector(
    source: Source<'_>,
    env: Environment<'_>,
    id: u32,
    found: &mut Items<Selector>,
) -> Result<(), AllocError>
    ensures { OnOk result ((rest : Selections) → spec.selectors_with (place_of env.entry) rest found.new ≡ spec.selectors_with (place_of env.entry) (as_selection (part_at source.entry.typed.now.nodes id) rest) found.old) }
{
    match source.typed.nodes.selection(id) {
        None => Ok(()),
        Some(Selection::Field { number, .. }) => found.push(Selector::Field(number)),
        Some(Selection::Index { index: part, .. }) => found.push(index(source, env, part)),
    }
}

/// Adds what a name goes on with.
#[tactic(auto, unfolding(crate::specs::Paths::selectors_with))]
fn selectors(
    source: Source<'_>,
    env: Environment<'_>,
    id: u32,
    found: &mut Items<Selector>,
) -> Result<(), AllocError>
    ensures { OnOk result (found.new ≡ spec.selectors_with (place_of env.entry) (selections_at source.entry.typed.now.nodes id) found.old) }
{
    let mut at = id;
    while let Some(cell) = source.typed.nodes.selections(at) {
        selector(source, env, cell.first, found)?;
        at = cell.rest;
    }
    Ok(())
}

/// The path of a name. An Err is want of memory.
pub fn path(
    source: Source<'_>,
    env: Environment<'_>,
    root: Root,
    selections: u32,
) -> Result<Path, AllocError>
    ensures { IfOk result (λ path. path_name path ≡ spec.named (place_of env.entry) root (selections_at source.entry.typed.now.nodes selections)) }
{
    let named = root_named(env, root);
    let mut found = Items::new(source.alloc);
    found.extend(named.selectors)?;
    selectors(source, env, selections, &mut found)?;
    Ok(Path {
        object: named.object,
        selectors: found,
    })
}

/// What a path is the path of.
pub fn named_by(path: &Path) -> Named<'_>
    ensures { name_of result ≡ path_name path.now }
{
    Named {
        object: path.object,
        selectors: path.selectors.as_slice(),
    }
}

fn item_selector(judged: bool) -> Selector
    ensures { result ≡ spec.item_selector judged }
{
    if judged {
        Selector::Loop(0)
    } else {
        Selector::Any
    }
}

/// Adds so many of one selector.
fn repeat(found: &mut Items<Selector>, count: u32, selector: Selector) -> Result<(), AllocError>
    ensures { OnOk result (found.new ≡ found.old ++ replicate count selector) }
{
    for _dimension in 0..count {
        found.push(selector)?;
    }
    Ok(())
}

/// The path of a component that an iteration over an array reaches: each dimension has an index. An Err is want of memory.
pub fn component(
    source: Source<'_>,
    env: Environment<'_>,
    judged: bool,
    root: Root,
    selections: u32,
    dimensions: u32,
) -> Result<Path, AllocError>
    ensures { IfOk result (λ path. path_name path ≡ spec.component judged dimensions (spec.named (place_of env.entry) root (selections_at source.entry.typed.now.nodes selections))) }
{
    let mut whole = path(source, env, root, selections)?;
    repeat(&mut whole.selectors, dimensions, item_selector(judged))?;
    Ok(whole)
}

/// Items with one before them. An Err is want of memory.
pub fn with_item<'a>(
    source: Source<'_>,
    item: u32,
    path: &'a Path,
    items: &'a [Item<'a>],
) -> Result<Items<Item<'a>>, AllocError>
    ensures { IfOk result (λ list. map bound_of list ≡ record { item = item; name = path_name path.now } ∷ map bound_of items.now) }
{
    let mut list = Items::new(source.alloc);
    list.push(Item {
        item,
        named: named_by(path),
    })?;
    list.extend(items)?;
    Ok(list)
}

/// Below a chunk specification that isn't judged.
pub fn chunk_below<'a>(source: Source<'_>, env: Environment<'a>, id: u32) -> Environment<'a>
    ensures { place_of result ≡ spec.chunk_hidden (chunk_at source.entry.typed.now.nodes id) (place_of env.entry) }
{
    match source.typed.nodes.chunk(id) {
        Some(Chunk::Each { parameter, .. }) => hide(env, parameter),
        Some(Chunk::Count { .. }) | None => env,
    }
}

/// The parameter of a chunk specification that is judged.
pub fn chunk_parameter(source: Source<'_>, id: u32) -> Option<u32>
    ensures { result ≡ spec.chunk_parameter (chunk_at source.entry.typed.now.nodes id) }
{
    match source.typed.nodes.chunk(id) {
        Some(Chunk::Each { parameter, .. }) => Some(parameter),
        Some(Chunk::Count { .. }) | None => None,
    }
}
