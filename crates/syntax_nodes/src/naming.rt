//! Whether a part is a name or an identifier, where it was read as a sum or an expression.

ghost use Rattle.std.specs.Prelude.{◌≡◌, ◌≤◌, ◌<◌, MatchOption, IfSome, Some, None, length};
ghost use Rattle.syntax_tree.specs.Joining.{bare_name, bare_identifier, expr_identifier, factor_name, term_name, name_identifier};
ghost use Rattle.syntax_tree.specs.Syntax.{Sum, Product, NoAdding, NoMultiplying};
ghost use Rattle.syntax_nodes.specs.Names.{IsIdentifier, IsNameOf, TakesName};
ghost use Rattle.syntax_nodes.specs.Parts.{NoItem, AlsoItem, items_of, the_expr, the_factor, the_name, the_simple, the_term, the_addings, the_multiplyings};
ghost use Rattle.syntax_nodes.specs.Rooted.{stack, top, Fit};
ghost use Rattle.syntax_nodes.specs.Stack.{parts};
ghost use Rattle.syntax_nodes.specs.Tables.{part_at};

use crate::nodes::{Cell, Leaf, Node, One, Two};
use crate::parts::Parts;
use crate::rooting::{hold, node, taken};
use ada_base::Items;
use syntax_readers::Failure;
use syntax_tree::Sign;

/// The first cell of a list, if it has an item.
fn cell(nodes: &Items<Node>, roots: &Items<u32>, number: u32) -> Option<Cell>
    requires { Fit nodes.now roots.now }
    ensures { MatchOption result (items_of (part_at nodes.now number) ≡ NoItem) (λ c. items_of (part_at nodes.now number) ≡ AlsoItem (part_at nodes.now c.first) (items_of (part_at nodes.now c.rest))) }
{
    match node(nodes, roots, number) {
        Node::Cell(first, rest) => Some(Cell { first, rest }),
        _ => None,
    }
}

/// What a chain begins with, and the list of its links.
#[derive(Clone, Copy)]
struct Links {
    first: u32,
    more: u32,
}

/// The links of a term, if it is more than a factor.
fn term_links(nodes: &Items<Node>, roots: &Items<u32>, number: u32) -> Option<Links>
    requires { Fit nodes.now roots.now }
    ensures { MatchOption result (the_term (part_at nodes.now number) ≡ Product (the_factor (part_at nodes.now number)) NoMultiplying) (λ l. (the_term (part_at nodes.now number) ≡ Product (the_factor (part_at nodes.now l.first)) (the_multiplyings (part_at nodes.now l.more))) × (l.first < number)) }
{
    match node(nodes, roots, number) {
        Node::Two(Two::Product, first, more) => Some(Links { first, more }),
        _ => None,
    }
}

/// The sign and the links of a sum, if it is more than a term.
fn sum_links(nodes: &Items<Node>, roots: &Items<u32>, number: u32) -> Option<(Option<Sign>, Links)>
    requires { Fit nodes.now roots.now }
    ensures { MatchOption result (the_simple (part_at nodes.now number) ≡ Sum None (the_term (part_at nodes.now number)) NoAdding) (λ l. (the_simple (part_at nodes.now number) ≡ Sum l.0 (the_term (part_at nodes.now l.1.first)) (the_addings (part_at nodes.now l.1.more))) × (l.1.first < number)) }
{
    match node(nodes, roots, number) {
        Node::Two(Two::Sum(sign), first, more) => Some((sign, Links { first, more })),
        _ => None,
    }
}

/// The name that a factor is.
fn factor_name(nodes: &Items<Node>, roots: &Items<u32>, number: u32) -> Option<u32>
    requires { Fit nodes.now roots.now }
    ensures is { IsNameOf (part_at nodes.now) (factor_name (the_factor (part_at nodes.now number))) result }
    ensures below { IfSome result (λ id. id ≤ number) }
{
    match node(nodes, roots, number) {
        Node::Leaf(Leaf::Identifier(_)) => Some(number),
        Node::One(One::Name(_), _) => Some(number),
        _ => None,
    }
}

/// The name that a term is.
fn term_name(nodes: &Items<Node>, roots: &Items<u32>, number: u32) -> Option<u32>
    requires { Fit nodes.now roots.now }
    ensures is { IsNameOf (part_at nodes.now) (term_name (the_term (part_at nodes.now number))) result }
    ensures below { IfSome result (λ id. id ≤ number) }
{
    match term_links(nodes, roots, number) {
        None => factor_name(nodes, roots, number),
        Some(links) => match cell(nodes, roots, links.more) {
            None => factor_name(nodes, roots, links.first),
            Some(_) => None,
        },
    }
}

/// The name that a sum is.
#[tactic(auto, unfolding(syntax_tree::specs::Joining::bare_name))]
fn sum_name(nodes: &Items<Node>, roots: &Items<u32>, number: u32) -> Option<u32>
    requires { Fit nodes.now roots.now }
    ensures is { IsNameOf (part_at nodes.now) (bare_name (the_simple (part_at nodes.now number))) result }
    ensures below { IfSome result (λ id. id ≤ number) }
{
    match sum_links(nodes, roots, number) {
        None => term_name(nodes, roots, number),
        Some((None, links)) => match cell(nodes, roots, links.more) {
            None => term_name(nodes, roots, links.first),
            Some(_) => None,
        },
        Some((Some(_), _)) => None,
    }
}

/// The identifier that a name is. What is no name reads as the identifier 0.
fn name_identifier(nodes: &Items<Node>, roots: &Items<u32>, number: u32) -> Option<u32>
    requires { Fit nodes.now roots.now }
    ensures { result ≡ name_identifier (the_name (part_at nodes.now number)) }
{
    match node(nodes, roots, number) {
        Node::Leaf(Leaf::Identifier(at)) => Some(at),
        Node::One(One::Name(first), list) => match cell(nodes, roots, list) {
            None => Some(first),
            Some(_) => None,
        },
        _ => Some(0),
    }
}

/// The identifier that a sum is.
#[tactic(auto, unfolding(syntax_tree::specs::Joining::bare_identifier))]
fn sum_identifier(nodes: &Items<Node>, roots: &Items<u32>, number: u32) -> Option<u32>
    requires { Fit nodes.now roots.now }
    ensures { result ≡ bare_identifier (the_simple (part_at nodes.now number)) }
{
    match sum_name(nodes, roots, number) {
        Some(id) => name_identifier(nodes, roots, id),
        None => None,
    }
}

/// The latest root.
fn latest(nodes: &Items<Node>, roots: &Items<u32>) -> u32
    requires { Fit nodes.now roots.now }
    ensures { part_at nodes.now result ≡ top (stack nodes.now roots.now) }
{
    let roots = roots.as_slice();
    if roots.len() == 0 {
        0
    } else {
        roots[roots.len() - 1]
    }
}

/// The identifier that the latest part is, as a sum and as an expression.
#[tactic(auto, unfolding(crate::specs::Stack::parts))]
pub fn bare(out: &Parts) -> Option<u32>
    ensures { IsIdentifier (top (parts out.now)) result }
{
    let root = latest(&out.nodes, &out.roots);
    sum_identifier(&out.nodes, &out.roots, root)
}

/// Whether the latest part, read as a sum, is a name. It is then taken as that name.
#[tactic(auto, unfolding(crate::specs::Stack::parts))]
pub fn take_name(out: &mut Parts) -> Result<bool, Failure>
    ensures { TakesName result (parts out.new) (parts out.old) }
{
    let root = taken(&out.nodes, &mut out.roots);
    match sum_name(&out.nodes, &out.roots, root) {
        Some(name) => {
            hold(&out.nodes, &mut out.roots, name)?;
            Ok(true)
        }
        None => Ok(false),
    }
}
