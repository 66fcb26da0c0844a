//! Parts of arrays whose indexes are parameters of loops (4.1.1), which are found before a run.

ghost use Rattle.std.specs.Prelude.{◌≡◌, ◌+ℤ◌, pos, [], ◌∷◌, ◌++◌, IfSome, OnErr, OnOk, option_copied};
ghost use Rattle.typed_tree.specs.Decoded.{as_selection, part_at, selections_at};
ghost use Rattle.typed_tree.specs.Syntax.{Selections};
ghost use Rattle.run_parts.specs.Paths.{AreOf, index_by, path_at, selections_by};

use ada_base::Items;
use std::alloc::{AllocError, Global};
use std::marker::Model;
use typed_tree::{Expr, Nodes, Selection};

/// An index that is the parameter of a loop: its token and that of the parameter's name, the parameter's number, how many
/// cells its neighbours are apart, its lower bound, and how far its upper bound is above that.
#[derive(Clone, Copy)]
pub struct ParameterIndex {
    pub at: u32,
    pub token: u32,
    pub parameter: u32,
    pub stride: u32,
    pub low: i64,
    pub span: u32,
}

/// Selections that are one such index, or two, and nothing else.
#[derive(Clone, Copy)]
pub enum Path {
    One(ParameterIndex),
    Two(ParameterIndex, ParameterIndex),
}

/// The paths of a table of nodes, by the numbers of their selections. Contracts see what each number has.
#[derive(Drop)]
pub struct Paths {
    places: Items<Option<u32>>,
    list: Items<Path>,
}

impl Model for Paths {
    ghost use Rattle.std.specs.Prelude.{List, Option};
    ghost use Rattle.run_parts.specs.declared.paths.Path.{Path};
    ghost use Rattle.run_parts.specs.Paths.{AreWithin, paths_in};

    ghost Value = { List (Option Path) };

    ghost view = { λ p. paths_in p.list p.places };

    ghost invariant = { λ p. AreWithin p.list p.places };
}

impl Paths {
    /// The paths of the nodes of a table whose numbers are smaller than this, or of as many of them as there is memory
    /// for.
    pub fn of(alloc: Global, nodes: &Nodes, count: u32) -> Paths
        ensures { AreOf nodes.now result }
    {
        let mut paths = Paths {
            places: Items::new(alloc),
            list: Items::new(alloc),
        };
        for id in 0..count {
            if paths.push(found(nodes, id)).is_err() {
                return paths;
            }
        }
        paths
    }

    // What one number more has. An Err is want of memory or of numbers.
    fn push(&mut self, found: Option<Path>) -> Result<(), AllocError>
        ensures ok { OnOk result (self.new ≡ self.old ++ found ∷ []) }
        ensures err { OnErr result (self.new ≡ self.old) }
    {
        match found {
            None => self.places.push(None),
            Some(path) => {
                let Ok(place) = u32::try_from(self.list.len()) else {
                    return Err(AllocError);
                };
                self.list.push(path)?;
                self.places.push(Some(place))
            }
        }
    }

    /// The path of selections, where they are one.
    pub fn path(&self, id: u32) -> Option<&Path>
        ensures { option_copied result ≡ path_at self.now id }
    {
        match self.places.get(id as usize) {
            Some(Some(place)) => self.list.get(*place as usize),
            _ => None,
        }
    }
}

// the path that selections are
fn found(nodes: &Nodes, id: u32) -> Option<Path>
    ensures { IfSome result (λ path. selections_at nodes.now id ≡ selections_by path) }
{
    let cell = nodes.selections(id)?;
    let first = index_at(nodes, cell.first)?;
    match nodes.selections(cell.rest) {
        None => Some(Path::One(first)),
        Some(next) => {
            let second = index_at(nodes, next.first)?;
            match nodes.selections(next.rest) {
                None => Some(Path::Two(first, second)),
                Some(_) => None,
            }
        }
    }
}

// a selection that is an index by the parameter of a loop
fn index_at(nodes: &Nodes, id: u32) -> Option<ParameterIndex>
    ensures { IfSome result (λ index. (rest : Selections) → as_selection (part_at nodes.now id) rest ≡ index_by index rest) }
{
    match nodes.selection(id) {
        Some(
            Selection::Index {
                at,
                index,
                low,
                high,
                stride,
            },
        ) => match nodes.expr(index) {
            Expr::Parameter {
                at: token,
                parameter,
            } => {
                let span = span_of(low, high)?;
                Some(ParameterIndex {
                    at,
                    token,
                    parameter,
                    stride,
                    low,
                    span,
                })
            }
            _ => None,
        },
        _ => None,
    }
}

// how far one bound is above another, where 32 bits hold that
fn span_of(low: i64, high: i64) -> Option<u32>
    ensures { IfSome result (λ span. high ≡ low +ℤ pos span) }
{
    if low <= high {
        u32::try_from(high.abs_diff(low)).ok()
    } else {
        None
    }
}
