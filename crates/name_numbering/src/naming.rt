//! All that is known of a text's tokens before its rules are judged.

ghost use Rattle.std.specs.Prelude.{◌≡◌, ◌+◌, IfOk};
ghost use Rattle.name_symbols.specs.Naming as spec;
ghost use Rattle.syntax_nodes.specs.Parts.{the_program, the_unit, the_units};
ghost use Rattle.syntax_nodes.specs.Tables.{part_at};

use crate::symbols::symbols_of;
use crate::texts::{texts_of, values_of};
use ada_base::Tokens;
use name_rules::scope::Names;
use std::alloc::{AllocError, Global};
use syntax_nodes::{Tree, Unit};

fn one_sub(tree: &Tree, id: u32) -> u32
    ensures { result ≡ spec.one_sub (the_unit (part_at tree.now.nodes id)) }
{
    match tree.unit(id) {
        Unit::Decl(_) => 0,
        Unit::Sub(_) => 1,
    }
}

/// How many subprograms a list of declarations has; 2^32 are beyond memory.
fn sub_count(tree: &Tree, more: u32) -> Result<u32, AllocError>
    ensures { IfOk result (λ n. n ≡ spec.sub_count (the_units (part_at tree.now.nodes more))) }
{
    let mut count: u32 = 0;
    let mut next = more;
    'units: while let Some(cell) = tree.cell(next) {
        if count == u32::MAX {
            return Err(AllocError);
        }
        count += one_sub(tree, cell.first);
        next = cell.rest;
    }
    Ok(count)
}

/// What is known of a text's tokens, of which this is the tree.
#[tactic(auto, unfolding(name_symbols::specs::Naming::names_of))]
pub fn names_of(tokens: &Tokens, tree: &Tree, alloc: Global) -> Result<Names, AllocError>
    ensures { IfOk result (λ names. names ≡ spec.names_of tokens.now (the_program (part_at tree.now.nodes tree.now.root))) }
{
    let main = tree.main(tree.program(tree.root()).main);
    Ok(Names {
        symbols: symbols_of(tokens, alloc)?,
        values: values_of(tokens, alloc)?,
        texts: texts_of(tokens, alloc)?,
        subs: sub_count(tree, main.units)?,
    })
}
