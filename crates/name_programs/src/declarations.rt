//! Declarations (3.1): each is elaborated behind those before it, which are the latest part.

ghost use Rattle.std.specs.Prelude.{◌≡◌, IfOk, OnOk, Some, option_map};
ghost use Rattle.name_programs.specs.Declares as declaring;
ghost use Rattle.name_programs.specs.Declares.{Ends};
ghost use Rattle.name_programs.specs.DeclarationSteps as step;
ghost use Rattle.name_rules.specs.Declarations as spec;
ghost use Rattle.name_rules.specs.Judges.{found_of, part_if};
ghost use Rattle.name_rules.specs.Judging.{joined};
ghost use Rattle.name_rules.specs.Statements.{no_decls};
ghost use Rattle.name_rules.specs.declared.scope.What.TheVariants as what;
ghost use Rattle.syntax_nodes.specs.Parts.{the_decl, the_decls, the_definition, the_expr, the_ids, the_indic};
ghost use Rattle.syntax_nodes.specs.Tables.{part_at};
ghost use Rattle.typed_tree.specs.Latest.{pop, second, top};
ghost use Rattle.typed_parts.specs.Stack.{parts};
ghost use Rattle.name_values.specs.Judged.{Judges};
ghost use Rattle.name_expressions.specs.Scenes.{named_at, node_at};
ghost use Rattle.name_programs.specs.Kept.{Declares, DeclaresOn};
ghost use Rattle.name_programs.specs.Texts.{brackets, node_of};

use crate::arrays::array;
use crate::declaration_lists::{all_ended, all_ids, begun_names, ended_name, with_mentions};
use crate::objects::objects;
use crate::records::record_of;
use crate::scene_at;
use crate::subtypes::{indic, modular_type, own_type_of, static_bound};
use crate::text::Text;
use ada_base::{Items, Reason};
use name_expressions::expressions::{expr, simple};
use name_expressions::scene::Scene;
use name_rules::log::Log;
use name_rules::scope::{Context, Names, What};
use name_rules::types::{Subtype, Wanted};
use name_values::attempt;
use name_values::judge::Judge;
use name_values::scope::{free, hidden_where};
use std::alloc::AllocError;
use syntax_nodes::{Decl, Definition, Tree};
use typed_parts::Parts;
use typed_tree::Declared;

fn number_what(value: Option<i128>) -> Option<What>
    ensures { result ≡ option_map what.Number value }
{
    match value {
        None => None,
        Some(value) => Some(What::Number(value)),
    }
}

/// What a number mentions is elaborated behind the others, unless it or one before it has a fault. Joined of these and
/// then what is mentioned.
#[tactic(auto, using(crate::proofs::Options::joined_none))]
fn number_mentions(
    out: &mut Parts,
    here: &Context,
    done: bool,
    value: Option<i128>,
) -> Result<bool, AllocError>
    ensures { Ends (here.now, joined (spec.and_mentions (top (parts out.old))) (part_if done (second (parts out.old))) value) (pop (pop (parts out.old))) result here.now (parts out.new) }
{
    let _here = here;
    let Some(_) = value else {
        out.leave_out();
        return Ok(false);
    };
    if !done {
        out.leave_out();
        return Ok(false);
    }
    attempt!(with_mentions(out));
    Ok(true)
}

/// The declaration of named numbers (3.3.2): WrongType, NotStatic at the first token of a value that isn't a static number.
#[tactic(auto, unfolding(name_rules::specs::Declarations::numbers))]
fn numbers(
    judge: &mut Judge,
    text: Text<'_>,
    start: usize,
    here: &mut Context,
    done: bool,
    identifiers: u32,
    value: u32,
) -> Result<bool, AllocError>
    ensures { DeclaresOn (pop (parts judge.old.out)) (spec.numbers text.entry.names.now (brackets text.entry) start here.old (part_if done (top (parts judge.old.out))) (the_ids (node_of text.entry identifiers)) (the_expr (node_of text.entry value))) judge.old result here.new judge.new }
{
    let alloc = judge.out.alloc();
    let ids = attempt!(all_ids(text.tree, alloc, identifiers));
    let free = attempt!(begun_names(text.names, start, here, &mut judge.log, alloc, &ids));
    let found = attempt!(expr(judge, scene_at!(text, here), Wanted::Other, value));
    let known = attempt!(static_bound(judge, found));
    attempt!(all_ended(text.names, here, number_what(known), &free));
    number_mentions(&mut judge.out, here, done, known)
}

/// Writes a declared exception into the table of exceptions, and gives its number; 2^32 are beyond memory.
fn new_exception(log: &mut Log, token: u32) -> Result<u32, AllocError>
    ensures { IfOk result (λ n. spec.new_exception token log.old ≡ (n, log.new)) }
{
    let number = log.exceptions.len();
    if number > 4_294_967_295 {
        return Err(AllocError);
    }
    attempt!(log.exceptions.push(Declared { name: token }));
    Ok(number as u32)
}

#[tactic(auto, using(crate::proofs::FromPlaces::drop_get, crate::proofs::FromPlaces::drop_none, crate::proofs::FromPlaces::drop_less))]
fn each_exception(
    names: &Names,
    here: &mut Context,
    log: &mut Log,
    ids: &Items<u32>,
    free: &Items<Option<u32>>,
) -> Result<(), AllocError>
    ensures { OnOk result (spec.each_exception names.now here.old ids.now free.now log.old ≡ (here.new, log.new)) }
{
    let mut i = 0;
    'exceptions: while let Some(token) = ids.get(i) {
        let Some(one) = free.get(i) else {
            return Ok(());
        };
        let number = attempt!(new_exception(log, *token));
        attempt!(ended_name(
            names,
            here,
            *one,
            Some(What::Exception(Reason::Declared(number))),
        ));
        if i == usize::MAX {
            return Err(AllocError);
        }
        i += 1;
    }
    Ok(())
}

/// The declaration of exceptions (11.1).
fn exceptions(
    names: &Names,
    start: usize,
    here: &mut Context,
    log: &mut Log,
    out: &Parts,
    done: bool,
    tree: &Tree,
    identifiers: u32,
) -> Result<bool, AllocError>
    ensures { declaring.Declares (step.exceptions names.now start here.old (part_if done (top (parts out.now))) (the_ids (part_at tree.now.nodes identifiers)) log.old) (pop (parts out.now)) result here.new log.new (parts out.now) }
{
    let alloc = out.alloc();
    let ids = attempt!(all_ids(tree, alloc, identifiers));
    let free = attempt!(begun_names(names, start, here, log, alloc, &ids));
    attempt!(each_exception(names, here, log, &ids, &free));
    Ok(done)
}

/// What a type is declared to be (3.2.1). What it mentions is the latest part.
#[tactic(auto, unfolding(name_rules::specs::Declarations::defined, name_rules::specs::Ranges::two_bounds))]
fn defined(
    judge: &mut Judge,
    scene: Scene<'_>,
    token: u32,
    id: u32,
) -> Result<Option<Subtype>, AllocError>
    ensures { Judges (named_at scene.entry spec.defined token (the_definition (node_at scene.entry id))) judge.old result judge.new }
{
    match scene.tree.definition(id) {
        Definition::RangeType { low, high } => {
            let x = attempt!(simple(judge, scene, Wanted::Other, low));
            let y = attempt!(simple(judge, scene, Wanted::Other, high));
            own_type_of(judge, token, x, y)
        }
        Definition::ModularType(modulus) => {
            let x = attempt!(simple(judge, scene, Wanted::Other, modulus));
            modular_type(judge, token, x)
        }
        Definition::ArrayType(definition) => array(judge, scene, definition),
        Definition::RecordType { first, more } => record_of(judge, scene, first, more),
    }
}

/// The end of a type's or a subtype's declaration. The latest parts are what is elaborated before it, and what it
/// mentions.
#[tactic(auto, using(crate::proofs::Options::joined_none))]
fn one_type(
    names: &Names,
    here: &mut Context,
    out: &mut Parts,
    done: bool,
    free: Option<u32>,
    subtype: Option<Subtype>,
) -> Result<bool, AllocError>
    ensures { Ends (spec.one_type names.now here.old (part_if done (second (parts out.old))) free (found_of subtype (top (parts out.old)))) (pop (pop (parts out.old))) result here.new (parts out.new) }
{
    let Some(subtype) = subtype else {
        attempt!(ended_name(names, here, free, None));
        out.leave_out();
        return Ok(false);
    };
    attempt!(ended_name(names, here, free, Some(What::Type(subtype))));
    if !done {
        out.leave_out();
        return Ok(false);
    }
    attempt!(with_mentions(out));
    Ok(true)
}

/// The declaration of a type (3.2.1).
fn declared_type(
    judge: &mut Judge,
    text: Text<'_>,
    start: usize,
    here: &mut Context,
    done: bool,
    token: u32,
    definition: u32,
) -> Result<bool, AllocError>
    ensures { DeclaresOn (pop (parts judge.old.out)) (step.declared_type text.entry.names.now (brackets text.entry) start here.old (part_if done (top (parts judge.old.out))) token (the_definition (node_of text.entry definition))) judge.old result here.new judge.new }
{
    let one = attempt!(free(text.names, start, here, &mut judge.log, token));
    attempt!(hidden_where(text.names, here, token, one));
    let subtype = attempt!(defined(judge, scene_at!(text, here), token, definition));
    one_type(text.names, here, &mut judge.out, done, one, subtype)
}

/// The declaration of a subtype (3.2.2).
fn declared_subtype(
    judge: &mut Judge,
    text: Text<'_>,
    start: usize,
    here: &mut Context,
    done: bool,
    token: u32,
    indication: u32,
) -> Result<bool, AllocError>
    ensures { DeclaresOn (pop (parts judge.old.out)) (step.declared_subtype text.entry.names.now (brackets text.entry) start here.old (part_if done (top (parts judge.old.out))) token (the_indic (node_of text.entry indication))) judge.old result here.new judge.new }
{
    let one = attempt!(free(text.names, start, here, &mut judge.log, token));
    attempt!(hidden_where(text.names, here, token, one));
    let subtype = attempt!(indic(judge, scene_at!(text, here), indication));
    one_type(text.names, here, &mut judge.out, done, one, subtype)
}

/// A declaration, in the region that begins at that place of the scope: Twice at a name that is declared there already.
#[tactic(auto, unfolding(name_rules::specs::Declarations::declaration))]
pub fn declaration(
    judge: &mut Judge,
    text: Text<'_>,
    start: usize,
    here: &mut Context,
    done: bool,
    id: u32,
) -> Result<bool, AllocError>
    ensures { DeclaresOn (pop (parts judge.old.out)) (spec.declaration text.entry.names.now (brackets text.entry) start here.old (part_if done (top (parts judge.old.out))) (the_decl (node_of text.entry id))) judge.old result here.new judge.new }
{
    match text.tree.decl(id) {
        Decl::ObjectDecl {
            names: identifiers,
            constant,
            object_type,
            value,
        } => objects(
            judge,
            text,
            start,
            here,
            done,
            identifiers,
            constant.is_some(),
            object_type,
            value,
        ),
        Decl::NumberDecl {
            names: identifiers,
            value,
            ..
        } => numbers(judge, text, start, here, done, identifiers, value),
        Decl::ExceptionDecl(identifiers) => {
            exceptions(
                text.names,
                start,
                here,
                &mut judge.log,
                &judge.out,
                done,
                text.tree,
                identifiers,
            )
        }
        Decl::TypeDecl {
            defined: token,
            definition,
            ..
        } => declared_type(judge, text, start, here, done, token, definition),
        Decl::SubtypeDecl {
            defined: token,
            indic: indication,
            ..
        } => declared_subtype(judge, text, start, here, done, token, indication),
    }
}

/// The declarations of a list behind those before it.
pub fn declarations_from(
    judge: &mut Judge,
    text: Text<'_>,
    start: usize,
    here: &mut Context,
    done: bool,
    more: u32,
) -> Result<bool, AllocError>
    ensures { DeclaresOn (pop (parts judge.old.out)) (spec.declarations text.entry.names.now (brackets text.entry) start here.old (part_if done (top (parts judge.old.out))) (the_decls (node_of text.entry more))) judge.old result here.new judge.new }
{
    let mut whole = done;
    let mut next = more;
    'decls: while let Some(cell) = text.tree.cell(next) {
        whole = attempt!(declaration(judge, text, start, here, whole, cell.first));
        next = cell.rest;
    }
    Ok(whole)
}

/// The declarations of a declarative part (3.11), in the region that begins at that place of the scope. The list of what is
/// elaborated is the latest part, in which the last comes first.
pub fn declarations(
    judge: &mut Judge,
    text: Text<'_>,
    start: usize,
    here: &mut Context,
    list: u32,
) -> Result<bool, AllocError>
    ensures { Declares (spec.declarations text.entry.names.now (brackets text.entry) start here.old (Some no_decls) (the_decls (node_of text.entry list))) judge.old result here.new judge.new }
{
    attempt!(judge.out.nothing());
    declarations_from(judge, text, start, here, true, list)
}
