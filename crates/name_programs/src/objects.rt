//! Objects (3.3.1): their cells, their initial values, and what is elaborated.

ghost use Rattle.std.specs.Prelude.{◌≡◌, ◌∷◌, IfOk, OnOk};
ghost use Rattle.name_programs.specs.OneObject as single;
ghost use Rattle.name_programs.specs.DeclarationSteps as step;
ghost use Rattle.name_programs.specs.Declares.{Ends, Initials, given_initial, initial_of};
ghost use Rattle.name_rules.specs.Declarations as spec;
ghost use Rattle.name_rules.specs.Judges.{Says, found, found_of, part_if};
ghost use Rattle.syntax_nodes.specs.Parts.{the_expr, the_ids, the_object_type};
ghost use Rattle.syntax_nodes.specs.Tables.{part_at};
ghost use Rattle.syntax_nodes.specs.Views.{optional};
ghost use Rattle.typed_tree.specs.Latest.{pop, second, third, top};
ghost use Rattle.typed_parts.specs.Stack.{parts};
ghost use Rattle.name_values.specs.Judged.{Judges};
ghost use Rattle.name_expressions.specs.Scenes.{named_at, node_at};
ghost use Rattle.name_programs.specs.Kept.{DeclaresOn};
ghost use Rattle.name_programs.specs.Texts.{brackets, node_of};

use crate::arrays::array;
use crate::declaration_lists::{all_ids, begun_names, ended_name, with_mentions};
use crate::rules::{counted_on, unless};
use crate::subtypes::indic;
use crate::text::Text;
use ada_base::Items;
use name_expressions::expressions::{expr, judged_alone};
use name_expressions::scene::Scene;
use name_rules::limits::{MOST_CELLS, MOST_OBJECTS};
use name_rules::log::{Bound, Log, Rule};
use name_rules::scope::{Context, Names, What};
use name_rules::types::Subtype;
use name_values::attempt;
use name_values::judge::Judge;
use name_values::logs::breaks;
use name_values::names::cells_in;
use name_values::scope::copied;
use name_values::types::{is_integer, is_modular, lies_in, number_of, wanted_of};
use name_values::values::{stored, value_of};
use std::alloc::AllocError;
use syntax_nodes::{ObjectType, Tree};
use typed_parts::Parts;
use typed_tree::Object;

/// An initial value: whether there is one, which is a part then, and its static value.
#[derive(Clone, Copy)]
pub struct Given {
    pub stored: bool,
    pub value: Option<i128>,
}

/// The first cell of an owner's objects: the first four of a thread's body are the thread's.
fn first_room(names: &Names, owner: u32) -> u32
    ensures { result ≡ spec.first_room names.now owner }
{
    if names.subs < owner { 4 } else { 0 }
}

/// The place behind an object's cells, if it is one of the owner's; 2^32 cells are beyond memory.
fn room_behind(object: Object, owner: u32, room: u32) -> Result<u32, AllocError>
    ensures { IfOk result (λ n. n ≡ step.room_behind room owner object) }
{
    if object.owner == owner {
        if object.cells > u32::MAX - room {
            return Err(AllocError);
        }
        return Ok(room + object.cells);
    }
    Ok(room)
}

/// Where the next object of an owner begins among its cells.
#[tactic(auto, using(crate::proofs::Rooms::room_step, crate::proofs::FromPlaces::drop_none, crate::proofs::FromPlaces::drop_less))]
fn room(names: &Names, log: &Log, owner: u32) -> Result<u32, AllocError>
    ensures { IfOk result (λ n. n ≡ spec.room (spec.first_room names.now owner) owner log.now.objects) }
{
    let mut room = first_room(names, owner);
    let mut i = 0;
    'objects: while let Some(object) = log.objects.get(i) {
        room = attempt!(room_behind(*object, owner, room));
        if i == usize::MAX {
            return Err(AllocError);
        }
        i += 1;
    }
    Ok(room)
}

/// Counts an object of so many cells: Limit at the token that passes the limit of objects or of cells. Whether it keeps
/// both.
pub fn cells_counted(log: &mut Log, token: u32, cells: u64) -> Result<bool, AllocError>
    ensures { Says (spec.cells_counted token cells log.old) result log.new }
{
    let declared = log.declared;
    let before = log.cells;
    let all = counted_on(before, cells);
    if declared == u32::MAX {
        return Err(AllocError);
    }
    log.declared = declared + 1;
    log.cells = all;
    attempt!(unless(
        log,
        !(declared == MOST_OBJECTS),
        token,
        Rule::Limit { of: Bound::Objects },
    ));
    attempt!(unless(
        log,
        MOST_CELLS < before || all <= MOST_CELLS,
        token,
        Rule::Limit { of: Bound::Cells },
    ));
    Ok(declared < MOST_OBJECTS && all <= MOST_CELLS)
}

/// Writes an object of so many cells into the table of objects, and gives its number.
fn object_written(
    names: &Names,
    here: &Context,
    log: &mut Log,
    token: u32,
    number: u32,
    cells: u64,
    constant: bool,
    value: Option<i64>,
) -> Result<u32, AllocError>
    ensures { IfOk result (λ n. spec.object_written names.now here.now token number cells constant value log.old ≡ (n, log.new)) }
{
    let written = log.objects.len();
    if written > 4_294_967_295 || cells > 4_294_967_295 {
        return Err(AllocError);
    }
    let offset = attempt!(room(names, log, here.owner));
    attempt!(
        log.objects.push(Object {
            name: token,
            subtype: number,
            constant,
            owner: here.owner,
            offset,
            cells: cells as u32,
            value,
        })
    );
    Ok(written as u32)
}

/// An object of a subtype, with its number, unless it passes a limit: Limit at its token.
#[tactic(auto, unfolding(name_rules::specs::Declarations::new_object))]
pub fn new_object(
    names: &Names,
    here: &Context,
    log: &mut Log,
    token: u32,
    subtype: Subtype,
    constant: bool,
    value: Option<i64>,
) -> Result<Option<u32>, AllocError>
    ensures { Says (spec.new_object names.now here.now token subtype constant value log.old) result log.new }
{
    let cells = cells_in(log, subtype);
    let fits = attempt!(cells_counted(log, token, cells));
    let number = attempt!(number_of(log, subtype));
    if !fits {
        return Ok(None);
    }
    let object = attempt!(object_written(names, here, log, token, number, cells, constant, value));
    Ok(Some(object))
}

/// The value of an integer constant, but for modular types, whose initial value is static and lies in its subtype (4.9).
#[tactic(auto, using(name_expressions::proofs::Plain::plain_kept))]
fn static_in(subtype: Subtype, value: Option<i128>) -> Option<i64>
    ensures { result ≡ spec.static_in subtype value }
{
    match subtype {
        Subtype::Scalar(scalar) => match value {
            Some(value) => {
                if is_integer(scalar.kind) && !is_modular(scalar.kind) && lies_in(scalar, value) {
                    Some(value as i64)
                } else {
                    None
                }
            }
            None => None,
        },
        Subtype::Composite(_) => None,
    }
}

/// The value of an object that is a static constant, whose initial value is the latest part.
fn constant_value(out: &Parts, constant: bool, subtype: Subtype, given: Given) -> Option<i64>
    ensures { result ≡ spec.constant_value constant subtype (given_initial given (top (parts out.now))) }
{
    let _out = out;
    if constant {
        static_in(subtype, given.value)
    } else {
        None
    }
}

/// An initial value of an object of a subtype, which is the latest part.
#[tactic(auto, unfolding(name_rules::specs::Declarations::initial))]
fn initial(
    judge: &mut Judge,
    scene: Scene<'_>,
    subtype: Option<Subtype>,
    value: Option<u32>,
) -> Result<Option<Given>, AllocError>
    ensures { Initials (named_at scene.entry spec.initial (found_of subtype (top (parts judge.old.out))) (optional (node_at scene.entry) the_expr value) judge.old.log) (parts judge.old.out) result judge.new.log (parts judge.new.out) }
{
    let Some(value) = value else {
        attempt!(judge.out.nothing());
        return Ok(Some(Given {
            stored: false,
            value: None,
        }));
    };
    let Some(subtype) = subtype else {
        attempt!(judged_alone(judge, scene, value));
        attempt!(judge.out.nothing());
        return Ok(None);
    };
    let found = attempt!(expr(judge, scene, wanted_of(subtype), value));
    match found {
        None => Ok(None),
        Some(found) => {
            let first = syntax_first_tokens::of_expr(scene.tree, value);
            if attempt!(stored(judge, subtype, first, found)) {
                Ok(Some(Given {
                    stored: true,
                    value: value_of(found),
                }))
            } else {
                Ok(None)
            }
        }
    }
}

/// WrongType at a constant's first identifier where it has no value. Its subtype is the part before the latest one.
fn valued_constant(
    log: &mut Log,
    out: &Parts,
    first: u32,
    constant: bool,
    subtype: Option<Subtype>,
    tree: &Tree,
    value: Option<u32>,
) -> Result<(), AllocError>
    ensures { OnOk result (spec.valued_constant first constant (found_of subtype (second (parts out.now))) (optional (part_at tree.now.nodes) the_expr value) log.old ≡ (tt, log.new)) }
{
    let _out = out;
    let _tree = tree;
    if !constant {
        return Ok(());
    }
    match subtype {
        None => Ok(()),
        Some(_) => match value {
            Some(_) => Ok(()),
            None => breaks(log, first, Rule::WrongType),
        },
    }
}

/// An object is elaborated behind what is before: with its initial value, the latest part, if it has one.
fn with_object(out: &mut Parts, constant: bool, number: u32, given: bool) -> Result<(), AllocError>
    ensures { OnOk result ((top (parts out.new) ≡ spec.with_object (second (parts out.old)) constant number (part_if given (top (parts out.old)))) × (pop (parts out.new) ≡ pop (pop (parts out.old)))) }
{
    if constant {
        if given {
            attempt!(out.declare_constant(number));
            attempt!(out.also());
            return Ok(());
        }
        out.leave_out();
        return Ok(());
    }
    if given {
        attempt!(out.declare_variable(number));
        attempt!(out.also());
        return Ok(());
    }
    out.leave_out();
    attempt!(out.declare_default(number));
    attempt!(out.also());
    Ok(())
}

/// An object is elaborated behind what its subtype mentions and what is before that.
fn elaborated(out: &mut Parts, constant: bool, number: u32, given: bool) -> Result<(), AllocError>
    ensures { OnOk result ((top (parts out.new) ≡ spec.with_object (spec.with_mentions (third (parts out.old)) (second (parts out.old))) constant number (part_if given (top (parts out.old)))) × (pop (parts out.new) ≡ pop (pop (pop (parts out.old))))) }
{
    attempt!(out.rotate());
    attempt!(out.rotate());
    attempt!(with_mentions(out));
    attempt!(out.swap());
    with_object(out, constant, number, given)
}

/// The end of an object's declaration, with its number unless it passed a limit. The latest parts are what is elaborated
/// before it, its subtype, and its initial value.
fn object_ended(
    names: &Names,
    here: &mut Context,
    out: &mut Parts,
    free: Option<u32>,
    token: u32,
    constant: bool,
    done: bool,
    subtype: Subtype,
    given: Given,
    number: Option<u32>,
) -> Result<bool, AllocError>
    ensures { Ends (spec.object_ended names.now here.old token free constant (found subtype (second (parts out.old))) (given_initial given (top (parts out.old))) (part_if done (third (parts out.old))) number) (pop (pop (pop (parts out.old)))) result here.new (parts out.new) }
{
    let _token = token;
    let Some(number) = number else {
        attempt!(ended_name(names, here, free, None));
        out.leave_out();
        out.leave_out();
        return Ok(false);
    };
    let value = constant_value(out, constant, subtype, given);
    let what = What::Object {
        number,
        subtype,
        variable: !constant,
        value,
    };
    attempt!(ended_name(names, here, free, Some(what)));
    if !done {
        out.leave_out();
        out.leave_out();
        return Ok(false);
    }
    attempt!(elaborated(out, constant, number, given.stored));
    Ok(true)
}

/// The declaration of an object whose subtype or initial value has a fault: it counts, and declares nothing else. The
/// three latest parts give way to one.
fn no_object(
    names: &Names,
    here: &mut Context,
    judge: &mut Judge,
    token: u32,
    free: Option<u32>,
) -> Result<bool, AllocError>
    ensures { DeclaresOn (pop (pop (pop (parts judge.old.out)))) (step.no_object names.now here.old token free) judge.old result here.new judge.new }
{
    let _fits = attempt!(cells_counted(&mut judge.log, token, 0));
    attempt!(ended_name(names, here, free, None));
    judge.out.leave_out();
    judge.out.leave_out();
    Ok(false)
}

/// The declaration of one object. The latest parts are what is elaborated before it, its subtype, and its initial value.
fn one_object(
    names: &Names,
    here: &mut Context,
    judge: &mut Judge,
    token: u32,
    free: Option<u32>,
    constant: bool,
    done: bool,
    subtype: Option<Subtype>,
    given: Option<Given>,
) -> Result<bool, AllocError>
    ensures { DeclaresOn (pop (pop (pop (parts judge.old.out)))) (spec.one_object names.now here.old token free constant (part_if done (third (parts judge.old.out))) (found_of subtype (second (parts judge.old.out))) (initial_of given (top (parts judge.old.out)))) judge.old result here.new judge.new }
{
    let Some(subtype) = subtype else {
        return no_object(names, here, judge, token, free);
    };
    let Some(given) = given else {
        return no_object(names, here, judge, token, free);
    };
    let value = constant_value(&judge.out, constant, subtype, given);
    let number = attempt!(new_object(names, here, &mut judge.log, token, subtype, constant, value));
    let whole = attempt!(object_ended(
        names,
        here,
        &mut judge.out,
        free,
        token,
        constant,
        done,
        subtype,
        given,
        number,
    ));
    Ok(whole)
}

/// The subtype of an object.
fn typed_object(judge: &mut Judge, scene: Scene<'_>, id: u32) -> Result<Option<Subtype>, AllocError>
    ensures { Judges (named_at scene.entry spec.typed_object (the_object_type (node_at scene.entry id))) judge.old result judge.new }
{
    match scene.tree.object_type(id) {
        ObjectType::Indicated(indication) => indic(judge, scene, indication),
        ObjectType::Anonymous(definition) => array(judge, scene, definition),
    }
}

/// One object of a declaration, whose type and value are judged among the names around it. What is elaborated before it
/// is the latest part.
fn next_object(
    judge: &mut Judge,
    text: Text<'_>,
    inner: &Context,
    here: &mut Context,
    constant: bool,
    first: u32,
    done: bool,
    token: u32,
    free: Option<u32>,
    object_type: u32,
    value: Option<u32>,
) -> Result<bool, AllocError>
    ensures { DeclaresOn (pop (parts judge.old.out)) (single.object text.entry.names.now (brackets text.entry) inner.now here.old constant first (the_object_type (node_of text.entry object_type)) (optional (node_of text.entry) the_expr value) (part_if done (top (parts judge.old.out))) token free) judge.old result here.new judge.new }
{
    let subtype = attempt!(typed_object(
        judge,
        Scene {
            names: text.names,
            tree: text.tree,
            here: inner,
            levels: text.levels
        },
        object_type,
    ));
    let given = attempt!(initial(
        judge,
        Scene {
            names: text.names,
            tree: text.tree,
            here: inner,
            levels: text.levels
        },
        subtype,
        value,
    ));
    attempt!(valued_constant(
        &mut judge.log,
        &judge.out,
        first,
        constant,
        subtype,
        text.tree,
        value,
    ));
    let whole = attempt!(one_object(
        text.names, here, judge, token, free, constant, done, subtype, given,
    ));
    Ok(whole)
}

/// The objects of one declaration, whose type and value are judged for each among the names around it.
#[tactic(auto, using(crate::proofs::FromPlaces::drop_get, crate::proofs::FromPlaces::drop_none, crate::proofs::FromPlaces::drop_less))]
fn each_object(
    judge: &mut Judge,
    text: Text<'_>,
    inner: &Context,
    here: &mut Context,
    constant: bool,
    first: u32,
    done: bool,
    ids: &Items<u32>,
    free: &Items<Option<u32>>,
    object_type: u32,
    value: Option<u32>,
) -> Result<bool, AllocError>
    ensures { DeclaresOn (pop (parts judge.old.out)) (spec.each_object text.entry.names.now (brackets text.entry) inner.now here.old constant first (the_object_type (node_of text.entry object_type)) (optional (node_of text.entry) the_expr value) (part_if done (top (parts judge.old.out))) ids.now free.now) judge.old result here.new judge.new }
{
    let mut whole = done;
    let mut i = 0;
    'objects: while let Some(token) = ids.get(i) {
        let Some(one) = free.get(i) else {
            return Ok(whole);
        };
        whole = attempt!(next_object(
            judge,
            text,
            inner,
            here,
            constant,
            first,
            whole,
            *token,
            *one,
            object_type,
            value,
        ));
        if i == usize::MAX {
            return Err(AllocError);
        }
        i += 1;
    }
    Ok(whole)
}

/// The declaration of objects (3.3.1), behind what is elaborated before it.
#[tactic(auto, unfolding(name_rules::specs::Declarations::objects))]
pub fn objects(
    judge: &mut Judge,
    text: Text<'_>,
    start: usize,
    here: &mut Context,
    done: bool,
    identifiers: u32,
    constant: bool,
    object_type: u32,
    value: Option<u32>,
) -> Result<bool, AllocError>
    ensures { DeclaresOn (pop (parts judge.old.out)) (spec.objects text.entry.names.now (brackets text.entry) start here.old (part_if done (top (parts judge.old.out))) (the_ids (node_of text.entry identifiers)) constant (the_object_type (node_of text.entry object_type)) (optional (node_of text.entry) the_expr value)) judge.old result here.new judge.new }
{
    let alloc = judge.out.alloc();
    let first = text.tree.ids(identifiers).first;
    let ids = attempt!(all_ids(text.tree, alloc, identifiers));
    let free = attempt!(begun_names(text.names, start, here, &mut judge.log, alloc, &ids));
    let inner = attempt!(copied(here, &judge.out));
    each_object(
        judge,
        text,
        &inner,
        here,
        constant,
        first,
        done,
        &ids,
        &free,
        object_type,
        value,
    )
}
