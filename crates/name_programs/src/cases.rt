//! Case statements (5.4).

ghost use Rattle.std.specs.Prelude.{◌≡◌, ◌==◌, ◌∷◌, IfOk, OnOk, Some, length};
ghost use Rattle.syntax_tree.specs.Syntax as syntax;
ghost use Rattle.typed_tree.specs.Decoded as part;
ghost use Rattle.typed_tree.specs.Latest.{pop, second, third, top};
ghost use Rattle.name_rules.specs.Cases as cases;
ghost use Rattle.name_rules.specs.Judges.{found, found_of, part_if};
ghost use Rattle.name_rules.specs.Judging.{given, joined};
ghost use Rattle.name_rules.specs.Statements as spec;
ghost use Rattle.name_programs.specs.Around.{Leaves};
ghost use Rattle.name_values.specs.Coverage.{as_choosing, as_covering};
ghost use Rattle.syntax_nodes.specs.Parts.{the_alt, the_alts, the_choice, the_choice_list, the_expr};
ghost use Rattle.syntax_nodes.specs.Tables.{part_at};
ghost use Rattle.typed_parts.specs.Stack.{parts};
ghost use Rattle.name_values.specs.Judged.{JudgesOne};
ghost use Rattle.name_expressions.specs.Scenes.{node_at, said_at};
ghost use Rattle.name_programs.specs.Kept.{Keeps, KeepsWith, KeepsWithOn};
ghost use Rattle.name_programs.specs.Texts.{in_text, node_of};

use crate::scene_at;
use crate::statements::stmts;
use crate::text::Text;
use name_expressions::choices::case_choices;
use name_expressions::expressions::expr;
use name_expressions::scene::Scene;
use name_rules::found::Found;
use name_rules::log::{Log, Rule};
use name_rules::scope::Context;
use name_rules::types::{Kind, Scalar, Wanted};
use name_values::attempt;
use name_values::coverage::{Choosing, Covering, choices_part, closed};
use name_values::judge::{Giving, Judge};
use name_values::logs::breaks;
use name_values::types::base_of;
use name_values::values::{
    first_of, is_modular_kind, is_scalar, nominal_of, own_kind, settled_found,
};
use std::alloc::AllocError;
use syntax_nodes::Tree;
use typed_parts::Parts;

/// The selecting subtype: the nominal one of a name, or else the base range of the type.
fn selecting(given: Found) -> Scalar
    ensures { result ≡ spec.selecting given }
{
    match nominal_of(given) {
        None => base_of(own_kind(given)),
        Some(scalar) => scalar,
    }
}

/// The subtype of a selecting expression, which is the latest part: WrongType at its first token where it is no scalar, or
/// of a modular type.
fn selector(judge: &mut Judge, value: Found) -> Result<Option<Scalar>, AllocError>
    ensures { JudgesOne spec.selector (found value) judge.old result judge.new }
{
    if !is_scalar(value) || is_modular_kind(name_values::values::kind_of(value)) {
        attempt!(breaks(&mut judge.log, first_of(value), Rule::WrongType));
        return Ok(None);
    }
    if !attempt!(settled_found(judge, value)) {
        return Ok(None);
    }
    Ok(Some(selecting(value)))
}

fn selector_where(judge: &mut Judge, value: Option<Found>) -> Result<Option<Scalar>, AllocError>
    ensures { JudgesOne (λ x. given x spec.selector) (found_of value) judge.old result judge.new }
{
    match value {
        None => Ok(None),
        Some(value) => selector(judge, value),
    }
}

fn kind_of(out: &Parts, selector: Option<Scalar>) -> Option<Kind>
    ensures { result ≡ spec.selector_kind (found_of selector (top (parts out.now))) }
{
    let _out = out;
    match selector {
        None => None,
        Some(scalar) => Some(scalar.kind),
    }
}

/// Whether an alternative is the last.
fn is_last(tree: &Tree, more: u32) -> bool
    ensures { result ≡ spec.is_last (the_alts (part_at tree.now.nodes more)) }
{
    tree.cell(more).is_none()
}

/// One more alternative of a list that grows, of what its choices mention and its statements, where none has a fault.
#[tactic(auto, unfolding(name_rules::specs::Statements::also_alternative))]
fn with_alternative(
    out: &mut Parts,
    choosing: Choosing,
    done: bool,
    then: bool,
) -> Result<bool, AllocError>
    ensures { Leaves (spec.also_alternative (as_choosing choosing (second (parts out.old))) (part_if done (third (parts out.old))) (part_if then (top (parts out.old)))) (pop (pop (pop (parts out.old)))) result (parts out.new) }
{
    if !done || !then {
        out.leave_out();
        out.leave_out();
        return Ok(false);
    }
    let others = choosing.others;
    attempt!(out.swap());
    attempt!(choices_part(out, choosing));
    attempt!(out.rotate());
    attempt!(out.alternative(others));
    attempt!(out.also());
    Ok(true)
}

/// No choice of an alternative yet, and nothing that they mention.
fn begun_choices(out: &mut Parts) -> Result<Choosing, AllocError>
    ensures { IfOk result (λ d. (spec.no_choosing ≡ as_choosing d (top (parts out.new))) × (pop (parts out.new) ≡ parts out.old)) }
{
    attempt!(out.nothing());
    Ok(Choosing::new(out.alloc()))
}

/// The choices of an alternative, and what they mention as the latest part.
fn chosen(
    judge: &mut Judge,
    scene: Scene<'_>,
    kind: Option<Kind>,
    last: bool,
    covering: &mut Covering,
    first: u32,
    more: u32,
) -> Result<Choosing, AllocError>
    ensures { IfOk result (λ d. (said_at scene.entry cases.case_choices kind (length (the_choice_list (node_at scene.entry more)) == 0) last (as_covering covering.old) spec.no_choosing (the_choice (node_at scene.entry first) ∷ the_choice_list (node_at scene.entry more)) judge.old.log ≡ ((as_covering covering.new, as_choosing d (top (parts judge.new.out))), judge.new.log)) × (pop (parts judge.new.out) ≡ parts judge.old.out)) }
{
    let mut choosing = attempt!(begun_choices(&mut judge.out));
    attempt!(case_choices(
        judge,
        scene,
        kind,
        last,
        covering,
        &mut choosing,
        first,
        more,
    ));
    Ok(choosing)
}

/// One more alternative of a case statement.
#[cycle(statements)]
#[tactic(auto, unfolding(name_rules::specs::Statements::alternative))]
fn alternative(
    judge: &mut Judge,
    text: Text<'_>,
    below: u32,
    here: &mut Context,
    kind: Option<Kind>,
    last: bool,
    covering: &mut Covering,
    done: bool,
    id: u32,
) -> Result<bool, AllocError>
    ensures { KeepsWithOn (pop (parts judge.old.out)) (spec.alternative (in_text text.entry below) here.old kind last (as_covering covering.old) (part_if done (top (parts judge.old.out))) (the_alt (node_of text.entry id))) here.old judge.old result (as_covering covering.new) judge.new here.new }
{
    let one = text.tree.alt(id);
    let choosing = attempt!(chosen(
        judge,
        scene_at!(text, here),
        kind,
        last,
        covering,
        one.first,
        one.more,
    ));
    let ss = attempt!(stmts(judge, text, below, here, one.stmts));
    let given = attempt!(with_alternative(&mut judge.out, choosing, done, ss));
    Ok(given)
}

/// The alternatives of a case statement.
#[cycle(statements)]
fn alts(
    judge: &mut Judge,
    text: Text<'_>,
    below: u32,
    here: &mut Context,
    kind: Option<Kind>,
    covering: &mut Covering,
    first: u32,
    more: u32,
) -> Result<bool, AllocError>
    ensures { KeepsWith (spec.alts (in_text text.entry below) here.old kind (as_covering covering.old) (Some part.Nothing) (syntax.AlsoAlt (the_alt (node_of text.entry first)) (the_alts (node_of text.entry more)))) here.old judge.old result (as_covering covering.new) judge.new here.new }
{
    attempt!(judge.out.nothing());
    let only = is_last(text.tree, more);
    let mut done = attempt!(alternative(
        judge, text, below, here, kind, only, covering, true, first,
    ));
    let mut next = more;
    'alts: while let Some(cell) = text.tree.cell(next) {
        let last = is_last(text.tree, cell.rest);
        done = attempt!(alternative(
            judge, text, below, here, kind, last, covering, done, cell.first,
        ));
        next = cell.rest;
    }
    Ok(done)
}

fn closed_where(
    log: &mut Log,
    out: &Parts,
    at: u32,
    selector: Option<Scalar>,
    covering: Covering,
) -> Result<(), AllocError>
    ensures { OnOk result (spec.closed_where at (found_of selector (second (parts out.now))) (as_covering covering) log.old ≡ (tt, log.new)) }
{
    let _out = out;
    match selector {
        None => Ok(()),
        Some(scalar) => closed(log, at, scalar, covering),
    }
}

/// A case statement of its selecting expression and its alternatives, where none has a fault.
fn case_made(out: &mut Parts, selector: Option<Scalar>, more: bool) -> Result<bool, AllocError>
    ensures { Leaves (joined spec.case_part (found_of selector (second (parts out.old))) (part_if more (top (parts out.old)))) (pop (pop (parts out.old))) result (parts out.new) }
{
    match selector {
        None => {
            out.leave_out();
            Ok(false)
        }
        Some(_) => {
            if !more {
                out.leave_out();
                return Ok(false);
            }
            attempt!(out.turn());
            attempt!(out.case());
            Ok(true)
        }
    }
}

/// `case value is when .. => .. end case;` (5.4), with the token `case`.
#[cycle(statements)]
#[tactic(auto, unfolding(name_rules::specs::Statements::case_stmt))]
pub fn case_stmt(
    judge: &mut Judge,
    text: Text<'_>,
    below: u32,
    here: &mut Context,
    at: u32,
    value: u32,
    first: u32,
    more: u32,
) -> Giving
    ensures { Keeps (spec.case_stmt (in_text text.entry below) here.old at (the_expr (node_of text.entry value)) (syntax.AlsoAlt (the_alt (node_of text.entry first)) (the_alts (node_of text.entry more)))) here.old judge.old result judge.new here.new }
{
    let mut covering = Covering::new(judge.out.alloc());
    let f = attempt!(expr(judge, scene_at!(text, here), Wanted::Other, value));
    let s = attempt!(selector_where(judge, f));
    let kind = kind_of(&judge.out, s);
    let xs = attempt!(alts(judge, text, below, here, kind, &mut covering, first, more));
    attempt!(closed_where(&mut judge.log, &judge.out, at, s, covering));
    let given = attempt!(case_made(&mut judge.out, s, xs));
    Ok(given)
}
