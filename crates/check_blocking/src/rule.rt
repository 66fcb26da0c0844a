//! The rule on nonblocking text in a whole program (9.5).

ghost use Rattle.std.specs.Prelude.{◌≡◌, not, ◌&&◌, map};
ghost use Rattle.typed_tree.specs.Decoded.{body_at};
ghost use Rattle.typed_tree.specs.Programs.{program, sub_of};
ghost use Rattle.check_blocking.specs.Answer.{Answers};
ghost use Rattle.check_calls.specs.First as spec;
ghost use Rattle.check_calls.specs.Words.{rule_of};

use crate::calls::Blocked;
use check_calls::calls::Breach;
use check_calls::stmts::block;
use typed_tree::{Sub, Typed};

#[tactic(auto, unfolding(check_calls::specs::First::first_body, check_calls::specs::First::first_decls, check_calls::specs::First::first_stmts, check_calls::specs::First::first_handlers))]
fn body(typed: &Typed, id: u32, blocking: bool, found: Option<Breach>) -> Option<Breach>
    ensures { result ≡ spec.first_body (rule_of typed.now) (body_at typed.now.nodes id) blocking found }
{
    match typed.nodes.body(id) {
        None => found,
        Some(parts) => block(
            typed,
            parts.decls,
            parts.stmts,
            parts.handlers,
            blocking,
            found,
        ),
    }
}

/// Subprograms.
#[tactic(auto, unfolding(check_calls::specs::First::first_subs))]
fn subs(typed: &Typed, from: &[Sub], found: Option<Breach>) -> Option<Breach>
    ensures { result ≡ spec.first_subs (rule_of typed.now) typed.now.nonblocking (map (sub_of typed.now.nodes) from.now) found }
{
    let mut rest = from;
    let mut all = found;
    while let Some((sub, others)) = rest.split_first() {
        all = body(typed, sub.body, !sub.nonblocking && !typed.nonblocking, all);
        rest = others;
    }
    all
}

/// The first call that breaks the rule.
#[tactic(auto, unfolding(check_calls::specs::First::first_of, check_calls::specs::Words::rule_of))]
fn first(typed: &Typed) -> Option<Breach>
    ensures { result ≡ spec.first_of (program typed.now) }
{
    let own = body(typed, typed.body, !typed.nonblocking, None);
    subs(typed, typed.subs.as_slice(), own)
}

/// Whether a typed program keeps the rule on nonblocking text (9.5); if not, the call that breaks it first in the text.
pub fn check(typed: &Typed) -> Result<(), Blocked>
    ensures { Answers (program typed.now) result }
{
    match first(typed) {
        None => Ok(()),
        Some(Breach { at, callee }) => Err(Blocked::Call { at, callee }),
    }
}
