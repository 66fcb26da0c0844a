//! What the calls of a text lead to: the subprograms, and the effects on their variables.

ghost use Rattle.std.specs.Prelude.{◌≡◌, ℕ, List, ◌∷◌, ◌++◌, map, length, replicate, slice_get, Option, None, IfOk, OnOk};
ghost use Rattle.check_clashes.specs.declared.effects.Uses as reach;
ghost use Rattle.check_clashes.specs.Called as spec;
ghost use Rattle.check_clashes.specs.Touching.{touches_of};

use crate::effects::{Call, Effect, Touch, Uses};
use ada_base::Items;
use std::alloc::{AllocError, Global};

/// The lesser of a token and the one at which a subprogram is reached before.
fn least_token(token: Option<u32>, at: u32) -> u32
    ensures { result ≡ spec.least_token token at }
{
    match token {
        None => at,
        Some(other) => { if at < other { at } else { other } }
    }
}

/// A call of a subprogram at a token.
fn lower(tokens: &mut Items<Option<u32>>, sub: u32, at: u32)
    ensures { tokens.new ≡ spec.lowered tokens.old sub at }
{
    match tokens.get(sub as usize).copied() {
        None => {}
        Some(token) => {
            tokens.set(sub as usize, Some(least_token(token, at)));
        }
    }
}

/// The calls of an arm.
#[tactic(auto, unfolding(crate::specs::Called::with_calls))]
fn with_calls(arm: u64, calls: &[Call], tokens: &mut Items<Option<u32>>)
    ensures { tokens.new ≡ spec.with_calls arm calls.now tokens.old }
{
    let mut rest = calls;
    while let Some((call, others)) = rest.split_first() {
        if u64::from(call.arm) == arm {
            lower(tokens, call.sub, call.at);
        }
        rest = others;
    }
}

/// The calls of a subprogram that is reached at a token.
#[tactic(auto, unfolding(crate::specs::Called::spread))]
fn spread(at: u32, calls: &[Call], tokens: &mut Items<Option<u32>>)
    ensures { tokens.new ≡ spec.spread at calls.now tokens.old }
{
    let mut rest = calls;
    while let Some((call, others)) = rest.split_first() {
        lower(tokens, call.sub, at);
        rest = others;
    }
}

/// The calls of a subprogram, if it is reached.
fn spread_from(subs: &[Uses], sub: usize, tokens: &mut Items<Option<u32>>)
    ensures { tokens.new ≡ spec.spread_of (slice_get subs.now sub) (slice_get tokens.old sub) tokens.old }
{
    match subs.get(sub) {
        None => {}
        Some(uses) => match tokens.get(sub).copied() {
            None | Some(None) => {}
            Some(Some(at)) => spread(at, uses.calls.as_slice(), tokens),
        },
    }
}

/// The calls of all subprograms that are reached, the last ones first.
#[tactic(auto, using(crate::proofs::Steps::spread_before), unfolding(crate::specs::Called::spread_all))]
fn spread_all(subs: &[Uses], tokens: &mut Items<Option<u32>>)
    ensures { tokens.new ≡ spec.spread_all subs.now (length subs.now) tokens.old }
{
    let mut count = subs.len();
    while count > 0 {
        count -= 1;
        spread_from(subs, count, tokens);
    }
}

/// The least token of a call of an arm by which each subprogram is reached, if it is. An Err is want of memory.
fn reached(
    subs: &[Uses],
    arm: u64,
    calls: &[Call],
    alloc: Global,
) -> Result<Items<Option<u32>>, AllocError>
    ensures { IfOk result (λ tokens. tokens ≡ spec.reached subs.now arm calls.now) }
{
    let mut tokens = Items::from_vec(vec![in alloc; None; subs.len()]?);
    with_calls(arm, calls, &mut tokens);
    spread_all(subs, &mut tokens);
    Ok(tokens)
}

/// What a subprogram touches that is reached at a token. An Err is want of memory.
#[tactic(auto, using(crate::proofs::Steps::pushed))]
fn add_touches<'a>(
    arm: u64,
    at: u32,
    touches: &'a [Touch],
    found: &mut Items<Effect<'a>>,
) -> Result<(), AllocError>
    ensures { OnOk result (touches_of found.new ≡ touches_of found.old ++ map (λ t. spec.moved arm at t) touches.now) }
{
    let mut rest = touches;
    while let Some((touch, others)) = rest.split_first() {
        found.push(Effect {
            arm,
            at,
            access: touch.access,
            path: &touch.path,
        })?;
        rest = others;
    }
    Ok(())
}

/// What a subprogram touches, if it is reached. An Err is want of memory.
#[tactic(auto, unfolding(crate::specs::Called::with_called))]
fn add_reached<'a>(
    arm: u64,
    token: Option<u32>,
    uses: &'a Uses,
    found: &mut Items<Effect<'a>>,
) -> Result<(), AllocError>
    ensures { OnOk result ((subs : List reach.Uses) (tokens : List (Option ℕ)) → spec.with_called arm subs tokens (touches_of found.new) ≡ spec.with_called arm (uses.now ∷ subs) (token ∷ tokens) (touches_of found.old)) }
{
    match token {
        None => Ok(()),
        Some(at) => add_touches(arm, at, uses.touches.as_slice(), found),
    }
}

/// What the subprograms touch that are reached. An Err is want of memory.
#[tactic(auto, unfolding(crate::specs::Called::with_called))]
fn add_called<'a>(
    arm: u64,
    subs: &'a [Uses],
    tokens: &[Option<u32>],
    found: &mut Items<Effect<'a>>,
) -> Result<(), AllocError>
    ensures { OnOk result (touches_of found.new ≡ spec.with_called arm subs.now tokens.now (touches_of found.old)) }
{
    let mut rest = subs;
    let mut left = tokens;
    while let Some((uses, others)) = rest.split_first() {
        match left.split_first() {
            None => return Ok(()),
            Some((token, later)) => {
                add_reached(arm, *token, uses, found)?;
                left = later;
            }
        }
        rest = others;
    }
    Ok(())
}

/// A number above all arms of calls.
#[tactic(auto, unfolding(crate::specs::Called::arm_bound))]
fn arm_bound(calls: &[Call]) -> u64
    ensures { result ≡ spec.arm_bound calls.now 0 }
{
    let mut most: u64 = 0;
    let mut rest = calls;
    while let Some((call, others)) = rest.split_first() {
        let arm = u64::from(call.arm);
        if arm >= most {
            most = arm + 1;
        }
        rest = others;
    }
    most
}

/// What the calls of each arm lead to. An Err is want of memory.
#[tactic(auto, using(crate::proofs::Steps::arms_before), unfolding(crate::specs::Called::with_arms))]
fn add_arms<'a>(
    subs: &'a [Uses],
    calls: &[Call],
    found: &mut Items<Effect<'a>>,
    alloc: Global,
) -> Result<(), AllocError>
    ensures { OnOk result (touches_of found.new ≡ spec.with_arms subs.now calls.now (spec.arm_bound calls.now 0) (touches_of found.old)) }
{
    let mut arm = arm_bound(calls);
    while arm > 0 {
        arm -= 1;
        let tokens = reached(subs, arm, calls, alloc)?;
        add_called(arm, subs, tokens.as_slice(), found)?;
    }
    Ok(())
}

/// The effects of a text (9.10.1), its own at their tokens and those of its calls at the tokens of the calls. An Err is
/// want of memory.
pub fn effects_in<'a>(
    subs: &'a [Uses],
    uses: &'a Uses,
    alloc: Global,
) -> Result<Items<Effect<'a>>, AllocError>
    ensures { IfOk result (λ found. touches_of found ≡ spec.effects_in subs.now uses.now) }
{
    let mut found = Items::new(alloc);
    add_own(uses.touches.as_slice(), &mut found)?;
    add_arms(subs, uses.calls.as_slice(), &mut found, alloc)?;
    Ok(found)
}

/// What a text touches itself. An Err is want of memory.
#[tactic(auto, using(crate::proofs::Steps::pushed))]
fn add_own<'a>(touches: &'a [Touch], found: &mut Items<Effect<'a>>) -> Result<(), AllocError>
    ensures { OnOk result (touches_of found.new ≡ touches_of found.old ++ touches.now) }
{
    let mut rest = touches;
    while let Some((touch, others)) = rest.split_first() {
        found.push(Effect {
            arm: u64::from(touch.arm),
            at: touch.at,
            access: touch.access,
            path: &touch.path,
        })?;
        rest = others;
    }
    Ok(())
}
