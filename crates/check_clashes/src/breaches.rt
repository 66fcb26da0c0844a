//! The least breaches of the strict rule and of the disjoint rule (9.10.1) by effects.

ghost use Rattle.std.specs.Prelude.{◌≡◌, None, IfOk, cond};
ghost use Rattle.check_clashes.specs.Breaches as spec;
ghost use Rattle.check_clashes.specs.Touching.{touch_of, touches_of};

use crate::called::effects_in;
use crate::effects::{Access, Effect, Effects, Path, Selector, SiteEffects, Uses};
use std::alloc::{AllocError, Global};

/// Two tokens, or a token and an object.
#[derive(Clone, Copy)]
pub struct Pair {
    pub first: u32,
    pub second: u32,
}

fn is_before(first: Pair, second: Pair) -> bool
    ensures { result ≡ spec.is_before first second }
{
    first.first < second.first || (first.first == second.first && first.second < second.second)
}

/// The lesser of two pairs.
fn least(pair: Pair, found: Option<Pair>) -> Option<Pair>
    ensures { result ≡ spec.least pair found }
{
    match found {
        None => Some(pair),
        Some(other) => {
            if is_before(pair, other) {
                Some(pair)
            } else {
                Some(other)
            }
        }
    }
}

/// Whether an index is a parameter of the construct that is judged, without a distance.
fn is_parameter(selector: Selector) -> bool
    ensures { result ≡ spec.is_parameter selector }
{
    match selector {
        Selector::Loop(distance) => distance == 0,
        Selector::Chunk(distance) => distance == 0,
        Selector::Field(_) | Selector::Fixed(_) | Selector::Any => false,
    }
}

#[tactic(auto, unfolding(crate::specs::Breaches::has_parameter))]
fn has_parameter(selectors: &[Selector]) -> bool
    ensures { result ≡ spec.has_parameter selectors.now }
{
    let mut rest = selectors;
    while let Some((first, others)) = rest.split_first() {
        if is_parameter(*first) {
            return true;
        }
        rest = others;
    }
    false
}

/// Whether the strict rule lets a name be: outside a parallel block one that goes by a parameter of the construct.
fn is_exempt(block: bool, path: &Path) -> bool
    ensures { result ≡ spec.is_exempt block path.now }
{
    !block && has_parameter(path.selectors.as_slice())
}

/// A name as a breach of the strict rule, if it is one.
fn with_touched(block: bool, effect: Effect<'_>, found: Option<Pair>) -> Option<Pair>
    ensures { result ≡ cond (spec.is_exempt block effect.entry.path.now) found (spec.least (record { first = effect.entry.at; second = effect.entry.path.now.object }) found) }
{
    if is_exempt(block, effect.path) {
        found
    } else {
        let pair = Pair {
            first: effect.at,
            second: effect.path.object,
        };
        least(pair, found)
    }
}

/// The least token and object of effects that break the strict rule, and of what was found before.
#[tactic(auto, using(crate::proofs::Steps::touched_next, crate::proofs::Steps::touched_end), unfolding(crate::specs::Breaches::least_touched))]
fn least_touched(block: bool, effects: &[Effect<'_>], found: Option<Pair>) -> Option<Pair>
    ensures { result ≡ spec.least_touched block (touches_of effects.now) found }
{
    let mut all = found;
    for effect in effects {
        all = with_touched(block, *effect, all);
    }
    all
}

/// What breaks the strict rule in a construct. An Err is want of memory.
fn touched_in(
    subs: &[Uses],
    site: &SiteEffects,
    found: Option<Pair>,
    alloc: Global,
) -> Result<Option<Pair>, AllocError>
    ensures { IfOk result (λ pair. pair ≡ spec.touched_in subs.now site.now found) }
{
    let front = effects_in(subs, &site.front, alloc)?;
    let before = least_touched(site.block, front.as_slice(), found);
    let threads = effects_in(subs, &site.threads, alloc)?;
    Ok(least_touched(site.block, threads.as_slice(), before))
}

/// What breaks the strict rule in constructs. An Err is want of memory.
#[tactic(auto, unfolding(crate::specs::Breaches::touched_of))]
fn touched_of(
    subs: &[Uses],
    sites: &[SiteEffects],
    alloc: Global,
) -> Result<Option<Pair>, AllocError>
    ensures { IfOk result (λ pair. pair ≡ spec.touched_of subs.now sites.now None) }
{
    let mut rest = sites;
    let mut all = None;
    while let Some((site, others)) = rest.split_first() {
        all = touched_in(subs, site, all, alloc)?;
        rest = others;
    }
    Ok(all)
}

/// Whether two selectors at one place of two paths tell apart what the paths lead to.
fn differ(first: Selector, second: Selector) -> bool
    ensures { result ≡ spec.differ first second }
{
    match (first, second) {
        (Selector::Field(one), Selector::Field(other)) => one != other,
        (Selector::Fixed(one), Selector::Fixed(other)) => one != other,
        (Selector::Loop(one), Selector::Loop(other)) => one == other,
        (Selector::Chunk(one), Selector::Chunk(other)) => one == other,
        _ => false,
    }
}

#[tactic(auto, unfolding(crate::specs::Breaches::some_differ))]
fn some_differ(first: &[Selector], second: &[Selector]) -> bool
    ensures { result ≡ spec.some_differ first.now second.now }
{
    let mut ones = first;
    let mut others = second;
    while let Some((one, more)) = ones.split_first() {
        match others.split_first() {
            None => return false,
            Some((other, later)) => {
                if differ(*one, *other) {
                    return true;
                }
                others = later;
            }
        }
        ones = more;
    }
    false
}

/// Whether two paths lead to different variables.
fn are_separated(first: &Path, second: &Path) -> bool
    ensures { result ≡ spec.are_separated first.now second.now }
{
    first.object != second.object
        || some_differ(first.selectors.as_slice(), second.selectors.as_slice())
}

/// Whether an access is a write, too.
pub fn writes(access: Access) -> bool
    ensures { result ≡ spec.writes access }
{
    match access {
        Access::Read => false,
        Access::Write | Access::Update => true,
    }
}

/// Whether two effects, one of them a write, clash: in a block only those of two arms do.
fn do_clash(block: bool, first: Effect<'_>, second: Effect<'_>) -> bool
    ensures { result ≡ spec.do_clash block (touch_of first.entry) (touch_of second.entry) }
{
    (!block || first.arm != second.arm) && !are_separated(first.path, second.path)
}

/// Two tokens, the lesser first.
fn in_order(one: u32, other: u32) -> Pair
    ensures { result ≡ spec.in_order one other }
{
    if other < one {
        Pair {
            first: other,
            second: one,
        }
    } else {
        Pair {
            first: one,
            second: other,
        }
    }
}

/// A write and another effect, if they clash.
fn with_pair(
    block: bool,
    write: Effect<'_>,
    effect: Effect<'_>,
    found: Option<Pair>,
) -> Option<Pair>
    ensures { result ≡ cond (spec.do_clash block (touch_of write.entry) (touch_of effect.entry)) (spec.least (spec.in_order write.entry.at effect.entry.at) found) found }
{
    if do_clash(block, write, effect) {
        least(in_order(write.at, effect.at), found)
    } else {
        found
    }
}

/// The least pair of a write with effects that it clashes with, and of what was found before.
#[tactic(auto, using(crate::proofs::Steps::with_next, crate::proofs::Steps::with_end), unfolding(crate::specs::Breaches::least_with))]
fn least_with(
    block: bool,
    write: Effect<'_>,
    effects: &[Effect<'_>],
    found: Option<Pair>,
) -> Option<Pair>
    ensures { result ≡ spec.least_with block (touch_of write.entry) (touches_of effects.now) found }
{
    let mut all = found;
    for effect in effects {
        all = with_pair(block, write, *effect, all);
    }
    all
}

/// The least pair of an effect, if it is a write, with effects.
fn with_write(
    block: bool,
    effect: Effect<'_>,
    effects: &[Effect<'_>],
    found: Option<Pair>,
) -> Option<Pair>
    ensures { result ≡ cond (spec.writes effect.entry.access) (spec.least_with block (touch_of effect.entry) (touches_of effects.now) found) found }
{
    if writes(effect.access) {
        least_with(block, effect, effects, found)
    } else {
        found
    }
}

/// The least pair of effects that clash, and of what was found before.
#[tactic(auto, using(crate::proofs::Steps::clash_next, crate::proofs::Steps::clash_end), unfolding(crate::specs::Breaches::least_clash))]
fn least_clash(block: bool, effects: &[Effect<'_>], found: Option<Pair>) -> Option<Pair>
    ensures { result ≡ spec.least_clash block (touches_of effects.now) (touches_of effects.now) found }
{
    let mut all = found;
    for effect in effects {
        all = with_write(block, *effect, effects, all);
    }
    all
}

/// What clashes in a construct. An Err is want of memory.
fn clash_in(
    subs: &[Uses],
    site: &SiteEffects,
    found: Option<Pair>,
    alloc: Global,
) -> Result<Option<Pair>, AllocError>
    ensures { IfOk result (λ pair. pair ≡ spec.clash_in subs.now site.now found) }
{
    let threads = effects_in(subs, &site.threads, alloc)?;
    Ok(least_clash(site.block, threads.as_slice(), found))
}

/// What clashes in constructs. An Err is want of memory.
#[tactic(auto, unfolding(crate::specs::Breaches::clash_of))]
fn clash_of(subs: &[Uses], sites: &[SiteEffects], alloc: Global) -> Result<Option<Pair>, AllocError>
    ensures { IfOk result (λ pair. pair ≡ spec.clash_of subs.now sites.now None) }
{
    let mut rest = sites;
    let mut all = None;
    while let Some((site, others)) = rest.split_first() {
        all = clash_in(subs, site, all, alloc)?;
        rest = others;
    }
    Ok(all)
}

/// The least breach of the strict rule (9.10.1) where that is asked for: a token and the number of an object. An Err is want
/// of memory.
pub fn touched_by(
    strict: bool,
    effects: &Effects,
    alloc: Global,
) -> Result<Option<Pair>, AllocError>
    ensures { IfOk result (λ pair. pair ≡ spec.touched_by strict effects.now) }
{
    if strict {
        touched_of(effects.subs.as_slice(), effects.sites.as_slice(), alloc)
    } else {
        Ok(None)
    }
}

/// The least pair of tokens of effects that clash (9.10.1), the lesser first. An Err is want of memory.
pub fn clash_by(effects: &Effects, alloc: Global) -> Result<Option<Pair>, AllocError>
    ensures { IfOk result (λ pair. pair ≡ spec.clash_by effects.now) }
{
    clash_of(effects.subs.as_slice(), effects.sites.as_slice(), alloc)
}
