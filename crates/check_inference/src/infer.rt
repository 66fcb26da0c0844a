//! The effects of a whole program (9.10.1).

ghost use Rattle.std.specs.Prelude.{◌≡◌, ◌++◌, ◌∷◌, [], cond, true, IfOk, OnOk};
ghost use Rattle.check_inference.specs.Exact.{AreEffects};
ghost use Rattle.typed_tree.specs.Decoded.{as_decl, body_at, decls_at, part_at};
ghost use Rattle.typed_tree.specs.Programs.{program, sub_of};
ghost use Rattle.typed_tree.specs.Syntax.{Decls};
ghost use Rattle.check_inference.specs.Gather.{gather_body, no_uses};
ghost use Rattle.check_inference.specs.Paths.{is_hidden, outset as outset_of, place_of};
ghost use Rattle.check_inference.specs.Program as spec;

use crate::environment::{Environment, Named};
use crate::gathering::{Gathered, hides};
use crate::source::Source;
use crate::stmts::block;
use ada_base::Items;
use check_clashes::effects::{Effects, SiteEffects, Touch, Uses};
use std::alloc::{AllocError, Global};
use typed_tree::{Decl, Sub, Typed};

#[tactic(auto, unfolding(crate::specs::Program::objects_with))]
fn object(source: Source<'_>, id: u32, found: &mut Items<u32>) -> Result<(), AllocError>
    ensures { OnOk result ((rest : Decls) → spec.objects_with rest found.new ≡ spec.objects_with (as_decl (part_at source.entry.typed.now.nodes id) rest) found.old) }
{
    match source.typed.nodes.decl(id) {
        Some(
            Decl::Default { object }
            | Decl::Variable { object, .. }
            | Decl::Constant { object, .. },
        ) => found.push(object),
        Some(Decl::Mentions { .. }) | None => Ok(()),
    }
}

/// The objects that declarations declare.
#[tactic(auto, unfolding(crate::specs::Program::objects_with))]
fn objects(source: Source<'_>, id: u32) -> Result<Items<u32>, AllocError>
    ensures { IfOk result (λ found. found ≡ spec.objects_with (decls_at source.entry.typed.now.nodes id) []) }
{
    let mut found = Items::new(source.alloc);
    let mut at = id;
    while let Some(cell) = source.typed.nodes.decls(at) {
        object(source, cell.first, &mut found)?;
        at = cell.rest;
    }
    Ok(found)
}

/// The objects that the main procedure declares.
#[tactic(auto, unfolding(crate::specs::Program::objects_with))]
fn globals(source: Source<'_>) -> Result<Items<u32>, AllocError>
    ensures { IfOk result (λ found. found ≡ spec.globals (program source.entry.typed.now)) }
{
    match source.typed.nodes.body(source.typed.body) {
        None => Ok(Items::new(source.alloc)),
        Some(parts) => objects(source, parts.decls),
    }
}

/// Adds a touch if it is one of those objects.
fn keep(objects: &[u32], touch: Touch, found: &mut Items<Touch>) -> Result<(), AllocError>
    ensures { OnOk result (found.new ≡ found.old ++ cond (is_hidden objects.now touch.path.object) (touch ∷ []) []) }
{
    if hides(objects, touch.path.object) {
        return found.push(touch);
    }
    Ok(())
}

/// The touches of those objects, the last first.
#[tactic(auto, unfolding(crate::specs::Program::kept))]
fn kept(alloc: Global, objects: &[u32], touches: Items<Touch>) -> Result<Items<Touch>, AllocError>
    ensures { IfOk result (λ found. found ≡ spec.kept objects.now touches) }
{
    let mut rest = touches;
    let mut found = Items::new(alloc);
    while let Some(touch) = rest.pop() {
        keep(objects, touch, &mut found)?;
    }
    Ok(found)
}

/// Where a text stands that nothing is around, and whose parallel constructs are recorded.
fn outset<'a>() -> Environment<'a>
    ensures { place_of result ≡ outset_of true }
{
    Environment {
        sites: true,
        arm: 0,
        loop_parameter: None,
        chunk_parameter: None,
        items: &[],
        target: Named {
            object: 0,
            selectors: &[],
        },
        hidden: &[],
    }
}

/// What a body uses, and its parallel constructs behind those found before.
#[tactic(auto, unfolding(crate::specs::Gather::gather_decls, crate::specs::Gather::gather_stmts, crate::specs::Gather::gather_handlers))]
fn body(source: Source<'_>, id: u32, sites: Items<SiteEffects>) -> Result<Gathered, AllocError>
    ensures { IfOk result (λ out. out ≡ gather_body (outset_of true) (body_at source.entry.typed.now.nodes id) (record { uses = no_uses; sites = sites })) }
{
    let mut out = Gathered {
        uses: Uses {
            touches: Items::new(source.alloc),
            calls: Items::new(source.alloc),
        },
        sites,
    };
    match source.typed.nodes.body(id) {
        None => Ok(out),
        Some(parts) => {
            block(
                source,
                outset(),
                parts.decls,
                parts.stmts,
                parts.handlers,
                &mut out,
            )?;
            Ok(out)
        }
    }
}

/// A subprogram, with what was found of those before it.
fn with_sub(
    source: Source<'_>,
    objects: &[u32],
    sub: Sub,
    found: Effects,
) -> Result<Effects, AllocError>
    ensures { IfOk result (λ effects. effects ≡ spec.with_sub objects.now (sub_of source.entry.typed.now.nodes sub) found) }
{
    let Effects { mut subs, sites } = found;
    let Gathered { uses, sites } = body(source, sub.body, sites)?;
    let touches = kept(source.alloc, objects, uses.touches)?;
    subs.push(Uses {
        touches,
        calls: uses.calls,
    })?;
    Ok(Effects { subs, sites })
}

/// Subprograms.
#[tactic(auto, unfolding(crate::specs::Program::with_subs))]
fn with_subs(source: Source<'_>, objects: &[u32], found: Effects) -> Result<Effects, AllocError>
    ensures { IfOk result (λ effects. effects ≡ spec.with_subs objects.now (program source.entry.typed.now).subs found) }
{
    let mut rest = source.typed.subs.as_slice();
    let mut all = found;
    while let Some((sub, others)) = rest.split_first() {
        all = with_sub(source, objects, *sub, all)?;
        rest = others;
    }
    Ok(all)
}

/// The main procedure, with what was found of subprograms.
fn with_main(source: Source<'_>, found: Effects) -> Result<Effects, AllocError>
    ensures { IfOk result (λ effects. effects ≡ spec.with_main (program source.entry.typed.now) found) }
{
    let Effects { subs, sites } = found;
    let Gathered { sites, .. } = body(source, source.typed.body, sites)?;
    Ok(Effects { subs, sites })
}

/// The effects of a typed program (9.10.1): what each subprogram uses, of variables those of the main procedure alone, and
/// all parallel constructs by the numbers of their sites. They are exactly those of its texts: names of variables by the
/// paths that accesses are compared by, and calls. An Err is want of memory.
pub fn infer(typed: &Typed, alloc: Global) -> Result<Effects, AllocError>
    ensures { IfOk result (λ effects. (effects ≡ spec.effects_of (program typed.now)) × AreEffects (program typed.now) effects) }
{
    gathered(typed, alloc)
}

/// What the walk finds. An Err is want of memory.
#[tactic(auto, unfolding(crate::specs::Program::effects_of))]
fn gathered(typed: &Typed, alloc: Global) -> Result<Effects, AllocError>
    ensures { IfOk result (λ effects. effects ≡ spec.effects_of (program typed.now)) }
{
    let source = Source { typed, alloc };
    let objects = globals(source)?;
    let none = Effects {
        subs: Items::new(alloc),
        sites: Items::new(alloc),
    };
    let found = with_subs(source, objects.as_slice(), none)?;
    with_main(source, found)
}
