//! What the threads of parallel constructs may write (9.10.1).

ghost use Rattle.std.specs.Prelude.{◌≡◌, ◌∷◌, ◌++◌, [], cond, IfOk, OnOk};
ghost use Rattle.check_clashes.specs.Breaches.{writes};
ghost use Rattle.check_clashes.specs.Granted as spec;
ghost use Rattle.check_clashes.specs.Touching.{touch_of, touches_of};

use crate::breaches::writes;
use crate::called::effects_in;
use crate::effects::{Effect, Effects, Path, SiteEffects, Uses};
use ada_base::Items;
use std::alloc::{AllocError, Global};

/// A path that threads of a parallel construct may write, by the number of the construct's site; in a parallel block the
/// threads that take the arm of that number, from 0; elsewhere all of them.
#[derive(Drop)]
pub struct Grant {
    pub site: u32,
    pub arm: u64,
    pub path: Path,
}

/// What the threads of all parallel constructs of a program may write. A path may stand there more than once.
#[derive(Drop)]
pub struct Grants {
    pub owned: Items<Grant>,
}

fn copied(path: &Path, alloc: Global) -> Result<Path, AllocError>
    ensures { IfOk result (λ copy. copy ≡ path.now) }
{
    let mut selectors = Items::new(alloc);
    selectors.extend(path.selectors.as_slice())?;
    Ok(Path {
        object: path.object,
        selectors,
    })
}

/// Adds the path of an effect, if that is a write.
fn add_written(
    site: u32,
    effect: Effect<'_>,
    found: &mut Items<Grant>,
    alloc: Global,
) -> Result<(), AllocError>
    ensures { OnOk result (found.new ≡ cond (writes effect.entry.access) (found.old ++ spec.grant_of site (touch_of effect.entry) ∷ []) found.old) }
{
    if !writes(effect.access) {
        return Ok(());
    }
    let path = copied(effect.path, alloc)?;
    found.push(Grant {
        site,
        arm: effect.arm,
        path,
    })
}

/// Adds what effects of a site write.
#[tactic(auto, using(crate::proofs::Steps::written_next, crate::proofs::Steps::written_end), unfolding(crate::specs::Granted::written))]
fn written_by(
    site: u32,
    effects: &[Effect<'_>],
    found: &mut Items<Grant>,
    alloc: Global,
) -> Result<(), AllocError>
    ensures { OnOk result (found.new ≡ spec.written site (touches_of effects.now) found.old) }
{
    for effect in effects {
        add_written(site, *effect, found, alloc)?;
    }
    Ok(())
}

/// Adds what the threads of a construct write.
fn granted_in(
    subs: &[Uses],
    site: &SiteEffects,
    found: &mut Items<Grant>,
    alloc: Global,
) -> Result<(), AllocError>
    ensures { OnOk result (found.new ≡ spec.granted_in subs.now site.now found.old) }
{
    let threads = effects_in(subs, &site.threads, alloc)?;
    written_by(site.site, threads.as_slice(), found, alloc)
}

/// What the threads of constructs write. An Err is want of memory.
#[tactic(auto, unfolding(crate::specs::Granted::granted_of))]
fn granted_of(
    subs: &[Uses],
    sites: &[SiteEffects],
    alloc: Global,
) -> Result<Items<Grant>, AllocError>
    ensures { IfOk result (λ found. found ≡ spec.granted_of subs.now sites.now []) }
{
    let mut rest = sites;
    let mut found = Items::new(alloc);
    while let Some((site, others)) = rest.split_first() {
        granted_in(subs, site, &mut found, alloc)?;
        rest = others;
    }
    Ok(found)
}

/// The paths that the threads of each parallel construct write, by its effects. An Err is want of memory.
pub fn grants_of(effects: &Effects, alloc: Global) -> Result<Grants, AllocError>
    ensures { IfOk result (λ grants. grants ≡ spec.grants_of effects.now) }
{
    let owned = granted_of(effects.subs.as_slice(), effects.sites.as_slice(), alloc)?;
    Ok(Grants { owned })
}
