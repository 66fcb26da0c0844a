//! How what a text uses is recorded.

ghost use Rattle.std.specs.Prelude.{◌≡◌, OnOk};
ghost use Rattle.check_inference.specs.Gather.{nothing, with_call, with_site, with_touch};
ghost use Rattle.check_inference.specs.Paths.{is_hidden, name_of, place_of};
ghost use Rattle.check_inference.specs.Words.{path_name};

use crate::environment::{Environment, Named};
use ada_base::Items;
use check_clashes::effects::{Access, Call, Path, SiteEffects, Touch, Uses};
use std::alloc::{AllocError, Global};

/// What was gathered of a text: what it uses, and the parallel constructs in it.
#[derive(Drop)]
pub struct Gathered {
    pub uses: Uses,
    pub sites: Items<SiteEffects>,
}

/// Whether a variable is declared in the text around.
#[tactic(auto, unfolding(crate::specs::Paths::is_hidden))]
pub fn hides(hidden: &[u32], object: u32) -> bool
    ensures { result ≡ is_hidden hidden.now object }
{
    let mut rest = hidden;
    while let Some((first, others)) = rest.split_first() {
        if object == *first {
            return true;
        }
        rest = others;
    }
    false
}

impl Gathered {
    /// Nothing. It takes no memory.
    pub fn new(alloc: Global) -> Gathered
        ensures { result ≡ nothing }
    {
        Gathered {
            uses: Uses {
                touches: Items::new(alloc),
                calls: Items::new(alloc),
            },
            sites: Items::new(alloc),
        }
    }

    /// Adds a name of a variable at its first token, unless the variable is declared in the text around. An Err is want
    /// of memory.
    pub fn reach(
        &mut self,
        env: Environment<'_>,
        at: u32,
        access: Access,
        path: Path,
    ) -> Result<(), AllocError>
        ensures { OnOk result (self.new ≡ with_touch (place_of env.entry) at access (path_name path) self.old) }
    {
        if hides(env.hidden, path.object) {
            return Ok(());
        }
        self.uses.touches.push(Touch {
            arm: env.arm,
            at,
            access,
            path,
        })
    }

    /// Adds what a name stands for, as `reach`. An Err is want of memory.
    pub fn touch(
        &mut self,
        env: Environment<'_>,
        at: u32,
        access: Access,
        named: Named<'_>,
        alloc: Global,
    ) -> Result<(), AllocError>
        ensures { OnOk result (self.new ≡ with_touch (place_of env.entry) at access (name_of named.entry) self.old) }
    {
        let mut selectors = Items::new(alloc);
        selectors.extend(named.selectors)?;
        self.reach(
            env,
            at,
            access,
            Path {
                object: named.object,
                selectors,
            },
        )
    }

    /// Adds a call of a subprogram by its number, at the first token of its name. An Err is want of memory.
    pub fn call(&mut self, env: Environment<'_>, at: u32, sub: u32) -> Result<(), AllocError>
        ensures { OnOk result (self.new ≡ with_call (place_of env.entry) at sub self.old) }
    {
        self.uses.calls.push(Call {
            arm: env.arm,
            at,
            sub,
        })
    }

    /// Adds a parallel construct, where constructs are recorded. An Err is want of memory.
    pub fn site(&mut self, env: Environment<'_>, site: SiteEffects) -> Result<(), AllocError>
        ensures { OnOk result (self.new ≡ with_site (place_of env.entry) site self.old) }
    {
        if env.sites {
            return self.sites.push(site);
        }
        Ok(())
    }
}
