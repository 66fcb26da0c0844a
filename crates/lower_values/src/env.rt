//! What names stand for where code is emitted.

ghost use Rattle.std.specs.Prelude.{◌≡◌};
ghost use Rattle.lower_emission.specs.Emits.{placed};
ghost use Rattle.lower_emission.specs.Scope as scope;
ghost use Rattle.lower_emission.specs.Scope.{at_free, mark_of, thread_scope};
ghost use Rattle.lower_values.specs.Words as spec;
ghost use Rattle.lower_values.specs.Words.{entity, env_of, is_near, Fits, Learns};

use crate::types::{Emitter, Env, Link, Names};
use lower_emission::types::{Leaving, Level, Named, Placed, Where};
use stack_code::{Around, Instr, SiteKind};
use typed_tree::Root;

#[tactic(auto, using(crate::proofs::Fitting::fits_kept))]
fn outer_where(place: Where, out: &mut Emitter) -> Where
    ensures learns { Learns (scope.outer_where place) out.old result out.new }
    ensures fits { Fits (is_near (scope.outer_where place).level) out.old out.new }
{
    let level = match place.level {
        Level::Own => Level::Around(1),
        Level::Around(frames) => {
            if frames == 0 {
                Level::Around(2)
            } else {
                Level::Around(out.sum(frames, 1))
            }
        }
        Level::Main => Level::Main,
    };
    Where {
        level,
        cell: place.cell,
    }
}

fn moved_where(found: Option<Where>, out: &mut Emitter) -> Option<Where>
    ensures { Learns (scope.moved_where found) out.old result out.new }
{
    match found {
        None => None,
        Some(place) => Some(outer_where(place, out)),
    }
}

fn moved_named(found: Option<Named>, out: &mut Emitter) -> Option<Named>
    ensures { Learns (scope.moved_named found) out.old result out.new }
{
    match found {
        None => None,
        Some(named) => Some(Named {
            through: named.through,
            place: outer_where(named.place, out),
            cells: named.cells,
        }),
    }
}

impl<'a> Names<'a> {
    /// The object of a number, a constant or a variable.
    pub fn object(&self, is_constant: bool, wanted: u32, out: &mut Emitter) -> Option<Named>
        ensures { Learns (spec.objects self.now (entity is_constant wanted)) out.old result out.new }
    {
        match self {
            Names::Outset => None,
            Names::And { link, outer } => match *link {
                Link::Object {
                    constant,
                    object,
                    named,
                } => {
                    if constant == is_constant && wanted == object {
                        Some(named)
                    } else {
                        outer.object(is_constant, wanted, out)
                    }
                }
                Link::Thread => {
                    let found = outer.object(is_constant, wanted, out);
                    moved_named(found, out)
                }
                _ => outer.object(is_constant, wanted, out),
            },
        }
    }

    /// The parameter of a number.
    pub fn parameter(&self, wanted: u32, out: &mut Emitter) -> Option<Where>
        ensures { Learns (spec.parameters self.now wanted) out.old result out.new }
    {
        match self {
            Names::Outset => None,
            Names::And { link, outer } => match *link {
                Link::Parameter { number, place } => {
                    if wanted == number {
                        Some(place)
                    } else {
                        outer.parameter(wanted, out)
                    }
                }
                Link::Thread => {
                    let found = outer.parameter(wanted, out);
                    moved_where(found, out)
                }
                _ => outer.parameter(wanted, out),
            },
        }
    }

    /// The item of a number, which may be assigned to unless it is constant.
    pub fn item(&self, is_constant: bool, wanted: u32, out: &mut Emitter) -> Option<Named>
        ensures { Learns (spec.items self.now is_constant wanted) out.old result out.new }
    {
        match self {
            Names::Outset => None,
            Names::And { link, outer } => match *link {
                Link::Item {
                    constant,
                    number,
                    named,
                } => {
                    if constant == is_constant && wanted == number {
                        Some(named)
                    } else {
                        outer.item(is_constant, wanted, out)
                    }
                }
                Link::Thread => {
                    let found = outer.item(is_constant, wanted, out);
                    moved_named(found, out)
                }
                _ => outer.item(is_constant, wanted, out),
            },
        }
    }

    /// What `@` stands for (5.2.1).
    pub fn target(&self, out: &mut Emitter) -> Option<Named>
        ensures { Learns (spec.target_of self.now) out.old result out.new }
    {
        match self {
            Names::Outset => None,
            Names::And { link, outer } => match *link {
                Link::Target { named } => Some(named),
                Link::Thread => {
                    let found = outer.target(out);
                    moved_named(found, out)
                }
                _ => outer.target(out),
            },
        }
    }

    /// Where the number of what is handled is kept.
    pub fn handled(&self, out: &mut Emitter) -> Option<Where>
        ensures { Learns (spec.handled_of self.now) out.old result out.new }
    {
        match self {
            Names::Outset => None,
            Names::And { link, outer } => match *link {
                Link::Handled { place } => Some(place),
                Link::Thread => {
                    let found = outer.handled(out);
                    moved_where(found, out)
                }
                _ => outer.handled(out),
            },
        }
    }

    /// Where the code goes that leaves a loop, in the loop's own thread.
    pub fn exit(&self, wanted: u32) -> Option<u32>
        ensures { result ≡ spec.exits self.now wanted }
    {
        match self {
            Names::Outset => None,
            Names::And { link, outer } => match *link {
                Link::Exit { number, to } => {
                    if number == wanted {
                        Some(to)
                    } else {
                        outer.exit(wanted)
                    }
                }
                Link::Thread => None,
                _ => outer.exit(wanted),
            },
        }
    }
}

impl<'a> Env<'a> {
    /// What the name of a variable or a constant begins with.
    pub fn root(&self, constant: bool, root: Root, out: &mut Emitter) -> Option<Named>
        ensures { Learns (scope.array_root_of constant (env_of self.now) root) out.old result out.new }
    {
        match root {
            Root::Object(object) => self.names.object(constant, object, out),
            Root::Item(item) => self.names.item(constant, item, out),
        }
    }

    /// An instruction that needs so many cells, and what holds around it.
    pub fn placed(&self, cells: u32, height: u32, instr: Instr) -> Placed
        ensures { result ≡ placed (mark_of cells (env_of self.now)) height instr }
    {
        Placed {
            instr,
            height,
            entry: self.entry,
            body: self.body,
            nest: self.nest,
            cells,
            kind: SiteKind::Loop,
        }
    }

    /// The same where the cells from that one on are free.
    pub fn with_free(&self, free: u32) -> Env<'a>
        ensures { result ≡ record self.now { free = free } }
    {
        Env { free, ..*self }
    }

    /// The same where so many constructs are begun.
    pub fn with_nest(&self, nest: u32) -> Env<'a>
        ensures { result ≡ record self.now { nest = nest } }
    {
        Env { nest, ..*self }
    }

    /// The same with an object more, and with what is free behind it.
    pub fn with_object(&self, constant: bool, object: u32, named: Named, free: u32) -> Env<'_>
        ensures { (env_of result ≡ scope.with_object (entity constant object) named (at_free free (env_of self.now))) × ((result.typed ≡ self.now.typed) × (result.free ≡ free)) }
    {
        let link = Link::Object {
            constant,
            object,
            named,
        };
        let outer = &self.names;
        let names = Names::And { link, outer };
        Env {
            names,
            free,
            ..*self
        }
    }

    /// The same with a parameter more.
    pub fn with_parameter(&self, number: u32, place: Where, free: u32) -> Env<'_>
        ensures { (env_of result ≡ scope.with_parameter number place (at_free free (env_of self.now))) × ((result.typed ≡ self.now.typed) × (result.free ≡ free)) }
    {
        let link = Link::Parameter { number, place };
        let outer = &self.names;
        let names = Names::And { link, outer };
        Env {
            names,
            free,
            ..*self
        }
    }

    /// The same with an item more.
    pub fn with_item(&self, constant: bool, number: u32, named: Named, free: u32) -> Env<'_>
        ensures { (env_of result ≡ scope.with_item constant number named (at_free free (env_of self.now))) × ((result.typed ≡ self.now.typed) × (result.free ≡ free)) }
    {
        let link = Link::Item {
            constant,
            number,
            named,
        };
        let outer = &self.names;
        let names = Names::And { link, outer };
        Env {
            names,
            free,
            ..*self
        }
    }

    /// The same where `@` stands for that.
    pub fn with_target(&self, named: Named, free: u32) -> Env<'_>
        ensures { (env_of result ≡ scope.with_target named (at_free free (env_of self.now))) × ((result.typed ≡ self.now.typed) × (result.free ≡ free)) }
    {
        let link = Link::Target { named };
        let outer = &self.names;
        let names = Names::And { link, outer };
        Env {
            names,
            free,
            ..*self
        }
    }

    /// The same within a loop that is left for there.
    pub fn with_exit(&self, number: u32, to: u32) -> Env<'_>
        ensures { (env_of result ≡ scope.with_exit number to (env_of self.now)) × ((result.typed ≡ self.now.typed) × (result.free ≡ self.now.free)) }
    {
        let link = Link::Exit { number, to };
        let outer = &self.names;
        let names = Names::And { link, outer };
        Env { names, ..*self }
    }

    /// What the threads of a construct know, whose cells from that one on are free.
    pub fn in_threads(&self, site: u32, free: u32) -> Env<'_>
        ensures { (env_of result ≡ at_free free (thread_scope site (env_of self.now))) × ((result.typed ≡ self.now.typed) × (result.free ≡ free)) }
    {
        Env {
            names: Names::And {
                link: Link::Thread,
                outer: &self.names,
            },
            free,
            entry: None,
            leaving: Leaving::ByLeave,
            body: Around::Site(site),
            nest: 0,
            ..*self
        }
    }
}
