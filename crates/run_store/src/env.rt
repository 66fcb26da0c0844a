//! What names stand for that aren't objects.

ghost use Rattle.std.specs.Prelude.{◌≡◌, ◌<◌};
ghost use Rattle.ada_meaning.specs.Meaning as meaning;
ghost use Rattle.run_store.specs.Environment.{env_of, part_of};

use ada_base::Reason;
use typed_tree::Root;

/// An object, and how many cells of it come before.
#[derive(Clone, Copy)]
pub struct ObjectPart {
    pub object: u32,
    pub offset: u64,
}

/// What parameters and items of the loops around stand for, the target of the assignment around, the exception that is
/// handled, and how many parallel constructs are around.
#[derive(Clone, Copy)]
pub enum Env<'a> {
    /// Where a body begins, with so many constructs around.
    Outset {
        nested: u32,
    },
    Parameter {
        outer: &'a Env<'a>,
        number: u32,
        value: i64,
    },
    Item {
        outer: &'a Env<'a>,
        constant: bool,
        number: u32,
        part: ObjectPart,
    },
    Target {
        outer: &'a Env<'a>,
        part: ObjectPart,
    },
    Handled {
        outer: &'a Env<'a>,
        reason: Reason,
    },
    Inside {
        outer: &'a Env<'a>,
        nested: u32,
    },
}

impl<'a> Env<'a> {
    /// The value of a parameter, 0 where there is none.
    pub fn parameter(&self, wanted: u32) -> i64
        ensures { result ≡ (env_of self.now).parameter wanted }
    {
        // tried before the others, since most links that are passed are parameters
        if let Env::Parameter {
            number,
            value,
            outer,
        } = self
        {
            if wanted == *number {
                *value
            } else {
                outer.parameter(wanted)
            }
        } else {
            match self {
                Env::Outset { .. } => 0,
                Env::Parameter { outer, .. }
                | Env::Item { outer, .. }
                | Env::Target { outer, .. }
                | Env::Handled { outer, .. }
                | Env::Inside { outer, .. } => outer.parameter(wanted),
            }
        }
    }

    /// The part of a variable that an item stands for.
    pub fn item(&self, wanted: u32) -> ObjectPart
        ensures { part_of result ≡ (env_of self.now).item wanted }
    {
        match self {
            Env::Outset { .. } => ObjectPart {
                object: 0,
                offset: 0,
            },
            Env::Item {
                constant,
                number,
                part,
                outer,
            } => {
                if !*constant && wanted == *number {
                    *part
                } else {
                    outer.item(wanted)
                }
            }
            Env::Parameter { outer, .. }
            | Env::Target { outer, .. }
            | Env::Handled { outer, .. }
            | Env::Inside { outer, .. } => outer.item(wanted),
        }
    }

    /// The part of a constant that an item stands for.
    pub fn constant_item(&self, wanted: u32) -> ObjectPart
        ensures { part_of result ≡ (env_of self.now).constant_item wanted }
    {
        match self {
            Env::Outset { .. } => ObjectPart {
                object: 0,
                offset: 0,
            },
            Env::Item {
                constant,
                number,
                part,
                outer,
            } => {
                if *constant && wanted == *number {
                    *part
                } else {
                    outer.constant_item(wanted)
                }
            }
            Env::Parameter { outer, .. }
            | Env::Target { outer, .. }
            | Env::Handled { outer, .. }
            | Env::Inside { outer, .. } => outer.constant_item(wanted),
        }
    }

    /// The target of the assignment around.
    pub fn target(&self) -> ObjectPart
        ensures { part_of result ≡ (env_of self.now).target }
    {
        match self {
            Env::Outset { .. } => ObjectPart {
                object: 0,
                offset: 0,
            },
            Env::Target { part, .. } => *part,
            Env::Parameter { outer, .. }
            | Env::Item { outer, .. }
            | Env::Handled { outer, .. }
            | Env::Inside { outer, .. } => outer.target(),
        }
    }

    /// The exception that is handled.
    pub fn handled(&self) -> Reason
        ensures { result ≡ (env_of self.now).handled }
    {
        match self {
            Env::Outset { .. } => Reason::ProgramError,
            Env::Handled { reason, .. } => *reason,
            Env::Parameter { outer, .. }
            | Env::Item { outer, .. }
            | Env::Target { outer, .. }
            | Env::Inside { outer, .. } => outer.handled(),
        }
    }

    /// How many parallel constructs are around.
    pub fn nested(&self) -> u32
        ensures { result ≡ (env_of self.now).nested }
    {
        match self {
            Env::Outset { nested } | Env::Inside { nested, .. } => *nested,
            Env::Parameter { outer, .. }
            | Env::Item { outer, .. }
            | Env::Target { outer, .. }
            | Env::Handled { outer, .. } => outer.nested(),
        }
    }

    /// The first cell of what a variable's name begins with.
    pub fn variable_root(&self, root: Root) -> ObjectPart
        ensures { part_of result ≡ meaning.variable_root root (env_of self.now) }
    {
        match root {
            Root::Object(object) => ObjectPart { object, offset: 0 },
            Root::Item(item) => self.item(item),
        }
    }

    /// The first cell of what a constant's name begins with.
    pub fn constant_root(&self, root: Root) -> ObjectPart
        ensures { part_of result ≡ meaning.constant_root root (env_of self.now) }
    {
        match root {
            Root::Object(object) => ObjectPart { object, offset: 0 },
            Root::Item(item) => self.constant_item(item),
        }
    }

    /// The first cell of an array that an iteration goes through.
    pub fn array_root(&self, constant: bool, root: Root) -> ObjectPart
        ensures { part_of result ≡ meaning.array_root constant root (env_of self.now) }
    {
        if constant {
            self.constant_root(root)
        } else {
            self.variable_root(root)
        }
    }
}
