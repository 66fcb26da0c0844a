//! Names (4.1), aggregates (4.3), and what stands in brackets. A part is given by the number of its node, and a list by
//! that of its first cell, or 0.

ghost use Rattle.std.specs.Prelude.{◌≡◌};
ghost use Rattle.syntax_nodes.specs.Parts.{the_arg, the_assoc, the_choice, the_iter, the_many, the_name, the_parallel, the_part, the_range};
ghost use Rattle.syntax_nodes.specs.Tables.{part_at};
ghost use Rattle.syntax_nodes.specs.Below.{ArgBelow, AssocBelow, ChoiceBelow, IterBelow, ManyBelow, NameBelow, NamePartBelow, ParallelBelow, RangeBelow};
ghost use Rattle.syntax_nodes.specs.Views.{of_arg, of_assoc, of_choice, of_iter, of_many, of_name, of_name_part, of_parallel, of_range};

use crate::tree::Tree;
use crate::{Four, Leaf, Node, One, Three, Two};

/// `name`: an identifier and the list of what follows it (4.1).
#[derive(Clone, Copy)]
pub struct Name {
    pub first: u32,
    pub parts: u32,
}

/// What may follow an identifier in a name.
#[derive(Clone, Copy)]
pub enum NamePart {
    /// `"." id`
    Field(u32),
    /// `"(" arg {"," arg} ")"`, with the bracket's token.
    Call { bracket: u32, first: u32, more: u32 },
    /// `"'" id`
    Attribute(u32),
    /// `"'" "range"`, with the token of the word.
    RangeAttribute(u32),
}

/// `arg = [id "=>"] expr` (6.4)
#[derive(Clone, Copy)]
pub struct Arg {
    pub formal: Option<u32>,
    pub value: u32,
}

/// `range` (3.5)
#[derive(Clone, Copy)]
pub enum Range {
    /// `name`
    Whole(u32),
    /// `simple ".." simple`
    Bounded { low: u32, high: u32 },
    /// `name "range" simple ".." simple`
    Constrained { name: u32, low: u32, high: u32 },
}

/// `choice` (3.8.1)
#[derive(Clone, Copy)]
pub enum Choice {
    /// `simple`
    Value(u32),
    /// `simple ".." simple`
    Span { low: u32, high: u32 },
    /// `"others"`, with its token.
    Others(u32),
}

/// What an aggregate holds (4.3), with the token of `others`.
#[derive(Clone, Copy)]
pub enum Many {
    /// `expr "," expr {"," expr}`
    Positions {
        first: u32,
        second: u32,
        more: u32,
    },
    /// `expr "," expr {"," expr} "," "others" "=>" expr`
    PositionsOthers {
        first: u32,
        second: u32,
        more: u32,
        at: u32,
        others: u32,
    },
    /// `expr "," "others" "=>" expr`
    FirstOthers {
        first: u32,
        at: u32,
        others: u32,
    },
    /// `assoc {"," assoc}`
    Associations {
        first: u32,
        more: u32,
    },
}

/// `assoc` (4.3)
#[derive(Clone, Copy)]
pub enum Assoc {
    /// `choice {"|" choice} "=>" expr`
    Chosen {
        first: u32,
        more: u32,
        value: u32,
    },
    /// `"for" id "in" range "=>" expr`, with the token of `for`.
    Each {
        at: u32,
        index: u32,
        range: u32,
        value: u32,
    },
}

/// `"parallel" ["(" chunk ")"]`, with the token of the word (5.5).
#[derive(Clone, Copy)]
pub enum Parallel {
    /// Without a chunk specification.
    Unchunked(u32),
    /// The chunk is `simple`.
    Counted { at: u32, count: u32 },
    /// The chunk is `id "in" range`.
    Chunked { at: u32, index: u32, range: u32 },
}

/// `iter` (5.5, 5.5.2)
#[derive(Clone, Copy)]
pub enum Iter {
    /// `id "in" ["reverse"] range ["when" expr]`, with the token of `reverse`.
    InRange {
        index: u32,
        reverse: Option<u32>,
        range: u32,
        filter: Option<u32>,
    },
    /// `id "of" name ["when" expr]`
    OfName {
        item: u32,
        of: u32,
        filter: Option<u32>,
    },
}

impl Tree {
    /// The name of a number.
    #[tactic(auto, using(crate::proofs::Reading::part_zero))]
    pub fn name(&self, number: u32) -> Name
        ensures is { the_name (part_at self.now.nodes number) ≡ of_name (part_at self.now.nodes) result }
        ensures below { NameBelow number result }
    {
        match self.node(number) {
            Node::One(One::Name(first), parts) => Name { first, parts },
            Node::Leaf(Leaf::Identifier(first)) => Name { first, parts: 0 },
            _ => Name { first: 0, parts: 0 },
        }
    }

    /// The part of a name of a number.
    pub fn name_part(&self, number: u32) -> NamePart
        ensures is { the_part (part_at self.now.nodes number) ≡ of_name_part (part_at self.now.nodes) result }
        ensures below { NamePartBelow number result }
    {
        match self.node(number) {
            Node::Leaf(Leaf::Field(at)) => NamePart::Field(at),
            Node::Two(Two::Call(bracket), first, more) => NamePart::Call {
                bracket,
                first,
                more,
            },
            Node::Leaf(Leaf::Attribute(at)) => NamePart::Attribute(at),
            Node::Leaf(Leaf::RangeAttribute(at)) => NamePart::RangeAttribute(at),
            _ => NamePart::Field(0),
        }
    }

    /// The argument of a number.
    pub fn arg(&self, number: u32) -> Arg
        ensures is { the_arg (part_at self.now.nodes number) ≡ of_arg (part_at self.now.nodes) result }
        ensures below { ArgBelow number result }
    {
        match self.node(number) {
            Node::One(One::NamedArg(formal), value) => Arg {
                formal: Some(formal),
                value,
            },
            _ => Arg {
                formal: None,
                value: number,
            },
        }
    }

    /// The range of a number.
    pub fn range(&self, number: u32) -> Range
        ensures is { the_range (part_at self.now.nodes number) ≡ of_range (part_at self.now.nodes) result }
        ensures below { RangeBelow number result }
    {
        match self.node(number) {
            Node::Two(Two::Bounded, low, high) => Range::Bounded { low, high },
            Node::Three(Three::Constrained, name, low, high) => Range::Constrained {
                name,
                low,
                high,
            },
            _ => Range::Whole(number),
        }
    }

    /// The choice of a number.
    pub fn choice(&self, number: u32) -> Choice
        ensures is { the_choice (part_at self.now.nodes number) ≡ of_choice (part_at self.now.nodes) result }
        ensures below { ChoiceBelow number result }
    {
        match self.node(number) {
            Node::Two(Two::Span, low, high) => Choice::Span { low, high },
            Node::Leaf(Leaf::Others(at)) => Choice::Others(at),
            _ => Choice::Value(number),
        }
    }

    /// The list of an aggregate of a number.
    pub fn many(&self, number: u32) -> Many
        ensures is { the_many (part_at self.now.nodes number) ≡ of_many (part_at self.now.nodes) result }
        ensures below { ManyBelow number result }
    {
        match self.node(number) {
            Node::Three(Three::Positions, first, second, more) => Many::Positions {
                first,
                second,
                more,
            },
            Node::Four(Four::PositionsOthers(at), first, second, more, others) =>
                Many::PositionsOthers {
                    first,
                    second,
                    more,
                    at,
                    others,
                },
            Node::Two(Two::FirstOthers(at), first, others) => Many::FirstOthers {
                first,
                at,
                others,
            },
            Node::Two(Two::Associations, first, more) => Many::Associations { first, more },
            _ => Many::FirstOthers {
                first: number,
                at: 0,
                others: number,
            },
        }
    }

    /// The association of a number.
    #[tactic(auto, using(crate::proofs::Reading::part_zero))]
    pub fn assoc(&self, number: u32) -> Assoc
        ensures is { the_assoc (part_at self.now.nodes number) ≡ of_assoc (part_at self.now.nodes) result }
        ensures below { AssocBelow number result }
    {
        match self.node(number) {
            Node::Three(Three::Chosen, first, more, value) => Assoc::Chosen { first, more, value },
            Node::Two(Two::Each(at, index), range, value) => Assoc::Each {
                at,
                index,
                range,
                value,
            },
            _ => Assoc::Chosen {
                first: number,
                more: 0,
                value: number,
            },
        }
    }

    /// The parallel part of a number.
    pub fn parallel(&self, number: u32) -> Parallel
        ensures is { the_parallel (part_at self.now.nodes number) ≡ of_parallel (part_at self.now.nodes) result }
        ensures below { ParallelBelow number result }
    {
        match self.node(number) {
            Node::Leaf(Leaf::Unchunked(at)) => Parallel::Unchunked(at),
            Node::One(One::Counted(at), count) => Parallel::Counted { at, count },
            Node::One(One::Chunked(at, index), range) => Parallel::Chunked { at, index, range },
            _ => Parallel::Unchunked(0),
        }
    }

    /// The iteration of a number.
    pub fn iter(&self, number: u32) -> Iter
        ensures is { the_iter (part_at self.now.nodes number) ≡ of_iter (part_at self.now.nodes) result }
        ensures below { IterBelow number result }
    {
        match self.node(number) {
            Node::Two(Two::InRange(index, reverse), range, filter) => Iter::InRange {
                index,
                reverse,
                range,
                filter: self.present(filter),
            },
            Node::Two(Two::OfName(item), of, filter) => Iter::OfName {
                item,
                of,
                filter: self.present(filter),
            },
            _ => Iter::InRange {
                index: 0,
                reverse: None,
                range: number,
                filter: None,
            },
        }
    }
}
