//! Declarations (3.1) and formal parameters (6.1). A part is given by the number of its node, and a list by that of its
//! first cell, or 0.

ghost use Rattle.std.specs.Prelude.{◌≡◌};
ghost use Rattle.syntax_nodes.specs.Parts.{the_array, the_comp, the_decl, the_definition, the_formal, the_formals, the_ids, the_indic, the_object_type};
ghost use Rattle.syntax_nodes.specs.Tables.{part_at};
ghost use Rattle.syntax_nodes.specs.Below.{ArrayBelow, CompBelow, DeclBelow, DefinitionBelow, FormalBelow, FormalsBelow, IdsBelow, IndicBelow, ObjectTypeBelow};
ghost use Rattle.syntax_nodes.specs.Views.{of_array, of_comp, of_decl, of_definition, of_formal, of_formals, of_ids, of_indic, of_object_type};

use crate::tree::Tree;
use crate::{Leaf, Node, One, Three, Two};
use syntax_tree::Mode;

/// `ids = id {"," id}`: the first token, and the list of the others (3.3.1).
#[derive(Clone, Copy)]
pub struct Ids {
    pub first: u32,
    pub more: u32,
}

/// `indic = id ["range" simple ".." simple]` (3.2.2)
#[derive(Clone, Copy)]
pub enum Indic {
    /// `id`
    Mark(u32),
    /// `id "range" simple ".." simple`
    RangeMark { mark: u32, low: u32, high: u32 },
}

/// `array = "array" "(" range {"," range} ")" "of" indic` (3.6), with the token of the word.
#[derive(Clone, Copy)]
pub struct Array {
    pub at: u32,
    pub first: u32,
    pub more: u32,
    pub component: u32,
}

/// `comp = ids ":" indic ";"` (3.8)
#[derive(Clone, Copy)]
pub struct Comp {
    pub names: u32,
    pub component: u32,
}

/// What an object is declared to be (3.3.1).
#[derive(Clone, Copy)]
pub enum ObjectType {
    /// `indic`
    Indicated(u32),
    /// `array`
    Anonymous(u32),
}

/// What a type is declared to be (3.2.1).
#[derive(Clone, Copy)]
pub enum Definition {
    /// `array`
    ArrayType(u32),
    /// `"range" simple ".." simple` (3.5.4)
    RangeType { low: u32, high: u32 },
    /// `"mod" simple` (3.5.4)
    ModularType(u32),
    /// `"record" comp {comp} "end" "record"`
    RecordType { first: u32, more: u32 },
}

/// `decl` (3.1)
#[derive(Clone, Copy)]
pub enum Decl {
    /// `ids ":" ["constant"] (indic | array) [":=" expr] ";"`, with the token of `constant`.
    ObjectDecl {
        names: u32,
        constant: Option<u32>,
        object_type: u32,
        value: Option<u32>,
    },
    /// `ids ":" "constant" ":=" expr ";"` (3.3.2), with the token of `constant`.
    NumberDecl {
        names: u32,
        at: u32,
        value: u32,
    },
    /// `ids ":" "exception" ";"` (11.1)
    ExceptionDecl(u32),
    /// `"type" id "is" definition ";"`, with the token of `type`.
    TypeDecl {
        at: u32,
        defined: u32,
        definition: u32,
    },
    /// `"subtype" id "is" indic ";"` (3.2.2), with the token of `subtype`.
    SubtypeDecl {
        at: u32,
        defined: u32,
        indic: u32,
    },
}

/// `formal = ids ":" ["in" | "out" | "in" "out"] id` (6.1)
#[derive(Clone, Copy)]
pub struct Formal {
    pub names: u32,
    pub mode: Option<Mode>,
    pub mark: u32,
}

/// `formals = "(" formal {";" formal} ")"`, with the bracket's token (6.1).
#[derive(Clone, Copy)]
pub struct Formals {
    pub bracket: u32,
    pub first: u32,
    pub more: u32,
}

impl Tree {
    /// The identifiers of a number.
    #[tactic(auto, using(crate::proofs::Reading::part_zero))]
    pub fn ids(&self, number: u32) -> Ids
        ensures is { the_ids (part_at self.now.nodes number) ≡ of_ids (part_at self.now.nodes) result }
        ensures below { IdsBelow number result }
    {
        match self.node(number) {
            Node::One(One::Ids(first), more) => Ids { first, more },
            _ => Ids { first: 0, more: 0 },
        }
    }

    /// The subtype indication of a number.
    pub fn indic(&self, number: u32) -> Indic
        ensures is { the_indic (part_at self.now.nodes number) ≡ of_indic (part_at self.now.nodes) result }
        ensures below { IndicBelow number result }
    {
        match self.node(number) {
            Node::Leaf(Leaf::Mark(mark)) => Indic::Mark(mark),
            Node::Two(Two::RangeMark(mark), low, high) => Indic::RangeMark { mark, low, high },
            _ => Indic::Mark(0),
        }
    }

    /// The array definition of a number.
    #[tactic(auto, using(crate::proofs::Reading::part_zero))]
    pub fn array(&self, number: u32) -> Array
        ensures is { the_array (part_at self.now.nodes number) ≡ of_array (part_at self.now.nodes) result }
        ensures below { ArrayBelow number result }
    {
        match self.node(number) {
            Node::Three(Three::Array(at), first, more, component) => Array {
                at,
                first,
                more,
                component,
            },
            _ => Array {
                at: 0,
                first: number,
                more: 0,
                component: number,
            },
        }
    }

    /// The component declaration of a number.
    pub fn comp(&self, number: u32) -> Comp
        ensures is { the_comp (part_at self.now.nodes number) ≡ of_comp (part_at self.now.nodes) result }
        ensures below { CompBelow number result }
    {
        match self.node(number) {
            Node::Two(Two::Comp, names, component) => Comp { names, component },
            _ => Comp {
                names: number,
                component: number,
            },
        }
    }

    /// The type of an object of a number.
    pub fn object_type(&self, number: u32) -> ObjectType
        ensures is { the_object_type (part_at self.now.nodes number) ≡ of_object_type (part_at self.now.nodes) result }
        ensures below { ObjectTypeBelow number result }
    {
        match self.node(number) {
            Node::Three(Three::Array(_), _, _, _) => ObjectType::Anonymous(number),
            _ => ObjectType::Indicated(number),
        }
    }

    /// The type definition of a number.
    pub fn definition(&self, number: u32) -> Definition
        ensures is { the_definition (part_at self.now.nodes number) ≡ of_definition (part_at self.now.nodes) result }
        ensures below { DefinitionBelow number result }
    {
        match self.node(number) {
            Node::Two(Two::RangeType, low, high) => Definition::RangeType { low, high },
            Node::One(One::ModularType, modulus) => Definition::ModularType(modulus),
            Node::Two(Two::RecordType, first, more) => Definition::RecordType { first, more },
            Node::Three(Three::Array(_), _, _, _) => Definition::ArrayType(number),
            _ => Definition::RangeType {
                low: number,
                high: number,
            },
        }
    }

    /// The declaration of a number.
    pub fn decl(&self, number: u32) -> Decl
        ensures is { the_decl (part_at self.now.nodes number) ≡ of_decl (part_at self.now.nodes) result }
        ensures below { DeclBelow number result }
    {
        match self.node(number) {
            Node::Three(Three::ObjectDecl(constant), names, object_type, value) =>
                Decl::ObjectDecl {
                    names,
                    constant,
                    object_type,
                    value: self.present(value),
                },
            Node::Two(Two::NumberDecl(at), names, value) => Decl::NumberDecl { names, at, value },
            Node::One(One::ExceptionDecl, names) => Decl::ExceptionDecl(names),
            Node::One(One::TypeDecl(at, defined), definition) => Decl::TypeDecl {
                at,
                defined,
                definition,
            },
            Node::One(One::SubtypeDecl(at, defined), indic) => Decl::SubtypeDecl {
                at,
                defined,
                indic,
            },
            _ => Decl::ExceptionDecl(number),
        }
    }

    /// The parameter specification of a number.
    pub fn formal(&self, number: u32) -> Formal
        ensures is { the_formal (part_at self.now.nodes number) ≡ of_formal (part_at self.now.nodes) result }
        ensures below { FormalBelow number result }
    {
        match self.node(number) {
            Node::One(One::Formal(mode, mark), names) => Formal { names, mode, mark },
            _ => Formal {
                names: number,
                mode: None,
                mark: 0,
            },
        }
    }

    /// The formal part of a number.
    #[tactic(auto, using(crate::proofs::Reading::part_zero))]
    pub fn formals(&self, number: u32) -> Formals
        ensures is { the_formals (part_at self.now.nodes number) ≡ of_formals (part_at self.now.nodes) result }
        ensures below { FormalsBelow number result }
    {
        match self.node(number) {
            Node::Two(Two::Formals(bracket), first, more) => Formals {
                bracket,
                first,
                more,
            },
            _ => Formals {
                bracket: 0,
                first: number,
                more: 0,
            },
        }
    }
}
