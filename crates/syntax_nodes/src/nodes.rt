//! The nodes of a syntax tree. A part is given by its number in the table, which counts from 1; 0 is no part: one
//! that is left out, or the end of a list. What a node holds beside the numbers of its parts is its form.

use crate::lists::ListKind;
use ada_base::Comparison;
use syntax_tree::{Additive, ClauseWord, Logical, Mode, Multiplicative, Sign};

/// A form without parts. A token is given by its number in the list of tokens.
#[derive(Clone, Copy)]
pub enum Leaf {
    /// A token.
    Token(u32),
    /// `num`
    Number(u32),
    /// `str`
    Text(u32),
    /// `"@"` (5.2.1)
    Target(u32),
    /// A name that is an identifier.
    Identifier(u32),
    /// `"." id` in a name, with the token of the identifier.
    Field(u32),
    /// `"'" id` in a name, with the token of the identifier.
    Attribute(u32),
    /// `"'" "range"` in a name, with the token of the word.
    RangeAttribute(u32),
    /// `"others"` as a choice.
    Others(u32),
    /// `"parallel"`
    Unchunked(u32),
    /// A subtype indication that is an identifier.
    Mark(u32),
    /// `"others"` in a handler.
    AnyOther(u32),
    /// `"null" ";"`
    Null(u32),
    /// `aspect`: the tokens of `with`, of the mark and of the value.
    Aspect(u32, u32, Option<u32>),
    /// `policy`: the tokens of `pragma`, of its name and of the policy.
    Policy(u32, u32, u32),
}

/// A form of one part.
#[derive(Clone, Copy)]
pub enum One {
    /// A logical operator and its relation.
    Conjunct(u32),
    /// `simple ["not"] "in" id`, of the sum.
    OfMark(Option<u32>, u32, u32),
    /// An adding operator and its term.
    Adding(Additive, u32),
    /// A multiplying operator and its factor.
    Multiplying(Multiplicative, u32),
    /// `"abs" primary`
    Abs(u32),
    /// `"not" primary`
    Not(u32),
    /// `"(" expr ")"`
    Group(u32),
    /// `"(" many ")"`
    Round(u32),
    /// `"[" many "]"`
    Square(u32),
    /// `"[" expr "]"`
    OneValue(u32),
    /// An identifier, of the list of what follows it.
    Name(u32),
    /// `id "=>" expr`, of the expression.
    NamedArg(u32),
    /// `"mod" simple` as a definition, of the sum.
    ModularType,
    /// `"parallel" "(" simple ")"`, of the sum.
    Counted(u32),
    /// `"parallel" "(" id "in" range ")"`, of the range.
    Chunked(u32, u32),
    /// `ids`, of the list of the further tokens.
    Ids(u32),
    /// `ids ":" "exception" ";"`
    ExceptionDecl,
    /// `"type" id "is" .. ";"`, of the definition.
    TypeDecl(u32, u32),
    /// `"subtype" id "is" indic ";"`
    SubtypeDecl(u32, u32),
    /// `formal`, of the identifiers.
    Formal(Option<Mode>, u32),
    /// `pack`, of the list of the further tokens.
    Pack(u32),
    /// `"declare" {decl}`, of the list.
    Declare(u32),
    /// `"while" expr`
    While(u32),
    /// `name ";"`
    CallStmt,
    /// `"exit" [id] ["when" expr] ";"`, of the expression or nothing.
    Exit(u32, Option<u32>),
    /// `"return" [expr] ";"`, of the expression or nothing.
    Return(u32),
    /// `"raise" [pack] ";"`, of the name or nothing.
    Raise(u32),
    /// `"(" expr ")"` of an expression function.
    Bracketed(u32),
}

/// A form of two parts.
#[derive(Clone, Copy)]
pub enum Two {
    /// `simple relational_operator simple`
    Compared(Comparison, u32),
    /// A term and the list of the links after it.
    Sum(Option<Sign>),
    /// A factor and the list of the links after it.
    Product,
    /// `primary "**" primary`
    Power(u32),
    /// `"elsif" expr "then" expr`
    Elsif(u32),
    /// `"(" arg {"," arg} ")"` in a name: the first argument and the list of the others.
    Call(u32),
    /// `simple ".." simple` as a range.
    Bounded,
    /// `simple ".." simple` as a choice.
    Span,
    /// `expr "," "others" "=>" expr`
    FirstOthers(u32),
    /// `assoc {"," assoc}`: the first and the list of the others.
    Associations,
    /// `"for" id "in" range "=>" expr`
    Each(u32, u32),
    /// `id "in" ["reverse"] range ["when" expr]`: the range, and the expression or nothing.
    InRange(u32, Option<u32>),
    /// `id "of" name ["when" expr]`: the name, and the expression or nothing.
    OfName(u32),
    /// `id "range" simple ".." simple` as a subtype indication.
    RangeMark(u32),
    /// `ids ":" indic ";"`
    Comp,
    /// `"range" simple ".." simple` as a definition.
    RangeType,
    /// `"record" comp {comp} "end" "record"`: the first and the list of the others.
    RecordType,
    /// `ids ":" "constant" ":=" expr ";"`
    NumberDecl(u32),
    /// `"(" formal {";" formal} ")"`: the first and the list of the others.
    Formals(u32),
    /// `["parallel" ["(" chunk ")"]] "for" iter`: the parallel part or nothing, and the iteration.
    For(u32),
    /// `pack {"|" pack}`: the first and the list of the others.
    These,
    /// `name ":=" expr ";"`
    Assign,
    /// `["declare" {decl}] "begin" body "end" ";"`: the declarations or nothing, and the body.
    Block(u32),
    /// `stmt {stmt}`: the first and the list of the others.
    Stmts,
    /// `"elsif" expr "then" stmts`
    Arm(u32),
    /// `body`: the statements and the list of handlers.
    Body,
    /// `handler`: what it handles, and the statements.
    Handler(u32),
    /// `{decl} "begin" body "end" [id] ";"`: the list of declarations and the body.
    Implementation(Option<u32>),
    /// `("with" | "use") pack {"," pack} ";"`: the first and the list of the others.
    Clause(ClauseWord, u32),
}

/// A form of three parts.
#[derive(Clone, Copy)]
pub enum Three {
    /// `rel {operator rel}`: the first two relations and the list of the links after them.
    Joined(Logical, u32),
    /// `simple ["not"] "in" simple ".." simple`
    Within(Option<u32>, u32),
    /// `["parallel" ["(" chunk ")"]] "for" iter "=>" expr` of a reduction: the parallel part or nothing, the iteration, the expression.
    Values(u32),
    /// `reduction`: the values, the reducer, the initial value.
    Reduction(u32, u32),
    /// `name "range" simple ".." simple` as a range.
    Constrained,
    /// `expr "," expr {"," expr}`: the first two and the list of the others.
    Positions,
    /// `choice {"|" choice} "=>" expr`: the first choice, the list of the others, the expression.
    Chosen,
    /// `array`: the first range, the list of the others, the subtype indication.
    Array(u32),
    /// `ids ":" ["constant"] (indic | array) [":=" expr] ";"`: the last is an expression or nothing.
    ObjectDecl(Option<u32>),
    /// `"case" expr "is" alt {alt} "end" "case" ";"`: the first alternative, and the list of the others.
    Case(u32),
    /// `alt`: the first choice, the list of the others, the statements.
    Alt(u32),
    /// A procedure: formal part or nothing, aspect or nothing, implementation.
    Procedure(u32, u32),
    /// A function: formal part or nothing, aspect or nothing, implementation.
    Function(u32, u32, u32),
    /// An expression function (6.8): formal part or nothing, expression in brackets, aspect or nothing.
    ExprFunction(u32, u32, u32),
    /// `program`: the policy or nothing, the list of clauses, the main procedure.
    Program,
}

/// A form of four parts.
#[derive(Clone, Copy)]
pub enum Four {
    /// `"(" "if" expr "then" expr {"elsif" ..} "else" expr ")"`: the list of elsif parts is the third.
    If(u32, u32),
    /// `expr "," expr {"," expr} "," "others" "=>" expr`: the list of the further ones is the third.
    PositionsOthers(u32),
    /// `"if" expr "then" stmts {"elsif" ..} ["else" stmts] "end" "if" ";"`: the list of elsif parts is the third, the last is nothing where there is no `else`.
    IfStmt(u32),
    /// A loop: label or nothing, scheme or nothing, statements, last identifier or nothing.
    Loop(u32, u32),
    /// `"parallel" ["(" simple ")"] "do" ..`: the sum or nothing, two sequences, and the list of the others.
    ParallelBlock(u32),
    /// `main`: aspect or nothing, the list of units, the body, last identifier or nothing.
    Main(u32, u32),
}

/// A node: a form over its parts, in the order of the text.
#[derive(Clone, Copy)]
pub enum Node {
    /// No part.
    Nothing,
    Leaf(Leaf),
    One(One, u32),
    Two(Two, u32, u32),
    Three(Three, u32, u32, u32),
    Four(Four, u32, u32, u32, u32),
    /// A list that grows, and the item behind it.
    Also(ListKind, u32, u32),
    /// The first item of a list, and the rest of the list.
    Cell(u32, u32),
}

/// The first item of a list, and the rest of the list.
#[derive(Clone, Copy)]
pub struct Cell {
    pub first: u32,
    pub rest: u32,
}
