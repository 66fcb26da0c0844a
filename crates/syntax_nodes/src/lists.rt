//! The kinds of lists.

ghost use Rattle.std.specs.Prelude.{◌≡◌};
ghost use Rattle.syntax_nodes.specs.Parts.{list_number};

/// What the items of a list are that grows.
#[derive(Clone, Copy)]
pub enum ListKind {
    /// The links of a chain of relations.
    Conjuncts,
    /// The links of a sum.
    Addings,
    /// The links of a term.
    Multiplyings,
    /// The elsif parts of a conditional expression.
    Elsifs,
    /// The further expressions of an aggregate.
    Exprs,
    /// What follows the identifier in a name.
    NameParts,
    /// The further arguments of a call.
    Args,
    /// The further choices of an association.
    Choices,
    /// The further associations of an aggregate.
    Assocs,
    /// The further statements of a sequence.
    Stmts,
    /// The elsif parts of an if statement.
    Arms,
    /// The further alternatives of a case statement.
    Alts,
    /// The further sequences of a parallel block.
    Branches,
    /// The handlers of a body.
    Handlers,
    /// The further identifiers of a declaration or an expanded name.
    Tokens,
    /// The further ranges of an array.
    Ranges,
    /// The further component declarations of a record.
    Comps,
    /// Declarations.
    Decls,
    /// The further parameter specifications of a formal part.
    FormalList,
    /// The further expanded names of a clause or a handler.
    Packs,
    /// The further choices of an alternative.
    ChoiceList,
    /// The declarations and subprograms of the main procedure.
    Units,
    /// The context clauses of a program.
    Clauses,
}

/// The number of a kind of lists.
pub fn list_number(kind: ListKind) -> u8
    ensures { result ≡ list_number kind }
{
    match kind {
        ListKind::Conjuncts => 0,
        ListKind::Addings => 1,
        ListKind::Multiplyings => 2,
        ListKind::Elsifs => 3,
        ListKind::Exprs => 4,
        ListKind::NameParts => 5,
        ListKind::Args => 6,
        ListKind::Choices => 7,
        ListKind::Assocs => 8,
        ListKind::Stmts => 9,
        ListKind::Arms => 10,
        ListKind::Alts => 11,
        ListKind::Branches => 12,
        ListKind::Handlers => 13,
        ListKind::Tokens => 14,
        ListKind::Ranges => 15,
        ListKind::Comps => 16,
        ListKind::Decls => 17,
        ListKind::FormalList => 18,
        ListKind::Packs => 19,
        ListKind::ChoiceList => 20,
        ListKind::Units => 21,
        ListKind::Clauses => 22,
    }
}
