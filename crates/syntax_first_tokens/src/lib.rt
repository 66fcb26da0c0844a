//! The number of the first token of each part of a syntax tree: the token that it is blamed at.
#![tactic(auto)]

ghost use Rattle.std.specs.Prelude.{◌≡◌};
ghost use Rattle.syntax_tree.specs.FirstTokens as first;
ghost use Rattle.syntax_first_tokens.specs.Laws.{FirstTokenLaw};
ghost use Rattle.syntax_nodes.specs.Parts.{the_arg, the_assoc, the_body, the_choice, the_decl, the_expr, the_factor, the_indic, the_iter, the_many, the_name, the_parallel, the_primary, the_range, the_rel, the_scheme, the_simple, the_stmt, the_stmts, the_sub, the_term, the_unit};
ghost use Rattle.syntax_nodes.specs.Tables.{part_at};

use syntax_nodes::{
    Assoc, Choice, Decl, Expr, Factor, Indic, Iter, Many, Parallel, Primary, Range, Rel, Scheme,
    Stmt, Sub, Tree, Unit,
};
use syntax_tree::Sign;

/// The law of the definition: whatever a part spells begins with the token that is told as its first. It has no body: its
/// contract is what is proved.
pub fn law()
    ensures { FirstTokenLaw }
{}

/// The first token of a name.
pub fn of_name(tree: &Tree, number: u32) -> u32
    ensures { result ≡ first.of_name (the_name (part_at tree.now.nodes number)) }
{
    tree.name(number).first
}

/// The first token of a primary.
pub fn of_primary(tree: &Tree, number: u32) -> u32
    ensures { result ≡ first.of_primary (the_primary (part_at tree.now.nodes number)) }
{
    match tree.primary(number) {
        Primary::Number(at) | Primary::Text(at) | Primary::Target(at) => at,
        Primary::Named(name) => of_name(tree, name),
        Primary::Group { bracket, .. }
        | Primary::If { bracket, .. }
        | Primary::Round { bracket, .. }
        | Primary::Square { bracket, .. }
        | Primary::OneValue { bracket, .. }
        | Primary::Reduction { bracket, .. } => bracket,
    }
}

/// The first token of a factor.
pub fn of_factor(tree: &Tree, number: u32) -> u32
    ensures { result ≡ first.of_factor (the_factor (part_at tree.now.nodes number)) }
{
    match tree.factor(number) {
        Factor::Operand(primary) => of_primary(tree, primary),
        Factor::Power { base, .. } => of_primary(tree, base),
        Factor::Abs { at, .. } | Factor::Not { at, .. } => at,
    }
}

/// The first token of a term.
pub fn of_term(tree: &Tree, number: u32) -> u32
    ensures { result ≡ first.of_term (the_term (part_at tree.now.nodes number)) }
{
    of_factor(tree, tree.term(number).first)
}

/// The first token of a sum.
pub fn of_simple(tree: &Tree, number: u32) -> u32
    ensures { result ≡ first.of_simple (the_simple (part_at tree.now.nodes number)) }
{
    let simple = tree.simple(number);
    match simple.sign {
        Some(Sign::Plus(at) | Sign::Minus(at)) => at,
        None => of_term(tree, simple.first),
    }
}

/// The first token of a relation.
pub fn of_rel(tree: &Tree, number: u32) -> u32
    ensures { result ≡ first.of_rel (the_rel (part_at tree.now.nodes number)) }
{
    match tree.rel(number) {
        Rel::Alone(simple) => of_simple(tree, simple),
        Rel::Compared { left, .. } => of_simple(tree, left),
        Rel::Within { value, .. } | Rel::OfMark { value, .. } => of_simple(tree, value),
    }
}

/// The first token of an expression.
pub fn of_expr(tree: &Tree, number: u32) -> u32
    ensures { result ≡ first.of_expr (the_expr (part_at tree.now.nodes number)) }
{
    match tree.expr(number) {
        Expr::Single(rel) => of_rel(tree, rel),
        Expr::Joined { first, .. } => of_rel(tree, first),
    }
}

/// The first token of an argument.
pub fn of_arg(tree: &Tree, number: u32) -> u32
    ensures { result ≡ first.of_arg (the_arg (part_at tree.now.nodes number)) }
{
    let arg = tree.arg(number);
    match arg.formal {
        Some(formal) => formal,
        None => of_expr(tree, arg.value),
    }
}

/// The first token of a range.
pub fn of_range(tree: &Tree, number: u32) -> u32
    ensures { result ≡ first.of_range (the_range (part_at tree.now.nodes number)) }
{
    match tree.range(number) {
        Range::Bounded { low, .. } => of_simple(tree, low),
        Range::Whole(name) => of_name(tree, name),
        Range::Constrained { name, .. } => of_name(tree, name),
    }
}

/// The first token of a choice.
pub fn of_choice(tree: &Tree, number: u32) -> u32
    ensures { result ≡ first.of_choice (the_choice (part_at tree.now.nodes number)) }
{
    match tree.choice(number) {
        Choice::Value(simple) => of_simple(tree, simple),
        Choice::Span { low, .. } => of_simple(tree, low),
        Choice::Others(at) => at,
    }
}

/// The first token of an association.
pub fn of_assoc(tree: &Tree, number: u32) -> u32
    ensures { result ≡ first.of_assoc (the_assoc (part_at tree.now.nodes number)) }
{
    match tree.assoc(number) {
        Assoc::Chosen { first, .. } => of_choice(tree, first),
        Assoc::Each { at, .. } => at,
    }
}

/// The first token of a list of an aggregate.
pub fn of_many(tree: &Tree, number: u32) -> u32
    ensures { result ≡ first.of_many (the_many (part_at tree.now.nodes number)) }
{
    match tree.many(number) {
        Many::Positions { first, .. }
        | Many::PositionsOthers { first, .. }
        | Many::FirstOthers { first, .. } => of_expr(tree, first),
        Many::Associations { first, .. } => of_assoc(tree, first),
    }
}

/// The first token of a parallel part.
pub fn of_parallel(tree: &Tree, number: u32) -> u32
    ensures { result ≡ first.of_parallel (the_parallel (part_at tree.now.nodes number)) }
{
    match tree.parallel(number) {
        Parallel::Unchunked(at) => at,
        Parallel::Counted { at, .. } | Parallel::Chunked { at, .. } => at,
    }
}

/// The first token of an iteration.
pub fn of_iter(tree: &Tree, number: u32) -> u32
    ensures { result ≡ first.of_iter (the_iter (part_at tree.now.nodes number)) }
{
    match tree.iter(number) {
        Iter::InRange { index, .. } => index,
        Iter::OfName { item, .. } => item,
    }
}

/// The first token of a subtype indication.
pub fn of_indic(tree: &Tree, number: u32) -> u32
    ensures { result ≡ first.of_indic (the_indic (part_at tree.now.nodes number)) }
{
    match tree.indic(number) {
        Indic::Mark(mark) => mark,
        Indic::RangeMark { mark, .. } => mark,
    }
}

/// The first token of a declaration.
pub fn of_decl(tree: &Tree, number: u32) -> u32
    ensures { result ≡ first.of_decl (the_decl (part_at tree.now.nodes number)) }
{
    match tree.decl(number) {
        Decl::ObjectDecl { names, .. } | Decl::NumberDecl { names, .. } => tree.ids(names).first,
        Decl::ExceptionDecl(names) => tree.ids(names).first,
        Decl::TypeDecl { at, .. } | Decl::SubtypeDecl { at, .. } => at,
    }
}

/// The first token of an iteration scheme.
pub fn of_scheme(tree: &Tree, number: u32) -> u32
    ensures { result ≡ first.of_scheme (the_scheme (part_at tree.now.nodes number)) }
{
    match tree.scheme(number) {
        Scheme::While { at, .. } => at,
        Scheme::For {
            parallel: Some(parallel),
            ..
        } => of_parallel(tree, parallel),
        Scheme::For { at, .. } => at,
    }
}

/// The first token of a statement.
pub fn of_stmt(tree: &Tree, number: u32) -> u32
    ensures { result ≡ first.of_stmt (the_stmt (part_at tree.now.nodes number)) }
{
    match tree.stmt(number) {
        Stmt::Assign { target, .. } => of_name(tree, target),
        Stmt::CallStmt(name) => of_name(tree, name),
        Stmt::Loop {
            label: Some(label),
            ..
        } => label,
        Stmt::Loop {
            scheme: Some(scheme),
            ..
        } => of_scheme(tree, scheme),
        Stmt::Block {
            declare: Some(declare),
            ..
        } => tree.declare(declare).at,
        Stmt::Null(at)
        | Stmt::Exit { at, .. }
        | Stmt::Return { at, .. }
        | Stmt::Raise { at, .. }
        | Stmt::IfStmt { at, .. }
        | Stmt::Case { at, .. }
        | Stmt::Loop { at, .. }
        | Stmt::Block { at, .. }
        | Stmt::ParallelBlock { at, .. } => at,
    }
}

/// The first token of a sequence of statements.
pub fn of_stmts(tree: &Tree, number: u32) -> u32
    ensures { result ≡ first.of_stmts (the_stmts (part_at tree.now.nodes number)) }
{
    of_stmt(tree, tree.stmts(number).first)
}

/// The first token of a body.
pub fn of_body(tree: &Tree, number: u32) -> u32
    ensures { result ≡ first.of_body (the_body (part_at tree.now.nodes number)) }
{
    of_stmts(tree, tree.body(number).stmts)
}

/// The first token of a subprogram.
pub fn of_sub(tree: &Tree, number: u32) -> u32
    ensures { result ≡ first.of_sub (the_sub (part_at tree.now.nodes number)) }
{
    match tree.sub(number) {
        Sub::Procedure { at, .. } | Sub::Function { at, .. } | Sub::ExprFunction { at, .. } => at,
    }
}

/// The first token of a declaration or subprogram.
pub fn of_unit(tree: &Tree, number: u32) -> u32
    ensures { result ≡ first.of_unit (the_unit (part_at tree.now.nodes number)) }
{
    match tree.unit(number) {
        Unit::Decl(decl) => of_decl(tree, decl),
        Unit::Sub(sub) => of_sub(tree, sub),
    }
}
