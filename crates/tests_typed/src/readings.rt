//! What is read of joined programs, as words and numbers.

use std::alloc::AllocError;
use typed_tree::{Expr, Nodes, Stmt};

fn word_of_expression(expr: Expr) -> &'static str {
    match expr {
        Expr::Static { .. } => "static ",
        Expr::Variable { .. } => "variable ",
        Expr::Constant { .. } => "constant ",
        Expr::Parameter { .. } => "parameter ",
        Expr::Target { .. } => "target ",
        Expr::Group { .. } => "group ",
        Expr::Unary { .. } => "unary ",
        Expr::Binary { .. } => "binary ",
        Expr::AndThen { .. } => "and_then ",
        Expr::OrElse { .. } => "or_else ",
        Expr::Relation { .. } => "relation ",
        Expr::Membership { .. } => "membership ",
        Expr::If { .. } => "if ",
        Expr::Call { .. } => "call ",
        Expr::Convert { .. } => "convert ",
        Expr::Reduction { .. } => "reduction ",
    }
}

fn word_of_statement(stmt: Stmt) -> &'static str {
    match stmt {
        Stmt::Null => "null ",
        Stmt::Assign { .. } => "assign ",
        Stmt::Call { .. } => "call ",
        Stmt::Exit { .. } => "exit ",
        Stmt::Return => "return ",
        Stmt::ReturnValue { .. } => "return_value ",
        Stmt::Raise { .. } => "raise ",
        Stmt::Reraise => "reraise ",
        Stmt::If { .. } => "if ",
        Stmt::Case { .. } => "case ",
        Stmt::Loop { .. } => "loop ",
        Stmt::For { .. } => "for ",
        Stmt::ParallelFor { .. } => "parallel_for ",
        Stmt::Parallel { .. } => "parallel ",
        Stmt::Block { .. } => "block ",
        Stmt::Put { .. } => "put ",
        Stmt::Get { .. } => "get ",
    }
}

/// Puts the words of the expressions of a list into a text.
pub fn put_expressions(words: &mut String, nodes: &Nodes, list: u32) -> Result<(), AllocError> {
    let mut at = list;
    while let Some(cell) = nodes.exprs(at) {
        words.push_str(word_of_expression(nodes.expr(cell.first)))?;
        at = cell.rest;
    }
    Ok(())
}

/// Puts the words of the statements of a list into a text.
pub fn put_statements(words: &mut String, nodes: &Nodes, list: u32) -> Result<(), AllocError> {
    let mut at = list;
    while let Some(cell) = nodes.stmts(at) {
        words.push_str(word_of_statement(nodes.stmt(cell.first)))?;
        at = cell.rest;
    }
    Ok(())
}

/// The value of a static expression, or the values of a list of them as digits of one number.
pub fn digits(nodes: &Nodes, root: u32) -> i64 {
    if let Expr::Static { value, .. } = nodes.expr(root) {
        return value;
    }
    let mut number = 0i64;
    let mut at = root;
    while let Some(cell) = nodes.exprs(at) {
        if let Expr::Static { value, .. } = nodes.expr(cell.first) {
            number = number.wrapping_mul(10).wrapping_add(value);
        }
        at = cell.rest;
    }
    number
}
