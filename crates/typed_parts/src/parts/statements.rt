//! Statements (5.1).

ghost use Rattle.std.specs.Prelude.{◌≡◌, ◌∷◌, OnOk};
ghost use Rattle.typed_tree.specs.Decoded.{AStmt, AnAlternative, as_actuals, as_alternatives, as_arms, as_chunk, as_decls, as_expr, as_exprs, as_handlers, as_iteration, as_optional, as_pieces, as_selections, as_spans, as_stmts, as_value};
ghost use Rattle.typed_tree.specs.Syntax as syntax;
ghost use Rattle.typed_tree.specs.Latest.{pop, second, third, top};
ghost use Rattle.typed_parts.specs.Stack.{parts};

use crate::parts::Parts;
use ada_base::Reason;
use std::alloc::AllocError;
use typed_tree::{Alternative, Node, Root, Scalar, Stmt};

impl Parts {
    /// `null;`
    pub fn null(&mut self) -> Result<(), AllocError>
        ensures { OnOk result (parts self.new ≡ AStmt syntax.Null ∷ parts self.old) }
    {
        self.put(Node::Stmt(Stmt::Null))
    }

    /// An assignment (5.2) to an object or item. Joined of the list of its target's selections and then the value.
    pub fn assign(&mut self, at: u32, root: Root) -> Result<(), AllocError>
        ensures { OnOk result (parts self.new ≡ AStmt (syntax.Assign at root (as_selections (second (parts self.old))) (as_value (top (parts self.old)))) ∷ pop (pop (parts self.old))) }
    {
        let value = self.take();
        let selections = self.take();
        self.put(Node::Stmt(Stmt::Assign {
            at,
            root,
            selections,
            value,
        }))
    }

    /// A call of a procedure (6.4), with the first and the last token of its name. Joined of the list of its actual
    /// parameters.
    pub fn call_procedure(&mut self, at: u32, callee: u32, sub: u32) -> Result<(), AllocError>
        ensures { OnOk result (parts self.new ≡ AStmt (syntax.CallProcedure at callee sub (as_actuals (top (parts self.old)))) ∷ pop (parts self.old)) }
    {
        let actuals = self.take();
        self.put(Node::Stmt(Stmt::Call {
            at,
            callee,
            sub,
            actuals,
        }))
    }

    /// `exit L when C;` (5.7) of the loop of a number, of C or nothing.
    pub fn exit(&mut self, from: u32) -> Result<(), AllocError>
        ensures { OnOk result (parts self.new ≡ AStmt (syntax.Exit from (as_optional (top (parts self.old)))) ∷ pop (parts self.old)) }
    {
        let condition = self.take();
        self.put(Node::Stmt(Stmt::Exit { from, condition }))
    }

    /// `return;` (6.5)
    pub fn return_none(&mut self) -> Result<(), AllocError>
        ensures { OnOk result (parts self.new ≡ AStmt syntax.Return ∷ parts self.old) }
    {
        self.put(Node::Stmt(Stmt::Return))
    }

    /// `return V;` (6.5), of the value.
    pub fn return_value(&mut self) -> Result<(), AllocError>
        ensures { OnOk result (parts self.new ≡ AStmt (syntax.ReturnValue (as_value (top (parts self.old)))) ∷ pop (parts self.old)) }
    {
        let value = self.take();
        self.put(Node::Stmt(Stmt::ReturnValue { value }))
    }

    /// `raise E;` (11.3)
    pub fn raise(&mut self, reason: Reason) -> Result<(), AllocError>
        ensures { OnOk result (parts self.new ≡ AStmt (syntax.Raise reason) ∷ parts self.old) }
    {
        self.put(Node::Stmt(Stmt::Raise { reason }))
    }

    /// `raise;` in a handler (11.3)
    pub fn reraise(&mut self) -> Result<(), AllocError>
        ensures { OnOk result (parts self.new ≡ AStmt syntax.Reraise ∷ parts self.old) }
    {
        self.put(Node::Stmt(Stmt::Reraise))
    }

    /// An if statement (5.3). Joined of its condition, the list of the statements after `then`, and that of those after
    /// `else` in this order.
    pub fn if_then(&mut self) -> Result<(), AllocError>
        ensures { OnOk result (parts self.new ≡ AStmt (syntax.IfThen (as_expr (third (parts self.old))) (as_stmts (second (parts self.old))) (as_stmts (top (parts self.old)))) ∷ pop (pop (pop (parts self.old)))) }
    {
        let otherwise = self.take();
        let stmts = self.take();
        let condition = self.take();
        self.put(Node::Stmt(Stmt::If {
            condition,
            stmts,
            otherwise,
        }))
    }

    /// A case statement (5.4). Joined of the selecting expression and then the list of its alternatives.
    pub fn case(&mut self) -> Result<(), AllocError>
        ensures { OnOk result (parts self.new ≡ AStmt (syntax.Case (as_expr (second (parts self.old))) (as_alternatives (top (parts self.old)))) ∷ pop (pop (parts self.old))) }
    {
        let alternatives = self.take();
        let value = self.take();
        self.put(Node::Stmt(Stmt::Case {
            value,
            alternatives,
        }))
    }

    /// An alternative of a case statement (5.4). Joined of the list of its choices, the list of the expressions that
    /// these mention, and the list of its statements in this order.
    pub fn alternative(&mut self, others: bool) -> Result<(), AllocError>
        ensures { OnOk result (parts self.new ≡ AnAlternative (syntax.Alternative others (as_spans (third (parts self.old))) (as_exprs (second (parts self.old))) (as_stmts (top (parts self.old)))) ∷ pop (pop (pop (parts self.old)))) }
    {
        let stmts = self.take();
        let mentions = self.take();
        let choices = self.take();
        self.put(Node::Alternative(Alternative {
            others,
            choices,
            mentions,
            stmts,
        }))
    }

    /// `[while C] loop` (5.5) with its number. Joined of C or nothing, and then the list of its statements.
    pub fn loop_while(&mut self, number: u32) -> Result<(), AllocError>
        ensures { OnOk result (parts self.new ≡ AStmt (syntax.Loop number (as_optional (second (parts self.old))) (as_stmts (top (parts self.old)))) ∷ pop (pop (parts self.old))) }
    {
        let stmts = self.take();
        let condition = self.take();
        self.put(Node::Stmt(Stmt::Loop {
            number,
            condition,
            stmts,
        }))
    }

    /// `for .. loop` (5.5) with its number. Joined of its iteration and then the list of its statements.
    pub fn loop_for(&mut self, number: u32) -> Result<(), AllocError>
        ensures { OnOk result (parts self.new ≡ AStmt (syntax.For number (as_iteration (second (parts self.old))) (as_stmts (top (parts self.old)))) ∷ pop (pop (parts self.old))) }
    {
        let stmts = self.take();
        let iteration = self.take();
        self.put(Node::Stmt(Stmt::For {
            number,
            iteration,
            stmts,
        }))
    }

    /// `parallel for .. loop` (5.5) with its number and its site. Joined of its chunk specification or nothing, its
    /// iteration, and the list of its statements in this order.
    pub fn parallel_for(&mut self, number: u32, site: u32) -> Result<(), AllocError>
        ensures { OnOk result (parts self.new ≡ AStmt (syntax.ParallelFor number site (as_chunk (third (parts self.old))) (as_iteration (second (parts self.old))) (as_stmts (top (parts self.old)))) ∷ pop (pop (pop (parts self.old)))) }
    {
        let stmts = self.take();
        let iteration = self.take();
        let chunk = self.take();
        self.put(Node::Stmt(Stmt::ParallelFor {
            number,
            site,
            chunk,
            iteration,
            stmts,
        }))
    }

    /// `parallel do .. and .. end do;` (5.6.1) with its site. Joined of the number of chunks or nothing, and then the
    /// list of its arms, each a list of statements.
    pub fn parallel(&mut self, site: u32) -> Result<(), AllocError>
        ensures { OnOk result (parts self.new ≡ AStmt (syntax.Parallel site (as_optional (second (parts self.old))) (as_arms (top (parts self.old)))) ∷ pop (pop (parts self.old))) }
    {
        let arms = self.take();
        let count = self.take();
        self.put(Node::Stmt(Stmt::Parallel { site, count, arms }))
    }

    /// A block (5.6). Joined of the lists of its declarations, statements and handlers in this order.
    pub fn block(&mut self) -> Result<(), AllocError>
        ensures { OnOk result (parts self.new ≡ AStmt (syntax.Block (as_decls (third (parts self.old))) (as_stmts (second (parts self.old))) (as_handlers (top (parts self.old)))) ∷ pop (pop (pop (parts self.old)))) }
    {
        let handlers = self.take();
        let stmts = self.take();
        let decls = self.take();
        self.put(Node::Stmt(Stmt::Block {
            decls,
            stmts,
            handlers,
        }))
    }

    /// `Put`, `Put_Line` or `New_Line` (A.10.6 to A.10.8), with the first and the last token of its name, and whether a
    /// line ends after it. Joined of the list of its pieces.
    pub fn put_pieces(&mut self, at: u32, callee: u32, line: bool) -> Result<(), AllocError>
        ensures { OnOk result (parts self.new ≡ AStmt (syntax.Put at callee (as_pieces (top (parts self.old))) line) ∷ pop (parts self.old)) }
    {
        let pieces = self.take();
        self.put(Node::Stmt(Stmt::Put {
            at,
            callee,
            pieces,
            line,
        }))
    }

    /// `Get` (A.10.8) of a variable of a subtype, with the first and the last token of its name and the first token of
    /// the variable. Joined of the list of the variable's selections.
    pub fn get(
        &mut self,
        at: u32,
        callee: u32,
        first: u32,
        root: Root,
        scalar: Scalar,
    ) -> Result<(), AllocError>
        ensures { OnOk result (parts self.new ≡ AStmt (syntax.Get at callee first root (as_selections (top (parts self.old))) scalar) ∷ pop (parts self.old)) }
    {
        let selections = self.take();
        self.put(Node::Stmt(Stmt::Get {
            at,
            callee,
            first,
            root,
            selections,
            scalar,
        }))
    }
}
