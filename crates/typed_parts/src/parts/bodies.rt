//! Declarations (3.11), handlers (11.2) and bodies (6.3).

ghost use Rattle.std.specs.Prelude.{◌≡◌, ◌∷◌, OnOk};
ghost use Rattle.typed_tree.specs.Decoded.{ABody, ADecl, AHandler, as_decls, as_exprs, as_handlers, as_reasons, as_stmts, as_value};
ghost use Rattle.typed_tree.specs.Syntax as syntax;
ghost use Rattle.typed_tree.specs.Latest.{pop, second, third, top};
ghost use Rattle.typed_parts.specs.Stack.{parts};

use crate::parts::Parts;
use std::alloc::AllocError;
use typed_tree::{Body, Decl, Handler, Node};

impl Parts {
    /// The declaration of a variable without an initial value (3.3.1).
    pub fn declare_default(&mut self, object: u32) -> Result<(), AllocError>
        ensures { OnOk result (parts self.new ≡ ADecl (syntax.DeclareDefault object) ∷ parts self.old) }
    {
        self.put(Node::Decl(Decl::Default { object }))
    }

    /// The declaration of a variable, of its initial value (3.3.1).
    pub fn declare_variable(&mut self, object: u32) -> Result<(), AllocError>
        ensures { OnOk result (parts self.new ≡ ADecl (syntax.DeclareVariable object (as_value (top (parts self.old)))) ∷ pop (parts self.old)) }
    {
        let initial = self.take();
        self.put(Node::Decl(Decl::Variable { object, initial }))
    }

    /// The declaration of a constant, of its value (3.3.1).
    pub fn declare_constant(&mut self, object: u32) -> Result<(), AllocError>
        ensures { OnOk result (parts self.new ≡ ADecl (syntax.DeclareConstant object (as_value (top (parts self.old)))) ∷ pop (parts self.old)) }
    {
        let initial = self.take();
        self.put(Node::Decl(Decl::Constant { object, initial }))
    }

    /// What is left of other declarations, of the list of the expressions that they mention.
    pub fn mentions(&mut self) -> Result<(), AllocError>
        ensures { OnOk result (parts self.new ≡ ADecl (syntax.Mentions (as_exprs (top (parts self.old)))) ∷ pop (parts self.old)) }
    {
        let exprs = self.take();
        self.put(Node::Decl(Decl::Mentions { exprs }))
    }

    /// `when others => ..` of a body's handlers, of the list of its statements.
    pub fn handler_others(&mut self) -> Result<(), AllocError>
        ensures { OnOk result (parts self.new ≡ AHandler (syntax.Handler syntax.Others (as_stmts (top (parts self.old)))) ∷ pop (parts self.old)) }
    {
        let stmts = self.take();
        self.put(Node::Handler(Handler::Others { stmts }))
    }

    /// `when E | F => ..` of a body's handlers. Joined of the list of its reasons and then that of its statements.
    pub fn handler_reasons(&mut self) -> Result<(), AllocError>
        ensures { OnOk result (parts self.new ≡ AHandler (syntax.Handler (syntax.Reasons (as_reasons (second (parts self.old)))) (as_stmts (top (parts self.old)))) ∷ pop (pop (parts self.old))) }
    {
        let stmts = self.take();
        let reasons = self.take();
        self.put(Node::Handler(Handler::Reasons { reasons, stmts }))
    }

    /// The body of a subprogram or program. Joined of the lists of its declarations, statements and handlers in this
    /// order.
    pub fn body(&mut self) -> Result<(), AllocError>
        ensures { OnOk result (parts self.new ≡ ABody (record { decls = as_decls (third (parts self.old)); stmts = as_stmts (second (parts self.old)); handlers = as_handlers (top (parts self.old)) }) ∷ pop (pop (pop (parts self.old)))) }
    {
        let handlers = self.take();
        let stmts = self.take();
        let decls = self.take();
        self.put(Node::Body(Body {
            decls,
            stmts,
            handlers,
        }))
    }
}
