//! The printer of programs.

ghost use Rattle.std.specs.Prelude.{◌≡◌, ◌≤◌, length, string_bytes, IfOk};
ghost use Rattle.syntax_tree.specs.Faults.{byte_limit};
ghost use Rattle.syntax_print.specs.Canonical.{canonical};
ghost use Rattle.syntax_nodes.specs.Trees.{program_of};
ghost use Rattle.syntax_parse.specs.Printed.{IsPrintable, IsReadAgain};

use ada_base::Tokens;
use std::alloc::{AllocError, Global};
use syntax_nodes::Tree;
use syntax_print::canonical_text;

/// The canonical text of a program, which is given by its tokens and its tree. The error is for want of memory.
/// Where the text is within the limit of bytes, its tokens have the same tree.
pub fn print(alloc: Global, tokens: &Tokens, tree: &Tree) -> Result<String, AllocError>
    requires { IsPrintable tokens.now (program_of tree.now) }
    ensures text { IfOk result (λ text. string_bytes text ≡ canonical tokens.now) }
    ensures again { length (canonical tokens.now) ≤ byte_limit → IsReadAgain tokens.now (program_of tree.now) }
{
    canonical_text(alloc, tokens)
}
