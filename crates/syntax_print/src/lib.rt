//! The canonical text of a list of tokens, and that it has the same tokens again.
#![tactic(auto)]

ghost use Rattle.std.specs.Prelude.{◌≡◌, ◌≤◌, ◌++◌, length, string_bytes, All, IfOk, OnOk};
ghost use Rattle.ada_base.specs.Tokens.{Tokenized};
ghost use Rattle.syntax_tree.specs.Faults.{byte_limit, IsReadable, KeepLimits};
ghost use Rattle.ada_base.specs.TokenKinds.{kinds_of};
ghost use Rattle.syntax_tree.specs.Tokens.{AreTokensOf};
ghost use Rattle.syntax_print.specs.Canonical.{canonical, written, IsListed, IsTokenizedAgain};
ghost use Rattle.syntax_print.specs.Spoken.{AreSpoken};

use ada_base::{Kind, Tokens};
use std::alloc::{AllocError, Global};
use syntax_tree::{mark_text, word_text};

fn append(text: &mut String, kind: Kind, spelled: &str) -> Result<(), AllocError>
    requires { IsListed kind }
    ensures { OnOk result (string_bytes text.new ≡ string_bytes text.old ++ written kind spelled.now) }
{
    match kind {
        Kind::Word(number) => text.push_str(word_text(number)),
        Kind::Number(value) => write!(text, "{value}"),
        Kind::Mark(number) => text.push_str(mark_text(number)),
        Kind::Ident | Kind::Text | Kind::Letter | Kind::Real | Kind::End => text.push_str(spelled),
    }
}

fn joined(alloc: Global, tokens: &Tokens) -> Result<String, AllocError>
    requires { All (λ token. IsListed token.kind) tokens.now.items }
    ensures { IfOk result (λ text. string_bytes text ≡ canonical tokens.now) }
{
    let mut text = String::new(alloc);
    let end = tokens.items().len() - 1;
    for number in 0..end {
        if number > 0 {
            text.push(' ')?;
        }
        let kind = tokens.items()[number].kind;
        append(&mut text, kind, tokens.slice(number as u32))?;
    }
    text.push('\n')?;
    Ok(text)
}

/// The canonical text of a text's tokens: reserved words in lower case, numbers in plain decimal, marks as they are,
/// and identifiers and literals as they are spelled (2.2), with one space between two tokens and one line feed
/// after the last. The error is for want of memory.
pub fn canonical_text(alloc: Global, tokens: &Tokens) -> Result<String, AllocError>
    requires { AreTokensOf tokens.now.text tokens.now.items }
    ensures { IfOk result (λ text. string_bytes text ≡ canonical tokens.now) }
{
    joined(alloc, tokens)
}

/// The canonical text of a program's tokens has tokens of the same kinds in the same order, and is its own canonical
/// text. It is UTF-8, and keeps the limits of a text unless it has too many bytes.
pub fn same_tokens()
    ensures { (t : Tokenized) → IsReadable t.text → AreTokensOf t.text t.items → KeepLimits t.items
        → AreSpoken (kinds_of t.items) → length (canonical t) ≤ byte_limit
        → IsTokenizedAgain t }
{}
