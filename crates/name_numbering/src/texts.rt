//! The bytes of string literals (2.6).

ghost use Rattle.std.specs.Prelude.{◌≡◌, [], IfOk, false, map};
ghost use Rattle.ada_base.specs.Tokens.{kind_at, slice_at};
ghost use Rattle.name_symbols.specs.Naming as spec;

use ada_base::{Items, Kind, Token, Tokens};
use std::alloc::{AllocError, Global};

/// The bytes of a literal, of those between its quotation marks.
#[tactic(auto, using(crate::proofs::Lists::append_one))]
fn unquoted(bytes: &[u8], alloc: Global) -> Result<Items<u8>, AllocError>
    ensures { IfOk result (λ all. all ≡ spec.unquoted false bytes.now) }
{
    let mut all = Items::new(alloc);
    let mut left = bytes;
    let mut passed = false;
    'marks: while let [c, rest @ ..] = left {
        if passed {
            passed = false;
        } else {
            all.push(*c)?;
            passed = *c == 34;
        }
        left = rest;
    }
    Ok(all)
}

/// The bytes between a literal's quotation marks.
fn quoted(bytes: &[u8]) -> &[u8]
    ensures { result.now ≡ spec.quoted bytes.now }
{
    let n = bytes.len();
    if n < 2 { &[] } else { &bytes[1..n - 1] }
}

/// The bytes of the string literal that is a token, or none where it is another token.
fn text_of(tokens: &Tokens, token: u32, alloc: Global) -> Result<Items<u8>, AllocError>
    ensures { IfOk result (λ all. all ≡ spec.text_of (kind_at tokens.now.items token) (slice_at tokens.now token)) }
{
    match tokens.kind(token) {
        Kind::Text => unquoted(quoted(tokens.slice(token).as_bytes()), alloc),
        _ => Ok(Items::new(alloc)),
    }
}

/// The bytes of all string literals, by token.
#[tactic(auto, using(crate::proofs::Places::texts_step, crate::proofs::Places::texts_end))]
pub fn texts_of(tokens: &Tokens, alloc: Global) -> Result<Items<Items<u8>>, AllocError>
    ensures { IfOk result (λ all. all ≡ spec.texts_from tokens.now [] 0 tokens.now.items) }
{
    let count = tokens.items().len();
    let mut all = Items::new(alloc);
    let mut token = 0;
    'text: while (token as usize) < count {
        all.push(text_of(tokens, token, alloc)?)?;
        if token == u32::MAX {
            return Err(AllocError);
        }
        token += 1;
    }
    Ok(all)
}

fn value_of(kind: Kind) -> i128
    ensures { result ≡ spec.value_of kind }
{
    match kind {
        Kind::Number(value) => value,
        _ => 0,
    }
}

fn collected(items: &[Token], alloc: Global) -> Result<Vec<i128>, AllocError>
    ensures { IfOk result (λ all. all.items ≡ map spec.token_value items.now) }
{
    items
        .iter()
        .map(|token| value_of(token.kind))
        .collect(alloc)
}

/// The values of all numbers (2.4), by token.
pub fn values_of(tokens: &Tokens, alloc: Global) -> Result<Items<i128>, AllocError>
    ensures { IfOk result (λ all. all ≡ map spec.token_value tokens.now.items) }
{
    Ok(Items::from_vec(collected(tokens.items(), alloc)?))
}
