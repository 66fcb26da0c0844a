//! Identifiers by their characters after case folding (2.3), so that one that stood before is found at once.

ghost use Rattle.std.specs.Prelude.{◌≡◌, ◌<◌, ◌++◌, ◌∷◌, [], List, ℕ, IfNone, IfOk, IfSome, OnOk, OnSome, length};
ghost use Rattle.std.specs.Str.{IsUtf8};
ghost use Rattle.std.specs.Str.Iter.{chars_rest};
ghost use Rattle.ada_base.specs.Folding.{folded};
ghost use Rattle.name_symbols.specs.Naming.{place};
ghost use Rattle.name_numbering.specs.Words.{Listed};

use std::alloc::{AllocError, Global};
use std::collections::HashMap;
use std::str::Chars;
use unicode::case::simple_fold;

fn next_folded(text: &mut Chars) -> Option<char>
    requires { IsUtf8 (chars_rest text.old) }
    ensures utf8 { IsUtf8 (chars_rest text.new) }
    ensures first { IfSome result (λ c. folded (chars_rest text.old) ≡ c ∷ folded (chars_rest text.new)) }
    ensures shorter { OnSome result (length (chars_rest text.new) < length (chars_rest text.old)) }
    ensures ended { IfNone result (folded (chars_rest text.old) ≡ []) }
{
    let c = text.next()?;
    Some(simple_fold(c))
}

/// The characters of a word after simple case folding of each.
#[tactic(auto, using(crate::proofs::Lists::append_one, crate::proofs::Lists::append_none))]
pub fn folded_word(word: &str, alloc: Global) -> Result<Vec<char>, AllocError>
    ensures { IfOk result (λ all. all.items ≡ folded word.now) }
{
    let mut all = Vec::new(alloc);
    let mut left = word.chars();
    'chars: while let Some(c) = next_folded(&mut left) {
        all.push(c)?;
    }
    Ok(all)
}

/// The number of a word that stood before.
pub fn number_of(seen: &HashMap<Vec<char>, u32>, word: &Vec<char>) -> Option<u32>
    ensures { (all : List (List ℕ)) → Listed seen.now all → result ≡ place word.now.items all 0 }
{
    seen.get(word).copied()
}

/// One more word, with the number behind those of the others, unless it stood before.
pub fn noted(
    seen: &mut HashMap<Vec<char>, u32>,
    word: Vec<char>,
    number: u32,
) -> Result<(), AllocError>
    ensures { OnOk result ((all : List (List ℕ)) → Listed seen.old all → number ≡ length all → Listed seen.new (all ++ word.items ∷ [])) }
{
    if seen.contains_key(&word) {
        return Ok(());
    }
    seen.insert(word, number)?;
    Ok(())
}
