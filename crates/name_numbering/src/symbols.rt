//! Identifiers by numbers: two have one number if they are spelled alike but for the case of letters (2.3).

ghost use Rattle.std.specs.Prelude.{◌≡◌, ◌+◌, IfOk, OnOk};
ghost use Rattle.ada_base.specs.declared.token.Kind.TheVariants as kind;
ghost use Rattle.name_symbols.specs.Naming as spec;
ghost use Rattle.name_numbering.specs.Spelled.{AllListed, spelling, symbols};
ghost use Rattle.name_numbering.specs.Words.{Listed};

use crate::known::known_text;
use crate::words::{folded_word, noted, number_of};
use ada_base::{Items, Kind, Tokens};
use std::alloc::{AllocError, Global};
use std::collections::HashMap;

/// The numbers of the tokens so far, and the tokens at which each identifier stands first that isn't the language's.
#[derive(Drop)]
pub struct Numbered {
    pub numbers: Items<u32>,
    pub firsts: Items<u32>,
}

/// The identifiers of the language, with their numbers.
#[tactic(auto, using(crate::proofs::Places::language_taken, crate::proofs::Places::language_count, crate::proofs::Places::language_all, crate::proofs::Seen::listed_none))]
fn known_words(alloc: Global) -> Result<HashMap<Vec<char>, u32>, AllocError>
    ensures { IfOk result (λ seen. Listed seen spec.language) }
{
    let mut seen = HashMap::new(alloc);
    let mut i = 0;
    'known: while i < 34 {
        let word = folded_word(known_text(i), alloc)?;
        noted(&mut seen, word, i)?;
        i += 1;
    }
    Ok(seen)
}

/// A number behind those of the language; 2^32 are beyond memory.
fn behind_known(place: usize) -> Result<u32, AllocError>
    ensures { IfOk result (λ n. n ≡ 34 + place) }
{
    if place > 4_294_967_000 {
        return Err(AllocError);
    }
    Ok(34 + place as u32)
}

/// The number of one more identifier.
fn identifier(
    tokens: &Tokens,
    alloc: Global,
    seen: &mut HashMap<Vec<char>, u32>,
    so_far: &mut Numbered,
    token: u32,
) -> Result<(), AllocError>
    ensures { OnOk result (AllListed tokens.now seen.old so_far.old → (symbols tokens.now so_far.new ≡ spec.symbol_of_kind (spelling tokens.now token) (symbols tokens.now so_far.old) kind.Ident) × AllListed tokens.now seen.new so_far.new) }
{
    let word = folded_word(tokens.slice(token), alloc)?;
    match number_of(seen, &word) {
        Some(number) => {
            so_far.numbers.push(number)?;
            Ok(())
        }
        None => {
            let number = behind_known(so_far.firsts.len())?;
            so_far.numbers.push(number)?;
            so_far.firsts.push(token)?;
            noted(seen, word, number)?;
            Ok(())
        }
    }
}

/// The number of one more token, which is 0 where it is no identifier.
fn next_symbol(
    tokens: &Tokens,
    alloc: Global,
    seen: &mut HashMap<Vec<char>, u32>,
    so_far: &mut Numbered,
    token: u32,
) -> Result<(), AllocError>
    ensures { OnOk result (AllListed tokens.now seen.old so_far.old → (symbols tokens.now so_far.new ≡ spec.next_symbol tokens.now (symbols tokens.now so_far.old) token) × AllListed tokens.now seen.new so_far.new) }
{
    match tokens.kind(token) {
        Kind::Ident => identifier(tokens, alloc, seen, so_far, token),
        _ => {
            so_far.numbers.push(0)?;
            Ok(())
        }
    }
}

/// The numbers of all tokens.
#[tactic(auto, using(crate::proofs::Places::symbols_step, crate::proofs::Places::symbols_end))]
pub fn symbols_of(tokens: &Tokens, alloc: Global) -> Result<Items<u32>, AllocError>
    ensures { IfOk result (λ all. all ≡ (spec.symbols_from tokens.now spec.no_symbols 0 tokens.now.items).numbers) }
{
    let count = tokens.items().len();
    let mut so_far = Numbered {
        numbers: Items::new(alloc),
        firsts: Items::new(alloc),
    };
    let mut seen = known_words(alloc)?;
    let mut token = 0;
    'text: while (token as usize) < count {
        next_symbol(tokens, alloc, &mut seen, &mut so_far, token)?;
        if token == u32::MAX {
            return Err(AllocError);
        }
        token += 1;
    }
    let Numbered { numbers, .. } = so_far;
    Ok(numbers)
}
