//! Words, and what they ask for.

ghost use Rattle.std.specs.Prelude.{◌≡◌, map};
ghost use Rattle.command_words.specs.Words.{asked};
ghost use Rattle.command_words.specs.Examples.{forms, numbers, plans};

/// Of words in each form, with each value at its bounds and beyond, what they ask for is what was found by hand, or
/// nothing.
pub fn known_words()
    ensures forms { map (λ row. asked row.words) forms ≡ map (λ row. row.asks) forms }
    ensures numbers { map (λ row. asked row.words) numbers ≡ map (λ row. row.asks) numbers }
    ensures plans { map (λ row. asked row.words) plans ≡ map (λ row. row.asks) plans }
{}
