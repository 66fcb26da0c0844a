//! The readers of the grammar: for each rule a function on the kinds of tokens, which says what is read from a
//! list, where reading stops, and why. What the parser gives is stated by them.
#![tactic(auto)]
