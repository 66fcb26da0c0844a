//! What is known of a text's tokens before the rules of names are judged: identifiers by numbers, numbers by their values, and
//! string literals by their bytes. These are definitions alone.
#![tactic(auto)]
