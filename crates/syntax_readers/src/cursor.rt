//! A cursor over tokens, which are read by their kinds alone.

ghost use Rattle.std.specs.Prelude.{◌≡◌, ◌<◌, ◌^◌, length};
ghost use Rattle.syntax_readers.specs.Ahead.{kinds};
ghost use Rattle.syntax_readers.specs.Computes.{Computes};
ghost use Rattle.syntax_readers.specs.Readers as reader;
ghost use Rattle.syntax_readers.specs.Verdicts.{place_in};
ghost use Rattle.ada_base.specs.Symbols.{numbered, next_kind};

use crate::failure::Failure;
use ada_base::{Token, kind_number};
use std::marker::Model;

/// The tokens from a place on, as contracts see it: each with its number and its kind.
#[derive(Drop)]
pub struct Cursor<'a> {
    tokens: &'a [Token],
    at: usize,
}

impl<'a> Model for Cursor<'a> {
    ghost use Rattle.std.specs.Prelude.{List};
    ghost use Rattle.ada_base.specs.Symbols.{Symbol};
    ghost use Rattle.syntax_readers.specs.Ahead.{code, ahead, IsReady};

    ghost Value = { List Symbol };

    ghost coded = { code };

    ghost view = { ahead };

    ghost invariant = { IsReady };
}

impl<'a> Cursor<'a> {
    /// A cursor at the first of these tokens. The End is none of them: its kind is 0, which stands for the end.
    pub fn new(tokens: &'a [Token]) -> Cursor<'a>
        requires { length tokens.now < 2 ^ 32 }
        ensures { result ≡ numbered 0 (kinds tokens.now) }
    {
        Cursor { tokens, at: 0 }
    }

    /// The kind of the next token, and 0 at the end.
    pub fn peek(&self) -> u16
        ensures { result ≡ next_kind self.now }
    {
        if self.at < self.tokens.len() {
            kind_number(self.tokens[self.at].kind)
        } else {
            0
        }
    }

    /// How many tokens are left.
    pub fn left(&self) -> usize
        ensures { result ≡ length self.now }
    {
        self.tokens.len() - self.at
    }

    /// The number of the next token, and at the end how many tokens there are.
    pub fn place_in(&self, all: &[Token]) -> u32
        requires { length all.now < 2 ^ 32 }
        ensures { result ≡ place_in (kinds all.now) self.now }
    {
        if self.at < self.tokens.len() {
            self.at as u32
        } else {
            all.len() as u32
        }
    }

    /// Takes a token of this kind and gives its number, or is at fault before another one.
    pub fn take(&mut self, kind: u16) -> Result<u32, Failure>
        ensures { Computes (reader.symbol kind self.old) result self.new }
    {
        if self.at < self.tokens.len() && kind_number(self.tokens[self.at].kind) == kind {
            let number = self.at as u32;
            self.at += 1;
            Ok(number)
        } else {
            Err(Failure::Unexpected)
        }
    }
}
