//! The texts of a program (A.10.7), each once, so that the number of one is found at once.

ghost use Rattle.std.specs.Prelude.{◌≡◌, [], is_ok, IfOk, OnOk};
ghost use Rattle.lower_emission.specs.Texts.{gathered, noted, place};
ghost use Rattle.lower_values.specs.Texts.{Listed, found};
ghost use Rattle.lower_values.specs.Words.{is_narrow};
ghost use Rattle.typed_tree.specs.Decoded.{as_bytes, part_at};

use ada_base::Items;
use stack_code::Words;
use std::alloc::{AllocError, Global};
use std::collections::HashMap;
use std::marker::Model;
use typed_tree::{Leaf, Typed};

/// Texts in order, with their numbers by their bytes. Contracts see the list.
#[derive(Drop)]
pub struct Texts {
    list: Items<Words>,
    numbers: HashMap<Vec<u8>, u32>,
    alloc: Global,
}

impl Model for Texts {
    ghost use Rattle.std.specs.Prelude.{List, ℕ};
    ghost use Rattle.lower_values.specs.Texts.{Listed};

    ghost Value = { List (List ℕ) };

    ghost view = { λ t. t.list };

    ghost invariant = { λ t. Listed t.numbers t.list };
}

impl Texts {
    /// No texts. It takes no memory.
    pub fn new(alloc: Global) -> Texts
        ensures { result ≡ [] }
    {
        Texts {
            list: Items::new(alloc),
            numbers: HashMap::new(alloc),
            alloc,
        }
    }

    /// What memory is asked of.
    pub fn alloc(&self) -> Global {
        self.alloc
    }

    /// The number of a text among them, or their number where it isn't among them. An Err is a number beyond 32 bits.
    #[tactic(auto, using(crate::proofs::Found::place_some, crate::proofs::Found::place_none))]
    pub fn place(&self, text: &Vec<u8>) -> Result<u32, AllocError>
        ensures is { IfOk result (λ n. n ≡ place self.now text.now.items) }
        ensures fits { is_ok result ≡ is_narrow (place self.now text.now.items) }
    {
        match self.numbers.get(text) {
            Some(number) => Ok(*number),
            None => u32::try_from(self.list.len()).map_err(|_| AllocError),
        }
    }

    /// A text is put behind the others, unless it is among them. An Err is want of memory.
    pub fn note(&mut self, text: Vec<u8>) -> Result<(), AllocError>
        ensures { OnOk result (self.new ≡ noted self.old text.items) }
    {
        if self.numbers.contains_key(&text) {
            return Ok(());
        }
        let number = u32::try_from(self.list.len()).map_err(|_| AllocError)?;
        let words = words_of(&text, self.alloc)?;
        self.list.push(words)?;
        if self.numbers.insert(text, number).is_err() {
            self.list.truncate(number as usize);
            return Err(AllocError);
        }
        Ok(())
    }

    /// The list.
    pub fn into_list(self) -> Items<Words>
        ensures { result ≡ self }
    {
        let Texts { list, .. } = self;
        list
    }
}

fn words_of(text: &Vec<u8>, alloc: Global) -> Result<Words, AllocError>
    ensures { IfOk result (λ words. words ≡ text.now.items) }
{
    let mut words = Items::new(alloc);
    words.extend(text.as_slice())?;
    Ok(words)
}

/// The bytes of a text piece. An Err is want of memory.
pub fn bytes_of(typed: &Typed, id: u32, alloc: Global) -> Result<Vec<u8>, AllocError>
    ensures { IfOk result (λ bytes. bytes.items ≡ as_bytes (part_at typed.now.nodes id)) }
{
    let mut all = Vec::new(alloc);
    let mut at = id;
    while let Some(cell) = typed.nodes.leaf(at) {
        if let Leaf::Byte(byte) = cell.leaf {
            all.push(byte)?;
        }
        at = cell.rest;
    }
    Ok(all)
}
