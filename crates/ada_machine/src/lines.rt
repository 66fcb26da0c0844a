// The line that is being built, and what asks the caller.
ghost use Rattle.std.specs.Prelude.{◌≡◌, ◌+◌, ◌++◌, ◌-◌, ◌^◌, ◌<◌, ◌≤◌, ◌∷◌, [], ℕ, ℤ, List, length, reverse, vec_len, vec_capacity, Option, Some, None, pos, cond, IfOk, OnOk, OnErr};
ghost use Rattle.ada_base.specs.Operation.{turned};
ghost use Rattle.ada_base.specs.Image.{image, truth_image, padded};
ghost use Rattle.ada_base.specs.Cells.{Cell};
ghost use Rattle.stack_code.specs.Deeds.{can_fork, forked, many, truth};
ghost use Rattle.stack_code.specs.Machine.{on};
ghost use Rattle.ada_machine.specs.States.{state_of, Forking};

use crate::machine::Machine;
use crate::operands::{put, take};
use ada_base::{Items, digits};
use ada_io::{append_digits, append_image, append_padded, truth_image};
use stack_code::Asked;
use std::alloc::AllocError;
use std::mem;

// The iterations and the threads of a construct, at most.
const MOST_ITERATIONS: u128 = 4_611_686_018_427_387_904;

const MOST_THREADS: u128 = 4096;

// Adds a text to the line; an Err leaves all as it was.
pub(crate) fn add_words(m: &mut Machine, text: &[u8]) -> Result<(), AllocError>
    requires next { m.old.pc < usize.MAX }
    ensures ok { OnOk result ((cells : List Cell) → state_of m.new cells ≡ on (reverse m.old.stack.items) (record (state_of m.old cells) { line = m.old.line ++ text.now })) }
    ensures err { OnErr result ((cells : List Cell) → state_of m.new cells ≡ state_of m.old cells) }
    ensures room { vec_capacity m.new.stack ≡ vec_capacity m.old.stack }
    ensures looks { m.new.looks ≡ m.old.looks }
{
    m.line.extend(text)?;
    m.pc += 1;
    Ok(())
}

pub(crate) fn add_image(m: &mut Machine) -> Result<(), AllocError>
    requires one { 1 ≤ vec_len m.old.stack }
    requires room { vec_len m.old.stack ≤ vec_capacity m.old.stack }
    requires next { m.old.pc < usize.MAX }
    ensures ok { OnOk result ((cells : List Cell) (v : ℤ) (st : List ℤ) → reverse m.old.stack.items ≡ v ∷ st → state_of m.new cells ≡ on st (record (state_of m.old cells) { line = m.old.line ++ image v })) }
    ensures err { OnErr result ((cells : List Cell) → state_of m.new cells ≡ state_of m.old cells) }
    ensures room { vec_capacity m.new.stack ≡ vec_capacity m.old.stack }
    ensures looks { m.new.looks ≡ m.old.looks }
{
    let value = take(&mut m.stack);
    match append_image(&mut m.line, value) {
        Ok(()) => {
            m.pc += 1;
            Ok(())
        }
        Err(e) => {
            put(&mut m.stack, value);
            Err(e)
        }
    }
}

// The same of a number of a modular type.
pub(crate) fn add_number_image(m: &mut Machine) -> Result<(), AllocError>
    requires one { 1 ≤ vec_len m.old.stack }
    requires room { vec_len m.old.stack ≤ vec_capacity m.old.stack }
    requires next { m.old.pc < usize.MAX }
    ensures ok { OnOk result ((cells : List Cell) (v : ℤ) (st : List ℤ) → reverse m.old.stack.items ≡ v ∷ st → state_of m.new cells ≡ on st (record (state_of m.old cells) { line = m.old.line ++ image (turned v) })) }
    ensures err { OnErr result ((cells : List Cell) → state_of m.new cells ≡ state_of m.old cells) }
    ensures room { vec_capacity m.new.stack ≡ vec_capacity m.old.stack }
    ensures looks { m.new.looks ≡ m.old.looks }
{
    let value = take(&mut m.stack);
    match append_number(&mut m.line, value) {
        Ok(()) => {
            m.pc += 1;
            Ok(())
        }
        Err(e) => {
            put(&mut m.stack, value);
            Err(e)
        }
    }
}

#[tactic(auto, using(ada_base::proofs::Turning::number_of))]
fn append_number(line: &mut Items<u8>, value: i64) -> Result<(), AllocError>
    ensures ok { OnOk result (line.new ≡ line.old ++ image (turned value)) }
    ensures err { OnErr result (line.new ≡ line.old) }
{
    append_digits(line, digits(value))
}

pub(crate) fn add_padded(m: &mut Machine, width: u32) -> Result<(), AllocError>
    requires one { 1 ≤ vec_len m.old.stack }
    requires room { vec_len m.old.stack ≤ vec_capacity m.old.stack }
    requires next { m.old.pc < usize.MAX }
    ensures ok { OnOk result ((cells : List Cell) (v : ℤ) (st : List ℤ) → reverse m.old.stack.items ≡ v ∷ st → state_of m.new cells ≡ on st (record (state_of m.old cells) { line = m.old.line ++ padded v width })) }
    ensures err { OnErr result ((cells : List Cell) → state_of m.new cells ≡ state_of m.old cells) }
    ensures room { vec_capacity m.new.stack ≡ vec_capacity m.old.stack }
    ensures looks { m.new.looks ≡ m.old.looks }
{
    let value = take(&mut m.stack);
    match append_padded(&mut m.line, value, width) {
        Ok(()) => {
            m.pc += 1;
            Ok(())
        }
        Err(e) => {
            put(&mut m.stack, value);
            Err(e)
        }
    }
}

fn truth_text(value: i64) -> &'static [u8]
    ensures { result.now ≡ truth_image (truth value) }
{
    truth_image(value != 0)
}

pub(crate) fn add_truth(m: &mut Machine) -> Result<(), AllocError>
    requires one { 1 ≤ vec_len m.old.stack }
    requires room { vec_len m.old.stack ≤ vec_capacity m.old.stack }
    requires next { m.old.pc < usize.MAX }
    ensures ok { OnOk result ((cells : List Cell) (v : ℤ) (st : List ℤ) → reverse m.old.stack.items ≡ v ∷ st → state_of m.new cells ≡ on st (record (state_of m.old cells) { line = m.old.line ++ truth_image (truth v) })) }
    ensures err { OnErr result ((cells : List Cell) → state_of m.new cells ≡ state_of m.old cells) }
    ensures room { vec_capacity m.new.stack ≡ vec_capacity m.old.stack }
    ensures looks { m.new.looks ≡ m.old.looks }
{
    let value = take(&mut m.stack);
    match m.line.extend(truth_text(value)) {
        Ok(()) => {
            m.pc += 1;
            Ok(())
        }
        Err(e) => {
            put(&mut m.stack, value);
            Err(e)
        }
    }
}

// Gives the line up, with a line feed or without; an Err leaves all as it was.
pub(crate) fn give_line(m: &mut Machine, feed: bool) -> Result<Items<u8>, AllocError>
    ensures ok { IfOk result (λ text. text ≡ m.old.line ++ cond feed (10 ∷ []) []) }
    ensures rest { OnOk result ((cells : List Cell) → state_of m.new cells ≡ record (state_of m.old cells) { line = [] }) }
    ensures err { OnErr result ((cells : List Cell) → state_of m.new cells ≡ state_of m.old cells) }
    ensures room { vec_capacity m.new.stack ≡ vec_capacity m.old.stack }
    ensures looks { m.new.looks ≡ m.old.looks }
{
    if feed {
        m.line.push(10)?;
    }
    let alloc = *m.stack.allocator();
    Ok(mem::replace(&mut m.line, Items::new(alloc)))
}

// How many numbers there are from a first to a last.
fn many(first: i64, last: i64) -> u128
    ensures { result ≡ many first last }
{
    if last < first {
        return 0;
    }
    u128::from(last.abs_diff(first)) + 1
}

fn can_fork(count: u128, most: u128) -> bool
    ensures { result ≡ can_fork count most }
{
    count <= MOST_ITERATIONS && (1 <= most && most <= MOST_THREADS)
}

// What a fork asks for; None where it may not begin. Its operands are taken off.
pub(crate) fn ask(stack: &mut Vec<i64>, site: u32) -> Option<Asked>
    requires five { 5 ≤ vec_len stack.old }
    ensures deed { Forking (forked site (reverse stack.old.items)) result (reverse stack.new.items) }
    ensures len { vec_len stack.new + 5 ≡ vec_len stack.old }
    ensures room { vec_capacity stack.new ≡ vec_capacity stack.old }
{
    let initial = take(stack);
    let last_chunk = take(stack);
    let chunk = take(stack);
    let last = take(stack);
    let first = take(stack);
    let count = many(first, last);
    let most = many(chunk, last_chunk);
    if can_fork(count, most) {
        Some(Asked {
            site,
            count: count as u64,
            first,
            most: most as u32,
            chunk,
            initial,
        })
    } else {
        None
    }
}
