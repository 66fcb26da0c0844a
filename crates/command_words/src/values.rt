//! The values of options.

ghost use Rattle.std.specs.Prelude.{◌≡◌, ◌<◌, ◌≤◌, [], Some, None, All, option_map};
ghost use Rattle.command_words.specs.Values.{most_iterations, most_sizes, number as number_in, parts_at, plan as plan_in, plan_of_form as form_in, size as size_in, sizes as sizes_in, with_size, within, written};
ghost use Rattle.ada_base.specs.Cuts.{Listed};
ghost use Rattle.command_words.specs.Answers.{GivesPlan, GivesSizes, GivesWithin};

use crate::request::WordsFault;
use ada_base::Items;
use run_plan::Plan;
use std::alloc::Global;

// The most digits that a number has.
const MOST_DIGITS: usize = 13;

// The most iterations that a chunk is given, chunks of an even plan, and sizes in a list.
const MOST_ITERATIONS: u32 = 4_294_967_295;

const MOST_CHUNKS: u32 = 4096;

const MOST_SIZES: u32 = 64;

fn written(text: &str) -> Option<u64>
    ensures { result ≡ written text.now }
{
    if text.len() > MOST_DIGITS {
        return None;
    }
    if text.starts_with('+') {
        return None;
    }
    match text.parse::<u64>() {
        Ok(number) => Some(number),
        Err(_) => None,
    }
}

fn within(low: u64, high: u64, number: u64) -> Result<u64, WordsFault>
    ensures { GivesWithin low high (within low high number) result }
{
    if low <= number && number <= high {
        Ok(number)
    } else {
        Err(WordsFault::Usage)
    }
}

/// The number that a text of 1 to 13 decimal digits writes, from one bound to another.
pub fn number(text: &str, low: u64, high: u64) -> Result<u64, WordsFault>
    ensures { GivesWithin low high (number_in low high text.now) result }
{
    match written(text) {
        Some(number) => within(low, high, number),
        None => Err(WordsFault::Usage),
    }
}

fn narrow_number(text: &str, high: u32) -> Result<u32, WordsFault>
    ensures { GivesWithin 1 high (number_in 1 high text.now) result }
{
    let number = number(text, 1, u64::from(high))?;
    Ok(number as u32)
}

fn size(text: &str) -> Result<u32, WordsFault>
    ensures { GivesWithin 1 most_iterations (size_in text.now) result }
{
    narrow_number(text, MOST_ITERATIONS)
}

// What stands before the first comma or colon, and what stands behind it.
fn parts(text: &str, mark: char) -> Option<(&str, &str)>
    requires { mark < 128 }
    ensures { option_map (λ parts. (parts.0.now, parts.1.now)) result ≡ parts_at mark text.now }
{
    text.split_once(mark)
}

fn push_size(sizes: &mut Items<u32>, text: &str) -> Result<(), WordsFault>
    requires { All (λ size. 0 < size) sizes.old }
    ensures { GivesSizes (with_size sizes.old text.now) result sizes.new }
{
    let size = size(text)?;
    sizes.push(size)?;
    Ok(())
}

// Puts the sizes in a text, no more than so many, behind those that came before.
fn push_sizes(most: u32, sizes: &mut Items<u32>, text: &str) -> Result<(), WordsFault>
    requires { All (λ size. 0 < size) sizes.old }
    ensures { GivesSizes (sizes_in most sizes.old text.now) result sizes.new }
{
    if most == 0 {
        return Err(WordsFault::Usage);
    }
    let Some((first, rest)) = parts(text, ',') else {
        return push_size(sizes, text);
    };
    push_size(sizes, first)?;
    push_sizes(most - 1, sizes, rest)
}

fn listed(alloc: Global, text: &str) -> Result<Plan, WordsFault>
    ensures { GivesPlan (option_map Listed (sizes_in most_sizes [] text.now)) result }
{
    let mut sizes = Items::new(alloc);
    push_sizes(MOST_SIZES, &mut sizes, text)?;
    Ok(Plan::Listed(sizes))
}

fn plan_of_form(alloc: Global, form: &str, rest: &str) -> Result<Plan, WordsFault>
    ensures { GivesPlan (form_in form.now rest.now) result }
{
    match form {
        "even" => {
            let chunks = narrow_number(rest, MOST_CHUNKS)?;
            Ok(Plan::Even(chunks))
        }
        "sized" => {
            let size = size(rest)?;
            Ok(Plan::Sized(size))
        }
        "list" => listed(alloc, rest),
        _ => Err(WordsFault::Usage),
    }
}

/// The plan that a text writes.
pub fn plan(alloc: Global, text: &str) -> Result<Plan, WordsFault>
    ensures { GivesPlan (plan_in text.now) result }
{
    if text == "one" {
        return Ok(Plan::One);
    }
    match parts(text, ':') {
        Some((form, rest)) => plan_of_form(alloc, form, rest),
        None => Err(WordsFault::Usage),
    }
}
