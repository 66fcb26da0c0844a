//! A small machine whose threads workers run, and what its runs, parts of strips and boards come to: a line for each.
#![tactic(auto)]

mod boards;
mod programs;
mod strips;
mod tests;
mod walker;

use std::alloc::AllocError;
use std::io;

// What a case came to.
fn told<E: Drop>(came: Result<bool, E>) -> &'static str {
    match came {
        Ok(true) => "true",
        Ok(false) => "false",
        Err(_) => "no memory",
    }
}

fn main(rt: HostRuntime) -> io::Result<()> {
    let alloc = rt.alloc();
    let lines = [
        ("cells one and four", told(strips::strided(alloc))),
        ("empty region", told(strips::empty_region(alloc))),
        ("columns", told(strips::columns(alloc))),
        ("two blocks", told(strips::two_blocks(alloc))),
        ("overlapping rows", told(strips::overlapping_rows(alloc))),
        (
            "cells of a region",
            told::<AllocError>(Ok(strips::cells_of_a_region())),
        ),
        ("two seats", told(boards::two_workers(alloc))),
        ("halt", told(boards::halt_asks(alloc))),
        ("one worker", told(tests::all_write(&rt, alloc, 1))),
        ("four workers", told(tests::all_write(&rt, alloc, 4))),
        ("64 workers", told(tests::all_write(&rt, alloc, 64))),
        ("left in order", told(tests::leaving_in_order(&rt, alloc))),
        ("left on four", told(tests::leaving_on_four(&rt, alloc))),
    ];
    for (name, came) in lines.iter() {
        println!(rt; "{name}: {came}")?;
    }
    Ok(())
}
