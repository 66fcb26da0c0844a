//! The text of a soak, and what is told of its run.

ghost use Rattle.std.specs.Prelude.{◌≡◌, ◌++◌, ◌*◌, IfOk, string_bytes};
ghost use Rattle.top_call.specs.Soak.{count_line, soak_lines, soak_text, statement, statements};

use ada_base::Items;
use std::alloc::{AllocError, Global};

const FRONT: &str = "with Ada.Text_IO; use Ada.Text_IO;\nprocedure Main is\n\
    A : array (1 .. 1000) of Integer := (others => 0);\nbegin\n";

const BACK: &str = "Put_Line (Integer'Image (A'Parallel_Reduce (\"+\", 0)));\nend Main;\n";

// The iterations of a statement.
const ITERATIONS: u64 = 1000;

fn statement(alloc: Global, number: u32) -> Result<String, AllocError>
    ensures { IfOk result (λ line. string_bytes line ≡ statement number) }
{
    format!(in alloc;
        "parallel for I in 1 .. 1000 loop A (I) := (A (I) * 3 + I + {number}) mod 1000; end loop;\n"
    )
}

/// The text of a soak of so many statements.
pub fn soak_text(alloc: Global, statements: u32) -> Result<String, AllocError>
    ensures { IfOk result (λ text. string_bytes text ≡ soak_text statements) }
{
    let mut text = String::from_str(alloc, FRONT)?;
    let mut number = 0;
    while number < statements {
        number += 1;
        let line = statement(alloc, number)?;
        text.push_str(line.as_str())?;
    }
    text.push_str(BACK)?;
    Ok(text)
}

fn count_line(alloc: Global, what: &str, count: u64) -> Result<String, AllocError>
    ensures { IfOk result (λ line. string_bytes line ≡ count_line what.now count) }
{
    format!(in alloc; "{what}: {count}\n")
}

fn push_count(
    alloc: Global,
    lines: &mut Items<u8>,
    what: &str,
    count: u64,
) -> Result<(), AllocError>
    ensures { IfOk result (λ u. lines.new ≡ lines.old ++ count_line what.now count) }
{
    let line = count_line(alloc, what, count)?;
    lines.extend(line.as_bytes())?;
    Ok(())
}

/// The lines on a run of so many statements in a text of so many bytes, which put this out.
pub fn soak_lines(
    alloc: Global,
    statements: u32,
    bytes: u64,
    output: &[u8],
) -> Result<Items<u8>, AllocError>
    ensures { IfOk result (λ lines. lines ≡ soak_lines statements bytes output.now) }
{
    let statements = u64::from(statements);
    let mut lines = Items::new(alloc);
    push_count(alloc, &mut lines, "statements", statements)?;
    push_count(alloc, &mut lines, "bytes", bytes)?;
    push_count(alloc, &mut lines, "iterations", ITERATIONS * statements)?;
    lines.extend(b"output:")?;
    lines.extend(output)?;
    Ok(lines)
}
