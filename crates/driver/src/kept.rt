//! What the machine's cells leave of the main procedure's variables.

ghost use Rattle.std.specs.Prelude.{◌≡◌, ◌+◌, IfOk, IfSome, None, pos, replicate};
ghost use Rattle.cell_memory.specs.Sight.{OwnThere};
ghost use Rattle.driver.specs.Kept.{AreWithin, IsRoom, read_over};

use ada_base::Items;
use ada_meaning::Variable;
use cell_memory::View;
use run_reports::Finals;
use std::alloc::{AllocError, Global};

/// The cell behind a variable's last one.
fn behind(variable: &Variable) -> Option<u64>
    ensures { IfSome result (λ end. end ≡ variable.now.address + variable.now.cells) }
{
    variable.address.checked_add(variable.cells)
}

/// A number of cells behind which none of the variables has one. None is one that 64 bits don't hold.
fn extent(variables: &[Variable]) -> Option<u64>
    ensures { IfSome result (λ size. AreWithin size variables.now) }
{
    let mut size: u64 = 0;
    for variable in variables {
        size = size.max(behind(variable)?);
    }
    Some(size)
}

fn zeros(alloc: Global, size: u64) -> Result<Items<i64>, AllocError>
    ensures { IfOk result (λ zeros. zeros ≡ replicate size (pos 0)) }
{
    let zeros = vec![in alloc; 0; size as usize]?;
    Ok(Items::from_vec(zeros))
}

/// Room for the cells of variables. An Err is want of memory.
pub fn room(alloc: Global, variables: &[Variable]) -> Result<Finals, AllocError>
    ensures { IfOk result (IsRoom variables.now) }
{
    let Some(size) = extent(variables) else {
        return Err(AllocError);
    };
    let kept = zeros(alloc, size)?;
    let mut declared = Items::new(alloc);
    declared.extend(variables)?;
    Ok(Finals { kept, declared })
}

/// Reads the first cells of a main view, as many as there is room for. It takes no memory.
pub fn read(view: &View<'_>, kept: &mut Items<i64>)
    requires main { view.now.held ≡ None }
    requires there { OwnThere view.now }
    ensures { kept.new ≡ read_over kept.old view.now.cells }
{
    let count = (kept.len() as u64).min(view.len());
    for at in 0..count {
        kept.set(at as usize, view.get(at));
    }
}
