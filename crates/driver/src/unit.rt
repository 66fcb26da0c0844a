//! What a text is compiled to.

use ada_base::Items;
use ada_meaning::Variable;
use run_reports::Final;
use stack_code::Code;
use typed_tree::Typed;

/// What a text is compiled to: its typed program; the variables of the main procedure's declarative part, in order, with
/// their names and with their places in its frame; the names of the exceptions that it declares, by their numbers; and
/// its code.
#[derive(Drop)]
pub struct Unit {
    pub typed: Typed,
    pub finals: Items<Final>,
    pub variables: Items<Variable>,
    pub exceptions: Items<Items<u8>>,
    pub code: Code,
}
