//! The leases of the parallel constructs of a program: which cells their threads may write, for the tables of its code.
#![tactic(auto)]

ghost use Rattle.lower_leases.specs.Law.{TableLaw};

pub mod exprs;
pub mod finding;
pub mod homes;
pub mod leases;
pub mod paths;
pub mod shapes;
pub mod standings;
pub mod stmts;
pub mod texts;
pub mod variables;

pub use leases::leases_of;
pub use variables::variables_of;

/// The code of a program with the table of all leases is its code with the leases of each construct.
#[tactic(auto, using(crate::proofs::Table::table_law))]
pub fn laws()
    ensures table { TableLaw }
{}
