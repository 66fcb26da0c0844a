//! Tests of the lower crates, as tables. They stand apart, since a crate with tests is proved twice.
#![tactic(auto)]

#[cfg(test)]
mod beginnings;
#[cfg(test)]
mod canonical;
#[cfg(test)]
mod devices;
#[cfg(test)]
mod folding;
#[cfg(test)]
mod integers;
#[cfg(test)]
mod lexing;
#[cfg(test)]
mod lists;
#[cfg(test)]
mod operations;
#[cfg(test)]
mod plans;
#[cfg(test)]
mod readers;
#[cfg(test)]
mod tokens;
