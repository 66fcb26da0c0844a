//! The objects that a typed program declares, by their numbers: definitions alone, of which the laws of names and of code
//! speak.
#![tactic(auto)]
