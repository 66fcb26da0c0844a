//! Numbers of parallel constructs in a typed program, how often each stands there and in which order: definitions alone, of
//! which the laws of names and of code speak.
#![tactic(auto)]
