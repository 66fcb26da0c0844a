//! What typed programs are, of which laws speak: what is in scope where each part stands (8.2, 8.3), and the loops that
//! exits name (5.7). These are definitions alone.
#![tactic(auto)]
