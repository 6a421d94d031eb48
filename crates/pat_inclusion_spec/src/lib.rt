//! Definitions of what shows an inclusion of patterns: closed forms, covers, grids; and of lower bounds, derivable words and least trees.
#![tactic(auto)]

mod bounds;
