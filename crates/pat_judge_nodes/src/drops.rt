// One rule at a node of a derivation: what is not passed on may be dropped.

mod drops;

pub use drops::drops_well;
