//! What names and kinds a tree may have, which of these rules it breaks and where, and which program it is numbered to:
//! definitions. No code of the product.
#![tactic(auto)]
