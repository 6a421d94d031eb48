//! The canonical text of a tree, as pieces and as bytes: definitions. No code of the product.
#![tactic(auto)]
