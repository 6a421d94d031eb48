//! Trees, the grammar that says which tokens spell which tree, a machine that reads a token at a time, and what a parser
//! claims: definitions. No code of the product.
#![tactic(auto)]
