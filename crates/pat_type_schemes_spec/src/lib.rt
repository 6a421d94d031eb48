//! Types with variables in their patterns, and the variables of signatures: definitions. No code of the product.
#![tactic(auto)]
