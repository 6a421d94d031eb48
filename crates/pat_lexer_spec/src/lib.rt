//! How a text divides into tokens, blanks and comments: definitions. No code of the product.
#![tactic(auto)]
