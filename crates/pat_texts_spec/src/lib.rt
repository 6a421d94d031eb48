//! Numbers in decimal, and texts that are joined, cut, or begin with others: definitions, and lemmas on them. No code of the product.
#![tactic(auto)]
