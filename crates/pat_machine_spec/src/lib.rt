//! Open steps, jobs, commits, and what a machine keeps: definitions. No code of the product.
#![tactic(auto)]
