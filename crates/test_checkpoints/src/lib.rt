//! Calls of `checkpoint`, `resume` and `replay` over memory: where runs and histories lead, and checkpoints that are refused. Tests only.
#![tactic(auto)]

#[cfg(test)]
mod calls;
#[cfg(test)]
mod checking;
#[cfg(test)]
mod checkpoints;
#[cfg(test)]
mod pieces;
#[cfg(test)]
mod tests;
