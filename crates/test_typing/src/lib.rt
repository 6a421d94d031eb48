//! What `check`, `derive` and `verify` answer on whole inputs, and derivations and checkpoints judged.
#![tactic(auto)]

#[cfg(test)]
mod checking;
#[cfg(test)]
mod checkpoints;
#[cfg(test)]
mod checks;
#[cfg(test)]
mod derivations;
#[cfg(test)]
mod tests;
#[cfg(test)]
mod verify;
