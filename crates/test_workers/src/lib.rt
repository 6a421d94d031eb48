//! Runs by several workers, the turn between threads, and commits at the board from threads of their own.
#![tactic(auto)]

#[cfg(test)]
mod board;
#[cfg(test)]
mod checking;
#[cfg(test)]
mod commits;
#[cfg(test)]
mod runs;
#[cfg(test)]
mod tests;
#[cfg(test)]
mod turns;
