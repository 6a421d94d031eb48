//! The machine on small programs, pools and mailboxes called in a row, and the causal order of what was done.
#![tactic(auto)]

#[cfg(test)]
mod calls;
#[cfg(test)]
mod causal;
#[cfg(test)]
mod checking;
#[cfg(test)]
mod mailboxes;
#[cfg(test)]
mod runs;
#[cfg(test)]
mod tests;
