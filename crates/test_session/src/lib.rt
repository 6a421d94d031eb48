//! Calls of `pat` over memory: each command on texts, and on those that are cut, deep, long or forged; ports that fail, two workers, and runs that are read
//! again. Tests only. Of the deep ones `rt try --test` gives up on a stack of 8 MB: `ulimit -s 16384` before it.
#![tactic(auto)]

#[cfg(test)]
mod calls;
#[cfg(test)]
mod checking;
#[cfg(test)]
mod holding;
#[cfg(test)]
mod hostile;
#[cfg(test)]
mod pieces;
#[cfg(test)]
mod rows;
#[cfg(test)]
mod tests;
#[cfg(test)]
mod texts;
