// Sets of variables.
ghost use Rattle.std.specs.Prelude.{◌≡◌, ◌<◌, ◌≤◌, ◌||◌, ℕ, [], get_or, length, insert, false, nat_eq, IsTrue, IfOk, IfErr, OnOk, OnErr};
ghost use Rattle.pat_semantics_laws.specs.Programs.{is_among};
ghost use Rattle.pat_reduce_values.specs.programs.Places.{Ascends, StandsAt, FitsAt};
ghost use Rattle.pat_limits.specs.Limits.{number_count};

use pat_sequences::Sequence;
use std::alloc::{AllocError, Global};

/// A set of variables: their list, in ascending order.
#[derive(Drop)]
pub struct Variables {
    pub listed: Sequence<u32>,
    ghost ascends: { Ascends listed },
    ghost small: { (x : ℕ) → IsTrue (is_among x listed) → x < number_count },
}

impl Variables {
    /// No variable.
    pub fn new(alloc: Global) -> Self
        ensures { (x : ℕ) → is_among x result.listed ≡ false }
    {
        Variables {
            listed: Sequence::new(alloc),
        }
    }

    /// Adds a variable. An error adds none.
    pub fn add(&mut self, variable: u32) -> Result<(), AllocError>
        ensures ok { OnOk result ((x : ℕ) → is_among x self.new.listed ≡ (is_among x self.old.listed || nat_eq x variable)) }
        ensures err { OnErr result (self.new.listed ≡ self.old.listed) }
    {
        match place_of(self.listed.as_slice(), variable) {
            Ok(_) => Ok(()),
            Err(place) => insert_at(&mut self.listed, place, variable),
        }
    }

    /// Whether the variable is in the set.
    pub fn contains(&self, variable: u32) -> bool
        ensures { result ≡ is_among variable self.now.listed }
    {
        self.at_hand().contains(variable)
    }

    /// The set as it is looked up many times.
    pub fn at_hand(&self) -> AtHand<'_>
        ensures { result.listed.now ≡ self.now.listed }
    {
        AtHand {
            listed: self.listed.as_slice(),
        }
    }

    /// The variables.
    pub fn as_slice(&self) -> &[u32]
        ensures { result.now ≡ self.now.listed }
    {
        self.listed.as_slice()
    }
}

/// A set of variables that is at hand, as for each value of an environment.
#[derive(Clone, Copy)]
pub struct AtHand<'a> {
    pub listed: &'a [u32],
    ghost ascends: { Ascends listed.now },
}

impl<'a> AtHand<'a> {
    /// No variable.
    pub fn none() -> AtHand<'a>
        ensures { result.listed.now ≡ [] }
    {
        AtHand { listed: &[] }
    }

    /// Whether the variable is in the set.
    pub fn contains(&self, variable: u32) -> bool
        ensures { result ≡ is_among variable self.now.listed.now }
    {
        stands_in_row(self.listed, variable) || place_of(self.listed, variable).is_ok()
    }

    /// The same, quickly where the variable stands or belongs at this place; and the place at which to look for the next greater one.
    #[inline(always)]
    pub fn look_up(&self, place: usize, variable: u32) -> (bool, usize)
        ensures { result.0 ≡ is_among variable self.now.listed.now }
    {
        match self.listed.get(place) {
            Some(own) if *own == variable => return (true, place + 1),
            Some(own) if *own > variable && is_behind(self.listed, place, variable) => {
                return (false, place);
            }
            _ => {}
        }
        match place_of(self.listed, variable) {
            Ok(own) => (true, own + 1),
            Err(next) => (false, next),
        }
    }
}

// Whether the variable is greater than the one before this place, if there is one.
fn is_behind(listed: &[u32], place: usize, variable: u32) -> bool
    requires within { place < length listed.now }
    requires order { Ascends listed.now }
    requires less { (d : ℕ) → variable < get_or listed.now place d }
    ensures { IsTrue result → FitsAt listed.now variable place }
{
    place == 0 || listed[place - 1] < variable
}

// Whether the variable stands where it does if none is left out from it to the last one, which is mostly so.
fn stands_in_row(listed: &[u32], variable: u32) -> bool
    ensures { IsTrue result → IsTrue (is_among variable listed.now) }
{
    let Some(last) = listed.last() else {
        return false;
    };
    let Some(back) = last.checked_sub(variable) else {
        return false;
    };
    let Some(place) = (listed.len() - 1).checked_sub(back as usize) else {
        return false;
    };
    listed[place] == variable
}

// The place of a variable in an ascending list, or where it belongs.
fn place_of(listed: &[u32], variable: u32) -> Result<usize, usize>
    requires { Ascends listed.now }
    ensures found { IfOk result (StandsAt listed.now variable) }
    ensures absent { IfErr result (FitsAt listed.now variable) }
{
    if exceeds_all(listed, variable) {
        return Err(listed.len());
    }
    match listed.binary_search(&variable) {
        Ok(place) => Ok(place),
        Err(place) => Err(place),
    }
}

// Whether the variable belongs behind all that are listed.
fn exceeds_all(listed: &[u32], variable: u32) -> bool
    requires { Ascends listed.now }
    ensures { IsTrue result → FitsAt listed.now variable (length listed.now) }
{
    listed.is_empty() || listed[listed.len() - 1] < variable
}

// Puts a variable at a place; those from there on move down. An error changes nothing.
fn insert_at(listed: &mut Sequence<u32>, place: usize, variable: u32) -> Result<(), AllocError>
    requires { place ≤ length listed.old }
    ensures ok { OnOk result (listed.new ≡ insert listed.old place variable) }
    ensures err { OnErr result (listed.new ≡ listed.old) }
{
    listed.items.insert(place, variable)?;
    Ok(())
}
