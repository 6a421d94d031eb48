// Numbers in ascending order.
ghost use Rattle.std.specs.Prelude.{◌≡◌, ◌+◌, ◌<◌, ◌≤◌, length, insert, filter, IfOk, IfErr, OnOk, vec_len, vec_capacity};
ghost use Rattle.pat_semantics_spec.specs.Orders.{AscendsFrom};
ghost use Rattle.pat_machine_spec.specs.Turns.{is_above};
ghost use Rattle.pat_machine_laws.specs.wakeups.Senders.{lesser};
ghost use Rattle.pat_machine_indexes.specs.ready_sets.Ascending.{StandsAt, FitsAt, IsPlaceAbove, AddsNumber, RemovesNumber};

use std::alloc::AllocError;

/// Numbers in ascending order, each of them once.
#[derive(Drop)]
pub struct Ascending {
    pub numbers: Vec<u32>,
}

impl Ascending {
    /// Space for so many more. An error changes nothing that is there.
    pub fn reserve(&mut self, more: usize) -> Result<(), AllocError>
        ensures same { self.new.numbers.items ≡ self.old.numbers.items }
        ensures space { OnOk result (vec_len self.new.numbers + more ≤ vec_capacity self.new.numbers) }
    {
        self.numbers.reserve(more)
    }

    /// The number is one of them. There is space for it.
    pub fn add(&mut self, number: u32)
        requires order { AscendsFrom 0 self.old.numbers.items }
        requires space { vec_len self.old.numbers < vec_capacity self.old.numbers }
        ensures { AddsNumber self.old number self.new }
    {
        match place_of(self.numbers.as_slice(), number) {
            Ok(_) => {}
            Err(place) => insert_at(&mut self.numbers, place, number),
        }
    }

    /// The number isn't one of them.
    pub fn remove(&mut self, number: u32)
        requires { AscendsFrom 0 self.old.numbers.items }
        ensures { RemovesNumber self.old number self.new }
    {
        match place_of(self.numbers.as_slice(), number) {
            Ok(place) => {
                self.numbers.remove(place);
            }
            Err(_) => {}
        }
    }

    /// Those above a number, or all.
    pub fn above(&self, last: Option<u32>) -> &[u32]
        requires { AscendsFrom 0 self.now.numbers.items }
        ensures { result.now ≡ filter (is_above last) self.now.numbers.items }
    {
        let numbers = self.numbers.as_slice();
        match last {
            Some(last) => &numbers[place_above(numbers, last)..],
            None => numbers,
        }
    }
}

// The place of a number in an ascending list, or where it belongs.
fn place_of(numbers: &[u32], number: u32) -> Result<usize, usize>
    requires { AscendsFrom 0 numbers.now }
    ensures found { IfOk result (StandsAt numbers.now number) }
    ensures absent { IfErr result (FitsAt numbers.now number) }
{
    match numbers.binary_search(&number) {
        Ok(place) => Ok(place),
        Err(place) => Err(place),
    }
}

// The place of the first number above this one.
fn place_above(numbers: &[u32], number: u32) -> usize
    requires { AscendsFrom 0 numbers.now }
    ensures { IsPlaceAbove numbers.now number result }
{
    match place_of(numbers, number) {
        Ok(place) => place + 1,
        Err(place) => place,
    }
}

fn insert_at(numbers: &mut Vec<u32>, place: usize, number: u32)
    requires within { place ≤ length numbers.old.items }
    requires room { vec_len numbers.old < vec_capacity numbers.old }
    ensures items { numbers.new.items ≡ insert numbers.old.items place number }
    ensures len { vec_len numbers.new ≡ vec_len numbers.old + 1 }
    ensures capacity { vec_capacity numbers.old ≤ vec_capacity numbers.new }
{
    match numbers.insert(place, number) {
        Ok(()) => {}
        // There is room.
        Err(_) => unreachable!(),
    }
}

/// The lesser of two numbers, where both are there.
pub fn lesser(first: Option<u32>, second: Option<u32>) -> Option<u32>
    ensures { result ≡ lesser first second }
{
    match first {
        Some(a) => match second {
            Some(b) => Some(a.min(b)),
            None => Some(a),
        },
        None => second,
    }
}
