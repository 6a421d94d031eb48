// What came to nothing in a search: notes of what was left before a period once all numbers from there on were tried.
ghost use Rattle.std.specs.Prelude.{◌≡◌, ◌<◌, ◌≤◌, ℕ, List, length, drop, slice_get, Some, IsTrue, OnOk};
ghost use Rattle.pat_words_spec.specs.Words.{Word};
ghost use Rattle.pat_bags.specs.Views.{word_of};
ghost use Rattle.pat_cover_certificates.specs.declared.coefficients.failed.Note.{Note as NoteData};
ghost use Rattle.pat_cover_certificates.specs.coefficients.Numbers.{NoNumbers};
ghost use Rattle.pat_cover_certificates.specs.coefficients.Frames.{CameToNothing};

use pat_bags::Bag;
use pat_sequences::Sequence;
use std::alloc::AllocError;

/// The slots for notes at first.
const FEWEST_SLOTS: usize = 16;

/// The most slots; they take some 9 MB.
const MOST_SLOTS: usize = 65536;

/// How many times as many slots there are once there were as many turns as slots.
const GROWTH: usize = 4;

/// The periods from the place on don't make what is left.
#[derive(Clone, Copy)]
pub struct Note {
    pub place: usize,
    pub left: Bag,
}

/// Makes room for a note, and more room the longer the search takes. It takes the turns of the search since there was more room last, and
/// answers them with the one to come.
pub fn make_room(failed: &mut Sequence<Option<Note>>, turns: usize) -> Result<usize, AllocError>
    ensures came { OnOk result ((n : ℕ) (ps : List Word) → CameToNothing n ps failed.old → CameToNothing n ps failed.new) }
    ensures room { OnOk result (0 < length failed.new) }
{
    let slots = failed.len();
    if slots >= MOST_SLOTS || turns < slots {
        return Ok(turns.saturating_add(1));
    }
    let more = slots.saturating_mul(GROWTH).max(FEWEST_SLOTS);
    add_slots(failed, more)?;
    Ok(0)
}

/// Adds slots without notes until there are so many.
fn add_slots(failed: &mut Sequence<Option<Note>>, slots: usize) -> Result<(), AllocError>
    ensures came { OnOk result ((n : ℕ) (ps : List Word) → CameToNothing n ps failed.old → CameToNothing n ps failed.new) }
    ensures room { OnOk result (slots ≤ length failed.new) }
{
    while failed.len() < slots {
        failed.push(None)?;
    }
    Ok(())
}

/// Notes that the periods from the place on don't make what is left. The note that stood in its slot goes.
pub fn note_failed(failed: &mut Sequence<Option<Note>>, place: usize, left: &Bag)
    requires { 0 < length failed.old }
    ensures came { (n : ℕ) (ps : List Word) → CameToNothing n ps failed.old → NoNumbers n (drop place ps) (word_of left.now)
        → CameToNothing n ps failed.new }
    ensures room { length failed.new ≡ length failed.old }
{
    let slot = slot_of(place, left, failed.len());
    failed.replace(slot, Some(Note { place, left: *left }));
}

/// Whether it is noted that the periods from the place on don't make what is left.
pub fn has_failed(failed: &[Option<Note>], place: usize, left: &Bag) -> bool
    ensures { IsTrue result → (n : ℕ) (ps : List Word) → CameToNothing n ps failed.now → NoNumbers n (drop place ps) (word_of left.now) }
{
    if failed.is_empty() {
        return false;
    }
    let slot = slot_of(place, left, failed.len());
    is_noted_at(failed, slot, place, left)
}

/// Whether the note in the slot says so.
fn is_noted_at(failed: &[Option<Note>], slot: usize, place: usize, left: &Bag) -> bool
    ensures { IsTrue result → (v : NoteData) × (slice_get failed.now slot ≡ Some (Some v)) × (v.place ≡ place)
        × (word_of v.left ≡ word_of left.now) }
{
    match failed.get(slot) {
        None => false,
        Some(note) => match note {
            None => false,
            Some(own) => own.place == place && own.left.is_same(left),
        },
    }
}

/// The slot of a note, by a hash. It says where to look: the note that stands there is compared.
fn slot_of(place: usize, left: &Bag, slots: usize) -> usize
    requires { 0 < slots }
    ensures { result < slots }
{
    let mut hash = place as u64;
    for count in left.counts.as_slice() {
        hash = hash
            .wrapping_mul(11400714819323198485)
            .wrapping_add(*count as u64);
    }
    hash ^= hash >> 32;
    hash as usize % slots
}
