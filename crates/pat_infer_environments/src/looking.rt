// Look-ups of names in ascending order, which go through needs once.
ghost use Rattle.std.specs.Prelude.{◌≡◌, ◌≤◌, ◌<◌, List, ℕ, length, take, drop, map, if◌then◌else◌, nat_lt, IfOk, OnOk};
ghost use Rattle.std.specs.List.{AllByRecursion};
ghost use Rattle.pat_type_schemes_spec.specs.NodeTypes.{need_of};
ghost use Rattle.pat_types.specs.Views.{needs_view};
ghost use Rattle.pat_infer_environments.specs.Combining.{need_ref, column_view};
ghost use Rattle.pat_infer_environments.specs.Gathering.{column_at};
ghost use Rattle.pat_infer_environments.specs.Looking.{IsAt, AreAt, first_is_lesser};

use crate::needs::find;
use pat_sequences::Sequence;
use pat_types::MailboxType;
use std::alloc::{AllocError, Global};

/// Where the next look-up begins: the needs before it are of lesser variables than the one that was looked up last.
#[derive(Clone, Copy)]
pub struct Cursor {
    pub place: usize,
    pub last: u32,
}

/// The place before all needs.
pub fn first_place() -> Cursor
    ensures { (result.place ≡ 0) × (result.last ≡ 0) }
{
    Cursor { place: 0, last: 0 }
}

/// What is needed of a variable, if anything is. A lesser variable than the last is looked up from the front again.
pub fn find_next<'a>(
    needs: &'a [(u32, MailboxType)],
    cursor: &mut Cursor,
    variable: u32,
) -> Option<&'a MailboxType>
    requires { IsAt needs.now cursor.old }
    ensures found { need_ref result ≡ need_of (needs_view needs.now) variable }
    ensures at { IsAt needs.now cursor.new }
{
    let place = skip_lesser(needs, *cursor, variable);
    *cursor = Cursor {
        place,
        last: variable,
    };
    find(&needs[place..], variable as usize)
}

/// The place behind the needs of lesser variables.
#[tactic(auto, using(crate::proofs::LookUps::begun_within, crate::proofs::LookUps::begun_front, crate::proofs::LookUps::one_skipped, crate::proofs::LookUps::still_within))]
fn skip_lesser(needs: &[(u32, MailboxType)], cursor: Cursor, variable: u32) -> usize
    requires { IsAt needs.now cursor }
    ensures within { result ≤ length needs.now }
    ensures front { AllByRecursion (λ e. e.0 < variable) (take result needs.now) }
{
    let mut place = begin(cursor, variable);
    while is_lesser_at(needs, place, variable) {
        place += 1;
    }
    place
}

fn begin(cursor: Cursor, variable: u32) -> usize
    ensures { result ≡ (if nat_lt variable cursor.last then 0 else cursor.place) }
{
    if variable < cursor.last {
        0
    } else {
        cursor.place
    }
}

/// Whether there is a need of a lesser variable at a place.
fn is_lesser_at(needs: &[(u32, MailboxType)], place: usize, variable: u32) -> bool
    ensures { result ≡ first_is_lesser variable (drop place needs.now) }
{
    match needs.get(place) {
        Some((other, _)) => *other < variable,
        None => false,
    }
}

/// The places before all needs of each branch.
#[tactic(auto, using(crate::proofs::LookUps::one_begun, crate::proofs::LookUps::all_begun))]
pub fn first_places(
    alloc: Global,
    branches: &[Sequence<(u32, MailboxType)>],
) -> Result<Sequence<Cursor>, AllocError>
    ensures { IfOk result (λ cursors. AreAt branches.now cursors) }
{
    let mut cursors = Sequence::new(alloc);
    for _ in branches {
        cursors.push(first_place())?;
    }
    Ok(cursors)
}

/// What each branch needs of a variable.
#[tactic(auto, using(crate::proofs::LookUps::as_many, crate::proofs::LookUps::at_place, crate::proofs::LookUps::moved_at))]
pub fn column_of<'a>(
    alloc: Global,
    branches: &'a [Sequence<(u32, MailboxType)>],
    cursors: &mut Sequence<Cursor>,
    variable: u32,
) -> Result<Vec<Option<&'a MailboxType>>, AllocError>
    requires { AreAt branches.now cursors.old }
    ensures column { IfOk result (λ column. column_view column.items ≡ column_at variable (map needs_view branches.now)) }
    ensures at { OnOk result (AreAt branches.now cursors.new) }
{
    let mut column = Vec::new(alloc);
    for (place, needs) in branches.iter().enumerate() {
        let mut cursor = cursors.as_slice()[place];
        column.push(find_next(needs.as_slice(), &mut cursor, variable))?;
        let _ = cursors.replace(place, cursor);
    }
    Ok(column)
}
