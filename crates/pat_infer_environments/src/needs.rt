// Needs as lists: a look-up, a need put among others, and needs without some names.
ghost use Rattle.std.specs.Prelude.{◌≡◌, ◌≤◌, ◌<◌, length, take, drop, option_map, IfOk, OnOk};
ghost use Rattle.std.specs.List.{AllByRecursion};
ghost use Rattle.pat_semantics_spec.specs.Programs.{is_among};
ghost use Rattle.pat_type_schemes_spec.specs.NodeTypes.{need_of};
ghost use Rattle.pat_derivation_spec.specs.Derivations.{ascends_from};
ghost use Rattle.pat_infer_spec.specs.Needs.{put as put_need, needs_but};
ghost use Rattle.pat_types.specs.Views.{type_view, needs_view};
ghost use Rattle.pat_infer_environments.specs.Stopping.{StopsAt, first_is};

use pat_sequences::Sequence;
use pat_types::MailboxType;
use std::alloc::AllocError;

/// What is needed of a variable, if anything is.
pub fn find(needs: &[(u32, MailboxType)], variable: usize) -> Option<&MailboxType>
    ensures { option_map (λ a. type_view a.now) result ≡ need_of (needs_view needs.now) variable }
{
    for (other, of) in needs {
        if variable == *other as usize {
            return Some(of);
        }
    }
    None
}

/// Whether the variables are in ascending order.
pub fn ascend(needs: &[(u32, MailboxType)]) -> bool
    ensures { result ≡ ascends_from 0 (needs_view needs.now) }
{
    let mut least: u64 = 0;
    for (variable, _) in needs {
        if least > *variable as u64 {
            return false;
        }
        least = *variable as u64 + 1;
    }
    true
}

/// Puts a need among needs in ascending order, in place of what was needed of the variable.
pub fn put(
    needs: &mut Sequence<(u32, MailboxType)>,
    variable: u32,
    of: MailboxType,
) -> Result<(), AllocError>
    ensures { OnOk result (needs_view needs.new ≡ put_need variable (type_view of) (needs_view needs.old)) }
{
    let place = place_for(needs.as_slice(), variable);
    if is_at(needs.as_slice(), place, variable) {
        let _ = needs.replace(place, (variable, of));
        return Ok(());
    }
    needs.items.insert(place, (variable, of))?;
    Ok(())
}

/// How many of the needs are of lesser variables.
fn place_for(needs: &[(u32, MailboxType)], variable: u32) -> usize
    ensures within { result ≤ length needs.now }
    ensures front { AllByRecursion (λ e. e.0 < variable) (take result needs.now) }
    ensures behind { StopsAt variable (drop result needs.now) }
{
    let mut place = 0;
    for (other, _) in needs {
        if *other >= variable {
            return place;
        }
        place += 1;
    }
    place
}

/// Whether the need at a place is of the variable.
fn is_at(needs: &[(u32, MailboxType)], place: usize, variable: u32) -> bool
    ensures { result ≡ first_is variable (drop place needs.now) }
{
    match needs.get(place) {
        Some((other, _)) => variable == *other,
        None => false,
    }
}

/// The needs without those of some variables.
pub fn without(needs: &mut Sequence<(u32, MailboxType)>, names: &[u32])
    ensures { needs_view needs.new ≡ needs_but names.now (needs_view needs.old) }
{
    needs.items.retain(|need| !is_named(names, need.0));
}

/// Whether the variable is one of the names.
pub fn is_named(names: &[u32], variable: u32) -> bool
    ensures { result ≡ is_among variable names.now }
{
    for name in names {
        if variable == *name {
            return true;
        }
    }
    false
}
