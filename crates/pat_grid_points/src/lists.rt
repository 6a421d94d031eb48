// Lists of numbers that are filled anew.
ghost use Rattle.std.specs.Prelude.{◌≡◌, ◌++◌, ◌∷◌, [], OnOk, if◌then◌else◌};

use pat_sequences::Sequence;
use std::alloc::AllocError;
use std::mem;

/// From now on nothing is listed.
pub fn forget(numbers: &mut Sequence<usize>)
    ensures { numbers.new ≡ [] }
{
    numbers.items.clear();
}

/// Lists the numbers that are new, in place of those listed; from now on nothing is new.
pub fn take(news: &mut Sequence<usize>, numbers: &mut Sequence<usize>)
    ensures old { numbers.new ≡ news.old }
    ensures now { news.new ≡ [] }
{
    forget(numbers);
    mem::swap(news, numbers);
}

/// Appends the number, if it is asked for.
pub fn push_if(wanted: bool, number: usize, numbers: &mut Sequence<usize>) -> Result<(), AllocError>
    ensures { OnOk result (numbers.new ≡ numbers.old ++ (if wanted then number ∷ [] else [])) }
{
    if wanted {
        numbers.push(number)?;
    }
    Ok(())
}
