// Counting faults.
ghost use Rattle.pat_ports.specs.Causes.{Raised};

/// The count after one fault more. A count at the greatest number stays there.
pub fn raised(faults: u64) -> u64
    ensures { Raised faults result }
{
    faults.saturating_add(1)
}
