// Which calls of a port in memory fail.
ghost use Rattle.std.specs.Prelude.{◌≡◌};
ghost use Rattle.pat_ports.specs.Memory.{is_listed, number_after};

/// Whether the call is one of those listed.
pub fn is_planned(call: Option<u64>, failing: &[u64]) -> bool
    ensures { result ≡ is_listed call failing.now }
{
    match call {
        Some(number) => failing.contains(&number),
        None => false,
    }
}

/// The number of the next call.
pub fn next_call(call: Option<u64>) -> Option<u64>
    ensures { result ≡ number_after call }
{
    call.and_then(|number| number.checked_add(1))
}
