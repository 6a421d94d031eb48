// Integers of 64 bits.
ghost use Rattle.std.specs.Prelude.{◌≡◌, ◌≤◌, IfSome};
ghost use Rattle.pat_checkpoint_spec.specs.text.Integers as integers;

/// The number up to the limit that the digits spell.
fn read_more(limit: u64, text: &[u8]) -> Option<u64>
    ensures value { result ≡ integers.read_more limit 0 text.now }
    ensures small { IfSome result (λ n. n ≤ limit) }
{
    let mut number: u64 = 0;
    for byte in text {
        if !byte.is_ascii_digit() {
            return None;
        }
        let next = number as u128 * 10 + (*byte - b'0') as u128;
        if next > limit as u128 {
            return None;
        }
        number = next as u64;
    }
    Some(number)
}

/// The number up to the limit that the bytes spell in decimal, with no zero in front.
fn read_natural(limit: u64, text: &[u8]) -> Option<u64>
    ensures value { result ≡ integers.read_natural limit text.now }
    ensures small { IfSome result (λ n. n ≤ limit) }
{
    match text {
        [] => None,
        [_] => read_more(limit, text),
        [first, ..] => {
            if *first == b'0' {
                None
            } else {
                read_more(limit, text)
            }
        }
    }
}

/// The negative of a number that isn't zero.
fn negative(number: u64) -> Option<i64>
    requires { number ≤ 9223372036854775808 }
    ensures { result ≡ integers.negative number }
{
    if number == 0 {
        None
    } else {
        Some(-((number - 1) as i64) - 1)
    }
}

/// The integer that the bytes spell.
pub fn read_integer(text: &[u8]) -> Option<i64>
    ensures { result ≡ integers.read_integer text.now }
{
    match text {
        [] => None,
        [b'-', digits @ ..] => match read_natural(9223372036854775808, digits) {
            Some(number) => negative(number),
            None => None,
        },
        _ => match read_natural(9223372036854775807, text) {
            Some(number) => Some(number as i64),
            None => None,
        },
    }
}
