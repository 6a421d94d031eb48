// Numbers in decimal, read.
ghost use Rattle.std.specs.Prelude.{◌≡◌, ◌<◌};
ghost use Rattle.pat_texts_spec.specs.Numbers as numbers;

/// The number that the digits spell, if it is one of 32 bits.
pub fn read_digits(text: &[u8]) -> Option<u32>
    ensures { result ≡ numbers.read_digits 0 text.now }
{
    let mut number: u32 = 0;
    for byte in text {
        if !byte.is_ascii_digit() {
            return None;
        }
        let next = number as u64 * 10 + (*byte - b'0') as u64;
        if next > u32::MAX as u64 {
            return None;
        }
        number = next as u32;
    }
    Some(number)
}

/// The number of 32 bits that the bytes spell in decimal, with no zero in front.
pub fn read_number(text: &[u8]) -> Option<u32>
    ensures { result ≡ numbers.read_number text.now }
{
    match text {
        [] => None,
        [_] => read_digits(text),
        [first, ..] => {
            if *first == b'0' {
                None
            } else {
                read_digits(text)
            }
        }
    }
}
