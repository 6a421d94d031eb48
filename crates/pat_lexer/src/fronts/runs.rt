// How many bytes at the front of a text are of one sort, and the numbers that digits write.
ghost use Rattle.std.specs.Prelude.{◌≡◌, ◌≤◌, ◌<◌, ◌==◌, ◌||◌, IfSome, IfNone};
ghost use Rattle.pat_lexer_spec.specs.Characters.{is_blank, is_digit, Each, number_after};
ghost use Rattle.pat_lexer.specs.fronts.Bytes.{is_name_byte, is_name_start, is_plain_ascii, is_comment_byte, IsRunOf};

pub const GREATEST: u64 = 9223372036854775807;

pub fn is_name_byte(byte: u8) -> bool
    ensures { result ≡ is_name_byte byte }
{
    byte.is_ascii_alphanumeric() || byte == b'_'
}

pub fn is_name_start(byte: u8) -> bool
    ensures { result ≡ is_name_start byte }
{
    byte.is_ascii_alphabetic() || byte == b'_'
}

pub fn is_blank(byte: u8) -> bool
    ensures { result ≡ is_blank byte }
{
    matches!(byte, b' ' | b'\t' | b'\r' | b'\n')
}

/// Whether the byte stands for itself in a string, and is a character.
pub fn is_plain(byte: u8) -> bool
    ensures { result ≡ is_plain_ascii byte }
{
    32 <= byte && byte < 128 && byte != b'"' && byte != b'\\'
}

/// Whether the byte may stand behind a backslash.
pub fn is_escapable(byte: u8) -> bool
    ensures { result ≡ (byte == 34 || byte == 92) }
{
    byte == b'"' || byte == b'\\'
}

/// Whether the byte is a character that doesn't end a comment.
pub fn is_comment_byte(byte: u8) -> bool
    ensures { result ≡ is_comment_byte byte }
{
    byte < 128 && byte != b'\n'
}

pub fn blank_run(text: &[u8]) -> usize
    ensures { IsRunOf is_blank text.now result }
{
    for (i, byte) in text.iter().enumerate() {
        if !is_blank(*byte) {
            return i;
        }
    }
    text.len()
}

pub fn name_run(text: &[u8]) -> usize
    ensures { IsRunOf is_name_byte text.now result }
{
    for (i, byte) in text.iter().enumerate() {
        if !is_name_byte(*byte) {
            return i;
        }
    }
    text.len()
}

pub fn digit_run(text: &[u8]) -> usize
    ensures { IsRunOf is_digit text.now result }
{
    for (i, byte) in text.iter().enumerate() {
        if !byte.is_ascii_digit() {
            return i;
        }
    }
    text.len()
}

pub fn plain_run(text: &[u8]) -> usize
    ensures { IsRunOf is_plain_ascii text.now result }
{
    for (i, byte) in text.iter().enumerate() {
        if !is_plain(*byte) {
            return i;
        }
    }
    text.len()
}

pub fn comment_run(text: &[u8]) -> usize
    ensures { IsRunOf is_comment_byte text.now result }
{
    for (i, byte) in text.iter().enumerate() {
        if !is_comment_byte(*byte) {
            return i;
        }
    }
    text.len()
}

/// The number that goes on with these digits, unless it is too wide.
pub fn number_with(number: u64, digits: &[u8]) -> Option<u64>
    requires digits { Each is_digit digits.now }
    requires narrow { number ≤ 9223372036854775807 }
    ensures narrow { IfSome result (λ n. (n ≡ number_after number digits.now) × (n ≤ 9223372036854775807)) }
    ensures wide { IfNone result (9223372036854775807 < number_after number digits.now) }
{
    let mut n = number;
    for digit in digits {
        let value = u64::from(*digit - 48);
        if n > (GREATEST - value) / 10 {
            return None;
        }
        n = 10 * n + value;
    }
    Some(n)
}
