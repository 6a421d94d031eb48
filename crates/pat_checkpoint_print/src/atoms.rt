// Bytes, numbers, integers and strings.
ghost use Rattle.std.specs.Prelude.{◌≡◌, ◌++◌, ◌∷◌, OnOk, IsTrue};
ghost use Rattle.std.specs.Fmt.{decimal, signed_decimal};
ghost use Rattle.pat_print_spec.specs.Text.{quoted};
ghost use Rattle.pat_texts_spec.specs.Numbers.{is_number};
ghost use Rattle.pat_checkpoint_spec.specs.text.Integers.{is_integer};
ghost use Rattle.pat_checkpoint_spec.specs.text.ValueText.{string_text};

use pat_sequences::Text;
use pat_texts::push_number;
use std::alloc::{AllocError, Global};

pub fn put(out: &mut Vec<u8>, bytes: &[u8]) -> Result<(), AllocError>
    ensures { OnOk result (out.new.items ≡ out.old.items ++ bytes.now) }
{
    out.extend_from_slice(bytes)
}

pub fn put_number(out: &mut Vec<u8>, number: u32) -> Result<(), AllocError>
    ensures text { OnOk result (out.new.items ≡ out.old.items ++ decimal number) }
    ensures range { OnOk result (IsTrue (is_number number)) }
{
    push_number(out, u64::from(number))
}

/// A number behind a byte.
pub fn put_behind(out: &mut Vec<u8>, byte: u8, number: u32) -> Result<(), AllocError>
    ensures text { OnOk result (out.new.items ≡ out.old.items ++ byte ∷ decimal number) }
    ensures range { OnOk result (IsTrue (is_number number)) }
{
    out.push(byte)?;
    put_number(out, number)
}

/// Appends an integer in decimal.
pub fn put_integer(alloc: Global, out: &mut Vec<u8>, n: i64) -> Result<(), AllocError>
    ensures text { OnOk result (out.new.items ≡ out.old.items ++ signed_decimal n) }
    ensures range { OnOk result (IsTrue (is_integer n)) }
{
    let digits = n.to_string(alloc)?;
    out.extend_from_slice(digits.as_bytes())
}

/// Appends a string in quotes, as `pat_print` does, which keeps its atoms to itself.
pub fn put_string(out: &mut Vec<u8>, text: &Text) -> Result<(), AllocError>
    ensures { OnOk result (out.new.items ≡ out.old.items ++ string_text text.now) }
{
    out.push(b'"')?;
    put_escaped(out, text.as_bytes())?;
    out.push(b'"')?;
    Ok(())
}

/// Appends bytes, quotes and backslashes each behind a backslash.
fn put_escaped(out: &mut Vec<u8>, bytes: &[u8]) -> Result<(), AllocError>
    ensures { OnOk result (out.new.items ≡ out.old.items ++ quoted bytes.now) }
{
    for byte in bytes {
        if matches!(*byte, b'"' | b'\\') {
            out.push(b'\\')?;
        }
        out.push(*byte)?;
    }
    Ok(())
}
