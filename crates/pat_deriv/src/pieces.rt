// Bytes and numbers.
ghost use Rattle.std.specs.Prelude.{◌≡◌, ◌++◌, ◌∷◌, OnOk, IsTrue, map};
ghost use Rattle.std.specs.Fmt.{decimal};
ghost use Rattle.pat_derivation_spec.specs.Spelled.{is_number, are_numbers};
ghost use Rattle.pat_derivation_text_spec.specs.DerivationText.{numbers_text};
ghost use Rattle.std.specs.List.{flat_map};

use pat_texts::push_number;
use std::alloc::AllocError;

pub fn put(out: &mut Vec<u8>, bytes: &[u8]) -> Result<(), AllocError>
    ensures { OnOk result (out.new.items ≡ out.old.items ++ bytes.now) }
{
    out.extend_from_slice(bytes)
}

pub fn put_number(out: &mut Vec<u8>, number: u32) -> Result<(), AllocError>
    ensures text { OnOk result (out.new.items ≡ out.old.items ++ decimal number) }
    ensures number { OnOk result (IsTrue (is_number number)) }
{
    push_number(out, u64::from(number))
}

/// A number behind a byte.
fn put_behind(out: &mut Vec<u8>, byte: u8, number: u32) -> Result<(), AllocError>
    ensures text { OnOk result (out.new.items ≡ out.old.items ++ byte ∷ decimal number) }
    ensures number { OnOk result (IsTrue (is_number number)) }
{
    out.push(byte)?;
    put_number(out, number)
}

/// Numbers with commas between.
pub fn put_numbers(out: &mut Vec<u8>, numbers: &[u32]) -> Result<(), AllocError>
    ensures text { OnOk result (out.new.items ≡ out.old.items ++ numbers_text numbers.now) }
    ensures numbers { OnOk result (IsTrue (are_numbers numbers.now)) }
{
    match numbers {
        [] => Ok(()),
        [first, more @ ..] => {
            put_number(out, *first)?;
            put_more_numbers(out, more)
        }
    }
}

/// Numbers, each behind a comma.
fn put_more_numbers(out: &mut Vec<u8>, numbers: &[u32]) -> Result<(), AllocError>
    ensures text { OnOk result (out.new.items ≡ out.old.items ++ flat_map (λ y. 44 ∷ y) (map decimal numbers.now)) }
    ensures numbers { OnOk result (IsTrue (are_numbers numbers.now)) }
{
    for number in numbers {
        put_behind(out, b',', *number)?;
    }
    Ok(())
}
