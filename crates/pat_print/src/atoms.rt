// Names, integers and strings.
ghost use Rattle.std.specs.Prelude.{◌≡◌, ◌++◌, ◌∷◌, [], OnOk};
ghost use Rattle.std.specs.Fmt.{signed_decimal};
ghost use Rattle.pat_print_spec.specs.Canonical.{name_onto};
ghost use Rattle.pat_print_spec.specs.Text.{quoted};
ghost use Rattle.pat_tree.specs.Views.{name_view};
ghost use Rattle.pat_print.specs.Parts.{bytes_of};

use pat_sequences::Text;
use pat_tree::Name;
use std::alloc::{AllocError, Global};

/// Appends a name.
pub fn put_name(out: &mut Vec<u8>, name: &Name) -> Result<(), AllocError>
    ensures { OnOk result (out.new.items ≡ out.old.items ++ bytes_of (name_onto (name_view name.now))) }
{
    out.extend_from_slice(name.text.as_bytes())
}

/// Appends an integer in decimal.
pub fn put_integer(alloc: Global, out: &mut Vec<u8>, n: i64) -> Result<(), AllocError>
    ensures { OnOk result (out.new.items ≡ out.old.items ++ signed_decimal n) }
{
    let digits = n.to_string(alloc)?;
    out.extend_from_slice(digits.as_bytes())
}

/// Appends a string in quotes.
pub fn put_string(out: &mut Vec<u8>, text: &Text) -> Result<(), AllocError>
    ensures { OnOk result (out.new.items ≡ out.old.items ++ 34 ∷ (quoted text.now ++ 34 ∷ [])) }
{
    out.push(b'"')?;
    put_escaped(out, text.as_bytes())?;
    out.push(b'"')?;
    Ok(())
}

/// Appends bytes, quotes and backslashes each behind a backslash.
fn put_escaped(out: &mut Vec<u8>, bytes: &[u8]) -> Result<(), AllocError>
    ensures { OnOk result (out.new.items ≡ out.old.items ++ quoted bytes.now) }
{
    for byte in bytes {
        if matches!(*byte, b'"' | b'\\') {
            out.push(b'\\')?;
        }
        out.push(*byte)?;
    }
    Ok(())
}
