// What a table knows of a name.
ghost use Rattle.std.specs.Prelude.{◌≡◌, bytes_eq, is_some, true};
ghost use Rattle.std.specs.Map.{lookup, set_value};

use indexmap::IndexMap;
use pat_sequences::Text;

/// Writes another value to a name that the table has.
pub fn set_known<V: Copy + Drop>(known: &mut IndexMap<&[u8], V>, name: &Text, value: V)
    requires { is_some (lookup (λ k. bytes_eq name.now k.now) known.old.entries) ≡ true }
    ensures { known.new.entries ≡ set_value (λ k. bytes_eq name.now k.now) known.old.entries value }
{
    match known.get_mut(name.as_bytes()) {
        None => {}
        Some(place) => *place = value,
    }
}
