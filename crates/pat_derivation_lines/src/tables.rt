// The interfaces of a program, found by their names.
ghost use Rattle.std.specs.Prelude.{◌≡◌, ◌<◌, IfOk, length};
ghost use Rattle.pat_core.specs.Views.{program_view, interface_view};
ghost use Rattle.pat_derivation_text_spec.specs.LineReading as reading;
ghost use Rattle.pat_derivation_lines.specs.Views.{found_view};
ghost use Rattle.pat_derivation_lines.specs.Places.{Known, IsTable};
ghost use Rattle.pat_limits.specs.Limits.{number_count};

use indexmap::IndexMap;
use pat_core::{Interface, Program};
use std::alloc::{AllocError, Global};

// So many names are looked through sooner than they are hashed.
const FEW: usize = 16;

/// A program whose interfaces are looked up by name. Where they are many, a look-up is one in a hash table. No name is copied.
pub struct InterfaceNames<'a> {
    pub program: &'a Program,
    /// Empty where they are few.
    places: IndexMap<&'a [u8], u32>,
    pub ghost known: { Known program.now.interfaces places.entries },
}

impl<'a> Drop for InterfaceNames<'a> {
    fn drop(self) {
        let InterfaceNames {
            program: _,
            places: _,
        } = self;
    }
}

impl<'a> InterfaceNames<'a> {
    /// Those of this program.
    pub fn of(alloc: Global, program: &'a Program) -> Result<Self, AllocError>
        requires { length program.now.interfaces < number_count }
        ensures { IfOk result (λ names. names.program.now ≡ program.now) }
    {
        let interfaces = program.interfaces.as_slice();
        if interfaces.len() > FEW {
            let places = places_of(alloc, interfaces)?;
            Ok(InterfaceNames { program, places })
        } else {
            Ok(InterfaceNames {
                program,
                places: IndexMap::new(alloc),
            })
        }
    }

    /// The first interface with this name, and its place.
    pub fn find(&self, name: &[u8]) -> Option<(u32, &'a Interface)>
        ensures { found_view result ≡ reading.found name.now (program_view self.now.program.now).interfaces }
    {
        if self.program.interfaces.len() > FEW {
            self.find_known(name)
        } else {
            find_interface(self.program, name)
        }
    }

    // The same, where they are many.
    fn find_known(&self, name: &[u8]) -> Option<(u32, &'a Interface)>
        requires { FEW < length self.now.program.now.interfaces }
        ensures { found_view result ≡ reading.found name.now (program_view self.now.program.now).interfaces }
    {
        match self.places.get(name) {
            Some(place) => Some((*place, &self.program.interfaces.as_slice()[*place as usize])),
            None => None,
        }
    }
}

/// The first place of each name.
fn places_of<'a>(
    alloc: Global,
    interfaces: &'a [Interface],
) -> Result<IndexMap<&'a [u8], u32>, AllocError>
    requires { length interfaces.now < number_count }
    ensures { IfOk result (λ places. IsTable interfaces.now places.entries) }
{
    let mut places = IndexMap::new(alloc);
    let mut place = interfaces.len();
    // From the last one on, so that the first of those with one name stays.
    while place > 0 {
        place -= 1;
        places.insert(interfaces[place].name.as_bytes(), place as u32)?;
    }
    Ok(places)
}

/// The first interface with this name, and its place.
pub fn find_interface<'a>(program: &'a Program, name: &[u8]) -> Option<(u32, &'a Interface)>
    requires { length program.now.interfaces < number_count }
    ensures { found_view result ≡ reading.found name.now (program_view program.now).interfaces }
{
    for (i, interface) in program.interfaces.as_slice().iter().enumerate() {
        if interface.name.as_bytes() == name {
            return Some((i as u32, interface));
        }
    }
    None
}
