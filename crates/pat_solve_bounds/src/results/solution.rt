// Solutions of problems.
ghost use Rattle.std.specs.Prelude.{◌≡◌};

use pat_derivations::VarValue;
use pat_sequences::Sequence;

/// Values of all variables of a problem, which show its constraints: for each interface the bound of the grids that are its values,
/// or none where these are patterns; and the interface and the value of each variable, in order.
pub struct Solution {
    pub bounds: Sequence<Option<u32>>,
    pub values: Sequence<(u32, VarValue)>,
}

impl Solution {
    /// The bounds and the values.
    pub fn into_parts(self) -> (Sequence<Option<u32>>, Sequence<(u32, VarValue)>)
        ensures bounds { result.0 ≡ self.bounds }
        ensures values { result.1 ≡ self.values }
    {
        let Solution { bounds, values } = self;
        (bounds, values)
    }
}

impl Drop for Solution {
    fn drop(self) {
        let Solution {
            bounds: _,
            values: _,
        } = self;
    }
}
