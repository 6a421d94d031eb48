// How the points of a grid are divided.

ghost use Rattle.std.specs.Prelude.{◌≤◌, IsTrue};
ghost use Rattle.pat_inclusion_spec.specs.Points.{grid_fits};
ghost use Rattle.pat_inclusion_spec.specs.bounds.Numbers.{points_in};
ghost use Rattle.pat_grid_sums.specs.Shapes.{IsShape};

use pat_grid_points::count_points;

/// A point's number is that of a word, with a place in the word: the counts of the last tags.
#[derive(Clone, Copy)]
pub struct Shape {
    /// The greatest count.
    pub k: u32,
    /// The number of the first tags.
    pub high: u8,
    /// The number of the last tags.
    pub low: u8,
    /// The number of words.
    pub words: usize,
    /// The number of places in a word, 64 at most.
    pub width: usize,
}

/// The shape of the points: as many last tags as a word has room for.
pub fn shape_of(k: u32, tags: u8) -> Shape
    requires { IsTrue (grid_fits k tags) }
    ensures { IsShape k tags result }
{
    let low = low_tags(k, tags);
    let high = tags - low;
    Shape {
        k,
        high,
        low,
        words: count_points(k, high),
        width: count_points(k, low),
    }
}

/// So many last tags that their points are 64 at most.
fn low_tags(k: u32, tags: u8) -> u8
    requires { IsTrue (grid_fits k tags) }
    ensures within { result ≤ tags }
    ensures room { points_in k result ≤ 64 }
{
    let base = k as usize + 1;
    let mut low = 0;
    let mut width = base;
    while low < tags && width <= 64 {
        low += 1;
        width *= base;
    }
    low
}
