// Points as numbers: the counts of the tags are digits, that of the first tag the highest.
ghost use Rattle.std.specs.Prelude.{◌≡◌, ◌<◌, IsTrue};
ghost use Rattle.pat_words_spec.specs.Cuts.{cut_at};
ghost use Rattle.pat_bags.specs.Views.{word_of};
ghost use Rattle.pat_inclusion_spec.specs.Points.{grid_fits};
ghost use Rattle.pat_inclusion_spec.specs.bounds.Numbers.{points_in, number_of as number_in, point_of};
ghost use Rattle.pat_grid_points.specs.Views.{summed};

use pat_bags::{Bag, TAGS};

/// The number of points of the grid of so many tags whose counts are at most `k`.
pub fn count_points(k: u32, tags: u8) -> usize
    requires { IsTrue (grid_fits k tags) }
    ensures { result ≡ points_in k tags }
{
    (k as usize + 1).pow(tags as u32)
}

/// The number of the word, cut at `k`, by its counts of the first `tags` tags.
pub fn number_of(word: &Bag, k: u32, tags: u8) -> usize
    requires { IsTrue (grid_fits k tags) }
    ensures { result ≡ number_in k tags (cut_at k (word_of word.now)) }
{
    let base = k as usize + 1;
    let mut number = 0;
    for tag in 0..tags {
        number = number * base + word.get(tag).min(k) as usize;
    }
    number
}

/// The point with the number.
pub fn bag_of(number: usize, k: u32, tags: u8) -> Bag
    requires { IsTrue (grid_fits k tags) }
    ensures { word_of result ≡ point_of k tags number }
{
    let base = k as usize + 1;
    let mut counts = [0; TAGS];
    let mut rest = number;
    let mut tag = tags as usize;
    while tag > 0 {
        tag -= 1;
        counts[tag] = (rest % base) as u32;
        rest /= base;
    }
    Bag { counts }
}

/// The number of the sum of the two points with these numbers, cut at `k`.
pub fn sum_of(first: usize, second: usize, k: u32, tags: u8) -> usize
    requires { points_in k tags < 65537 }
    ensures { result ≡ summed k tags first second }
{
    let base = k as usize + 1;
    let mut one = first;
    let mut other = second;
    let mut number = 0;
    let mut worth = 1;
    let mut left = tags;
    while left > 0 {
        left -= 1;
        number += (one % base + other % base).min(k as usize) * worth;
        one /= base;
        other /= base;
        worth *= base;
    }
    number
}

/// The same of two points of the grid.
pub fn sum_of_points(first: usize, second: usize, k: u32, tags: u8) -> usize
    requires few { points_in k tags < 65537 }
    requires first { first < points_in k tags }
    requires second { second < points_in k tags }
    ensures { result ≡ summed k tags first second }
{
    // The empty word is one of many, and its sum is at hand.
    if first == 0 {
        return second;
    }
    if second == 0 {
        return first;
    }
    sum_of(first, second, k, tags)
}
