// Values that are grids.
ghost use Rattle.std.specs.Prelude.{◌≡◌, ◌<◌};
ghost use Rattle.std.specs.Prelude.{map};
ghost use Rattle.pat_derivations.specs.Views.{counts_of, value_view};
ghost use Rattle.pat_derivation_text_spec.specs.LineReading as reading;
ghost use Rattle.pat_texts_spec.specs.Joined.{pieces, read_each};
ghost use Rattle.pat_derivation_lines.specs.patterns.Answers.{Gives};
ghost use Rattle.pat_texts.specs.Pieces.{pieces_left};

use pat_bags::{Bag, TAGS};
use pat_certificate_values::points_fit;
use pat_derivation_lines::{Unread, number_of, read_numbers};
use pat_derivations::VarValue;
use pat_sequences::Sequence;
use pat_texts::first_piece;
use std::alloc::Global;

/// The point with these counts of the first `tags` tags.
fn point_of(counts: &[u32], tags: usize) -> Result<Bag, Unread>
    ensures { Gives counts_of (reading.point_of tags counts.now) result }
{
    if counts.len() != tags || tags > TAGS {
        return Err(Unread::NotSpelled);
    }
    let mut point = Bag { counts: [0; TAGS] };
    for (i, count) in counts.iter().enumerate() {
        point.counts[i] = *count;
    }
    Ok(point)
}

fn read_point(alloc: Global, tags: usize, text: &[u8]) -> Result<Bag, Unread>
    ensures { Gives counts_of (reading.read_point tags text.now) result }
{
    let counts = read_numbers(alloc, text)?;
    point_of(counts.as_slice(), tags)
}

/// Points with spaces between.
fn read_points(alloc: Global, tags: usize, text: &[u8]) -> Result<Sequence<Bag>, Unread>
    ensures { Gives (map counts_of) (read_each (reading.read_point tags) (pieces 32 text.now)) result }
{
    let mut points = Sequence::new(alloc);
    let mut rest = Some(text);
    while let Some(more) = rest {
        let (own, others) = first_piece(more, b' ');
        let point = read_point(alloc, tags, own)?;
        points.push(point)?;
        rest = others;
    }
    Ok(points)
}

/// The points of a grid of so many tags with this bound, if they are ones.
fn grid_with(tags: usize, k: u32, points: Sequence<Bag>) -> Result<VarValue, Unread>
    requires { tags < 33 }
    ensures { Gives value_view (reading.grid_with tags k (map counts_of points)) result }
{
    if points_fit(k, tags as u32, points.as_slice()) {
        Ok(VarValue::Grid { k, points })
    } else {
        Err(Unread::NotSpelled)
    }
}

/// The points behind the bound, if there are any.
fn points_behind(alloc: Global, tags: usize, text: Option<&[u8]>) -> Result<Sequence<Bag>, Unread>
    ensures { Gives (map counts_of) (read_each (reading.read_point tags) (pieces_left 32 text.entry)) result }
{
    match text {
        Some(more) => read_points(alloc, tags, more),
        None => Ok(Sequence::new(alloc)),
    }
}

/// A bound, and points behind spaces.
pub fn read_grid(alloc: Global, tags: usize, text: &[u8]) -> Result<VarValue, Unread>
    ensures { Gives value_view (reading.grid_of tags (pieces 32 text.now)) result }
{
    if tags > TAGS {
        return Err(Unread::NotSpelled);
    }
    let (own, others) = first_piece(text, b' ');
    let k = number_of(own)?;
    let points = points_behind(alloc, tags, others)?;
    grid_with(tags, k, points)
}
