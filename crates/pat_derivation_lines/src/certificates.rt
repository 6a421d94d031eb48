// Certificates.
ghost use Rattle.std.specs.Prelude.{◌≡◌, ◌∷◌};
ghost use Rattle.pat_texts_spec.specs.Numbers as numbers;
ghost use Rattle.pat_derivation_text_spec.specs.LineReading as reading;
ghost use Rattle.pat_texts_spec.specs.Joined.{pieces, read_each, read_joined};
ghost use Rattle.pat_cover_certificates.specs.Views.{entry_view, entries_view};
ghost use Rattle.pat_derivations.specs.Views.{cert_view, certs_view};
ghost use Rattle.pat_derivation_lines.specs.patterns.Answers.{Gives};

use crate::patterns::Unread;
use crate::room::room_for;
use pat_cover_certificates::CoverEntry;
use pat_derivations::Cert;
use pat_sequences::Sequence;
use pat_texts::{before, behind, cut, first_piece, read_number};
use std::alloc::Global;

/// The number that the text spells.
pub fn number_of(text: &[u8]) -> Result<u32, Unread>
    ensures { Gives (λ n. n) (numbers.read_number text.now) result }
{
    match read_number(text) {
        Some(number) => Ok(number),
        None => Err(Unread::NotSpelled),
    }
}

/// Numbers with commas between.
pub fn read_numbers(alloc: Global, text: &[u8]) -> Result<Sequence<u32>, Unread>
    ensures { Gives (λ ns. ns) (reading.read_numbers text.now) result }
{
    if text.is_empty() {
        return Ok(Sequence::new(alloc));
    }
    let mut numbers = room_for(alloc, text, b',')?;
    let mut rest = Some(text);
    while let Some(more) = rest {
        let (own, others) = first_piece(more, b',');
        let number = number_of(own)?;
        numbers.push(number)?;
        rest = others;
    }
    Ok(numbers)
}

/// The numbers of periods, with semicolons between.
fn read_periods(alloc: Global, text: &[u8]) -> Result<Sequence<Sequence<u32>>, Unread>
    ensures { Gives (λ ns. ns) (read_each reading.read_numbers (pieces 59 text.now)) result }
{
    let mut periods = room_for(alloc, text, b';')?;
    let mut rest = Some(text);
    while let Some(more) = rest {
        let (own, others) = first_piece(more, b';');
        let numbers = read_numbers(alloc, own)?;
        periods.push(numbers)?;
        rest = others;
    }
    Ok(periods)
}

/// An entry: the numbers for the base come before those for the periods.
fn entry_with(set: u32, periods: Sequence<Sequence<u32>>) -> Result<CoverEntry, Unread>
    ensures { Gives entry_view (reading.entry_with set periods) result }
{
    let mut periods = periods;
    if periods.is_empty() {
        return Err(Unread::NotSpelled);
    }
    let base = periods.remove(0);
    periods.items.shrink_to_fit();
    Ok(CoverEntry { set, base, periods })
}

/// An entry of a cover.
fn read_entry(alloc: Global, text: &[u8]) -> Result<CoverEntry, Unread>
    ensures { Gives entry_view (reading.read_entry text.now) result }
{
    match cut(text, b':') {
        Some((own, more)) => {
            let set = number_of(own)?;
            let periods = read_periods(alloc, more)?;
            entry_with(set, periods)
        }
        None => Err(Unread::NotSpelled),
    }
}

/// Entries with bars between.
fn read_entries(alloc: Global, text: &[u8]) -> Result<Sequence<CoverEntry>, Unread>
    ensures { Gives entries_view (read_joined 124 reading.read_entry text.now) result }
{
    if text.is_empty() {
        return Ok(Sequence::new(alloc));
    }
    let mut entries = room_for(alloc, text, b'|')?;
    let mut rest = Some(text);
    while let Some(more) = rest {
        let (own, others) = first_piece(more, b'|');
        let entry = read_entry(alloc, own)?;
        entries.push(entry)?;
        rest = others;
    }
    Ok(entries)
}

/// A cover, behind its opening bracket.
fn read_cover(alloc: Global, text: &[u8]) -> Result<Cert, Unread>
    ensures { Gives cert_view (reading.read_cover text.now) result }
{
    match before(text, b")") {
        Some(inner) => {
            let entries = read_entries(alloc, inner)?;
            Ok(Cert::Cover(entries))
        }
        None => Err(Unread::NotSpelled),
    }
}

/// A certificate.
pub fn read_cert(alloc: Global, text: &[u8]) -> Result<Cert, Unread>
    ensures { Gives cert_view (reading.read_cert text.now) result }
{
    match behind(text, b"c(") {
        Some(more) => read_cover(alloc, more),
        None => match behind(text, b"g") {
            Some(more) => {
                let k = number_of(more)?;
                Ok(Cert::Grid(k))
            }
            None => Err(Unread::NotSpelled),
        },
    }
}

/// Certificates with spaces between.
fn read_each_cert(alloc: Global, text: &[u8]) -> Result<Sequence<Cert>, Unread>
    ensures { Gives certs_view (read_each reading.read_cert (pieces 32 text.now)) result }
{
    let mut certs = Sequence::new(alloc);
    let mut rest = Some(text);
    while let Some(more) = rest {
        let (own, others) = first_piece(more, b' ');
        let cert = read_cert(alloc, own)?;
        certs.push(cert)?;
        rest = others;
    }
    Ok(certs)
}

/// Certificates, each behind a space.
pub fn read_certs(alloc: Global, text: &[u8]) -> Result<Sequence<Cert>, Unread>
    ensures { Gives certs_view (reading.read_certs text.now) result }
{
    if text.is_empty() {
        return Ok(Sequence::new(alloc));
    }
    match behind(text, b" ") {
        Some(more) => read_each_cert(alloc, more),
        None => Err(Unread::NotSpelled),
    }
}
