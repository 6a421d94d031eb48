// Certificates.
ghost use Rattle.std.specs.Prelude.{◌≡◌, ◌++◌, ◌∷◌, OnOk, IsTrue, map};
ghost use Rattle.std.specs.List.{flat_map, list_all};
ghost use Rattle.pat_derivation_spec.specs.Spelled.{are_numbers, spells_entry, spells_cert};
ghost use Rattle.pat_cover_certificates.specs.Views.{entry_view, entries_view};
ghost use Rattle.pat_derivations.specs.Views.{cert_view, certs_view};
ghost use Rattle.pat_derivation_text_spec.specs.DerivationText.{numbers_text, entry_text, cert_text, certs_text};
ghost use Rattle.pat_texts_spec.specs.Joined.{joined};

use crate::pieces::{put, put_number, put_numbers};
use pat_cover_certificates::CoverEntry;
use pat_derivations::Cert;
use pat_sequences::Sequence;
use std::alloc::AllocError;

/// Lists of numbers, each behind a semicolon.
fn put_periods(out: &mut Vec<u8>, periods: &[Sequence<u32>]) -> Result<(), AllocError>
    ensures text { OnOk result (out.new.items ≡ out.old.items ++ flat_map (λ y. 59 ∷ y) (map numbers_text periods.now)) }
    ensures numbers { OnOk result (IsTrue (list_all are_numbers periods.now)) }
{
    for numbers in periods {
        out.push(b';')?;
        put_numbers(out, numbers.as_slice())?;
    }
    Ok(())
}

/// An entry of a cover.
fn put_entry(out: &mut Vec<u8>, entry: &CoverEntry) -> Result<(), AllocError>
    ensures text { OnOk result (out.new.items ≡ out.old.items ++ entry_text (entry_view entry.now)) }
    ensures numbers { OnOk result (IsTrue (spells_entry (entry_view entry.now))) }
{
    put_number(out, entry.set)?;
    out.push(b':')?;
    put_numbers(out, entry.base.as_slice())?;
    put_periods(out, entry.periods.as_slice())
}

/// Entries, each behind a bar.
fn put_more_entries(out: &mut Vec<u8>, entries: &[CoverEntry]) -> Result<(), AllocError>
    ensures text { OnOk result (out.new.items ≡ out.old.items ++ flat_map (λ y. 124 ∷ y) (map entry_text (entries_view entries.now))) }
    ensures numbers { OnOk result (IsTrue (list_all spells_entry (entries_view entries.now))) }
{
    for entry in entries {
        out.push(b'|')?;
        put_entry(out, entry)?;
    }
    Ok(())
}

/// Entries with bars between.
fn put_entries(out: &mut Vec<u8>, entries: &[CoverEntry]) -> Result<(), AllocError>
    ensures text { OnOk result (out.new.items ≡ out.old.items ++ joined 124 (map entry_text (entries_view entries.now))) }
    ensures numbers { OnOk result (IsTrue (list_all spells_entry (entries_view entries.now))) }
{
    match entries {
        [] => Ok(()),
        [first, more @ ..] => {
            put_entry(out, first)?;
            put_more_entries(out, more)
        }
    }
}

/// A certificate. Its numbers have 32 bits, so a text can have them.
pub fn put_cert(out: &mut Vec<u8>, cert: &Cert) -> Result<(), AllocError>
    ensures text { OnOk result (out.new.items ≡ out.old.items ++ cert_text (cert_view cert.now)) }
    ensures numbers { OnOk result (IsTrue (spells_cert (cert_view cert.now))) }
{
    match cert {
        Cert::Cover(entries) => {
            put(out, b"c(")?;
            put_entries(out, entries.as_slice())?;
            put(out, b")")
        }
        Cert::Grid(k) => {
            put(out, b"g")?;
            put_number(out, *k)
        }
    }
}

/// Certificates, each behind a space.
pub fn put_certs(out: &mut Vec<u8>, certs: &[Cert]) -> Result<(), AllocError>
    ensures { OnOk result (out.new.items ≡ out.old.items ++ certs_text (certs_view certs.now)) }
{
    for cert in certs {
        out.push(b' ')?;
        put_cert(out, cert)?;
    }
    Ok(())
}
