// The certificates of a thread's parts. Nearly all threads have none, which then take no place.
ghost use Rattle.std.specs.Prelude.{◌≡◌, ◌∷◌, ◌<◌, [], Some, None, length, option_copied, replicate, reverse, slice_get, IfOk, IsTrue};

use pat_derivations::Cert;
use pat_sequences::Stack;
use std::alloc::{AllocError, Global};
use std::marker::Model;

/// Certificates of a control and of its frames.
#[derive(Drop)]
struct Certified {
    control: Option<Cert>,
    frames: Stack<Option<Cert>>,
}

#[derive(Drop)]
enum Held {
    /// None, neither of the control nor of so many frames.
    Bare(usize),
    Certified(Box<Certified>),
}

/// The certificates of a thread's parts: its control's, and those of its frames, the next one on top.
#[derive(Drop)]
pub struct PartCerts {
    held: Held,
}

impl Model for PartCerts {
    ghost use Rattle.pat_checkpoint_data.specs.Parts.{PartCerts, held_view};

    ghost Value = { PartCerts };

    ghost view = { λ k. held_view k.held };
}

impl PartCerts {
    /// None, and no frame.
    pub fn bare() -> Self
        ensures { result ≡ record { control = None; frames = [] } }
    {
        PartCerts {
            held: Held::Bare(0),
        }
    }

    /// That of a control without frames.
    pub fn new(alloc: Global, control: Option<Cert>) -> Result<Self, AllocError>
        ensures { IfOk result (λ k. k ≡ record { control = control; frames = [] }) }
    {
        match control {
            None => Ok(PartCerts::bare()),
            Some(cert) => with_certificates(alloc, Some(cert), Stack::new(alloc)),
        }
    }

    /// Those of a control and of frames.
    pub fn of(
        alloc: Global,
        control: Option<Cert>,
        frames: Stack<Option<Cert>>,
    ) -> Result<Self, AllocError>
        ensures { IfOk result (λ k. k ≡ record { control = control; frames = frames }) }
    {
        match control {
            None => PartCerts::of_frames(alloc, frames),
            Some(cert) => with_certificates(alloc, Some(cert), frames),
        }
    }

    // Those of frames alone.
    fn of_frames(alloc: Global, frames: Stack<Option<Cert>>) -> Result<Self, AllocError>
        ensures { IfOk result (λ k. k ≡ record { control = None; frames = frames }) }
    {
        if are_none(frames.as_slice()) {
            return Ok(PartCerts {
                held: Held::Bare(frames.len()),
            });
        }
        with_certificates(alloc, None, frames)
    }

    /// The same with that of a further frame on top.
    pub fn with_frame(self, alloc: Global, cert: Option<Cert>) -> Result<Self, AllocError>
        ensures { IfOk result (λ k. k ≡ record { control = self.control; frames = cert ∷ self.frames }) }
    {
        match (self.held, cert) {
            (Held::Bare(count), None) => with_bare(count),
            (Held::Bare(count), Some(cert)) => {
                let frames = frames_above(alloc, count, cert)?;
                with_certificates(alloc, None, frames)
            }
            (Held::Certified(certified), cert) => with_certified(certified, cert),
        }
    }

    /// The number of frames.
    pub fn frame_count(&self) -> usize
        ensures { result ≡ length self.now.frames }
    {
        match &self.held {
            Held::Bare(count) => *count,
            Held::Certified(certified) => certified.frames.len(),
        }
    }

    /// The control's.
    pub fn control(&self) -> Option<&Cert>
        ensures { option_copied result ≡ self.now.control }
    {
        match &self.held {
            Held::Bare(_) => None,
            Held::Certified(certified) => certified.control.as_ref(),
        }
    }

    /// That of the frame at this place, from the last one up.
    pub fn frame(&self, place: usize) -> Option<&Cert>
        requires { place < length self.now.frames }
        ensures { slice_get (reverse self.now.frames) place ≡ Some (option_copied result) }
    {
        match &self.held {
            Held::Bare(_) => None,
            Held::Certified(certified) => certified.frames.as_slice()[place].as_ref(),
        }
    }
}

fn with_certificates(
    alloc: Global,
    control: Option<Cert>,
    frames: Stack<Option<Cert>>,
) -> Result<PartCerts, AllocError>
    ensures { IfOk result (λ k. k ≡ record { control = control; frames = frames }) }
{
    let certified = Box::new(alloc, Certified { control, frames })?;
    Ok(PartCerts {
        held: Held::Certified(certified),
    })
}

// Whether none of the frames has one. Another answer only takes place.
fn are_none(certs: &[Option<Cert>]) -> bool
    ensures { IsTrue result → certs.now ≡ replicate (length certs.now) None }
{
    for cert in certs {
        if cert.is_some() {
            return false;
        }
    }
    true
}

// No certificates, of a frame more.
fn with_bare(count: usize) -> Result<PartCerts, AllocError>
    ensures { IfOk result (λ k. k ≡ record { control = None; frames = None ∷ replicate count None }) }
{
    match count.checked_add(1) {
        Some(count) => Ok(PartCerts {
            held: Held::Bare(count),
        }),
        None => Err(AllocError),
    }
}

// The certificate of a frame above so many that have none.
fn frames_above(alloc: Global, count: usize, cert: Cert) -> Result<Stack<Option<Cert>>, AllocError>
    ensures { IfOk result (λ frames. frames ≡ Some cert ∷ replicate count None) }
{
    let mut frames = bare_frames(alloc, count)?;
    frames.push(Some(cert))?;
    Ok(frames)
}

// So many frames that have none.
fn bare_frames(alloc: Global, count: usize) -> Result<Stack<Option<Cert>>, AllocError>
    ensures { IfOk result (λ frames. frames ≡ replicate count None) }
{
    let mut frames = Stack::new(alloc);
    for _ in 0..count {
        frames.push(None)?;
    }
    Ok(frames)
}

// The certificates of a control and of frames, with that of a further frame.
fn with_certified(certified: Box<Certified>, cert: Option<Cert>) -> Result<PartCerts, AllocError>
    ensures { IfOk result (λ k. k ≡ record { control = certified.value.control; frames = cert ∷ certified.value.frames }) }
{
    let mut certified = certified;
    certified.frames.push(cert)?;
    Ok(PartCerts {
        held: Held::Certified(certified),
    })
}
