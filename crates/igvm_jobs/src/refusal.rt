//! How a job ends: its text is put, or it is refused with a line.
ghost use Rattle.std.specs.Prelude.{◌≡◌, IfOk, IfErr};
ghost use Rattle.igvm_jobs.specs.declared.refusal.Refusal.TheVariants as refusal;
ghost use Rattle.igvm_jobs.specs.Clauses.{IsPut};
ghost use Rattle.igvm_jobs.specs.Refusals.{status_of, limit_text, text_of, ended_status, end_status};
ghost use Rattle.igvm_jobs.specs.Endings.{EndIsPut, PutsEnd};

use crate::status::Status;
use igvm_outside::{Sink, put_all};
use std::alloc::AllocError;

/// How a job ends whose text is put.
#[derive(Clone, Copy)]
pub enum Ended {
    Done,
    /// The image does not fit the host; its text says why not.
    NotFit,
}

impl Ended {
    fn status(self) -> Status
        ensures { result ≡ ended_status self }
    {
        match self {
            Ended::Done => Status::Done,
            Ended::NotFit => Status::NotFit,
        }
    }
}

/// Why a job ends without being done.
#[derive(Drop)]
pub enum Refusal {
    /// The file breaks a rule of the reader; this is its line.
    File(String),
    /// The shelf failed.
    Shelf,
    /// The output failed.
    Output,
    /// The launch machine failed.
    Machine,
    Memory,
    /// The image has no such platform, or its kind has no digest; this is its line.
    Platform(String),
    /// A text is no JSON, or an entry of it is refused; this is its line.
    Json(String),
    /// Something is longer or larger than its limit.
    Limit(LimitOf),
}

/// What a limit is on.
#[derive(Clone, Copy)]
pub enum LimitOf {
    /// The image file.
    File,
    /// The text of a component list.
    List,
    /// The text of a host description.
    Host,
    /// A file that a list names.
    Blob,
    /// The contents of a list, together.
    Data,
    /// The image that is built.
    Image,
    /// The text of a VMSA, or its page.
    Vmsa,
    /// The ELF file.
    Elf,
    /// The pages of an image, together.
    Pages,
    /// The platforms of an image.
    Platforms,
    /// The parameter areas of an image.
    Areas,
}

impl LimitOf {
    fn text(self) -> &'static str
        ensures { result.now ≡ limit_text self }
    {
        match self {
            LimitOf::File => "igvm: limit: file\n",
            LimitOf::List => "igvm: limit: list\n",
            LimitOf::Host => "igvm: limit: host\n",
            LimitOf::Blob => "igvm: limit: blob\n",
            LimitOf::Data => "igvm: limit: data\n",
            LimitOf::Image => "igvm: limit: image\n",
            LimitOf::Vmsa => "igvm: limit: vmsa\n",
            LimitOf::Elf => "igvm: limit: elf\n",
            LimitOf::Pages => "igvm: limit: pages\n",
            LimitOf::Platforms => "igvm: limit: platforms\n",
            LimitOf::Areas => "igvm: limit: areas\n",
        }
    }
}

impl From<AllocError> for Refusal {
    ghost from_gives = { λ _ given. given ≡ refusal.Memory };

    fn from(_error: AllocError) -> Refusal {
        Refusal::Memory
    }
}

impl Refusal {
    fn status(&self) -> Status
        ensures { result ≡ status_of self.now }
    {
        match self {
            Refusal::File(_) => Status::File,
            Refusal::Shelf => Status::Outside,
            Refusal::Output => Status::Outside,
            Refusal::Machine => Status::Outside,
            Refusal::Memory => Status::Memory,
            Refusal::Platform(_) => Status::Platform,
            Refusal::Json(_) => Status::Json,
            Refusal::Limit(_) => Status::Limit,
        }
    }

    fn text(&self) -> &str
        ensures { result.now ≡ text_of self.now }
    {
        match self {
            Refusal::File(line) => line.as_str(),
            Refusal::Shelf => "igvm: outside fault: shelf\n",
            Refusal::Output => "igvm: outside fault: output\n",
            Refusal::Machine => "igvm: outside fault: machine\n",
            Refusal::Memory => "igvm: want of memory\n",
            Refusal::Platform(line) => line.as_str(),
            Refusal::Json(line) => line.as_str(),
            Refusal::Limit(of) => of.text(),
        }
    }
}

/// The status of a job that ended so. A refusal's line is put; a failing error output changes no
/// status.
pub fn finish<E: Sink>(err: &mut E, end: &Result<Ended, Refusal>) -> Status
    ensures status { result ≡ end_status end.now }
    ensures text { EndIsPut E.Sink end.now err.old err.new }
{
    match end {
        Ok(ended) => ended.status(),
        Err(refusal) => {
            put_text(err, refusal.text());
            refusal.status()
        }
    }
}

/// Puts a text, or a front of it where the error output fails.
pub fn put_text<E: Sink>(err: &mut E, text: &str)
    ensures { IsPut E.Sink text.now err.old err.new }
{
    let _ = put_all(err, text.as_bytes());
}

/// Puts the text of a job that ends so.
pub fn put_end<O: Sink>(out: &mut O, ended: Ended, text: &[u8]) -> Result<Ended, Refusal>
    ensures { PutsEnd O.Sink ended text.now result out.old out.new }
{
    match put_all(out, text) {
        Ok(()) => Ok(ended),
        Err(_) => Err(Refusal::Output),
    }
}

/// A refusal with this line, where there was memory for it.
pub fn line_refusal(line: Result<String, AllocError>) -> Refusal
    ensures line { IfOk line (λ line. result ≡ Refusal.Json line) }
    ensures memory { IfErr line (λ e. result ≡ Refusal.Memory) }
{
    match line {
        Ok(line) => Refusal::Json(line),
        Err(_) => Refusal::Memory,
    }
}
