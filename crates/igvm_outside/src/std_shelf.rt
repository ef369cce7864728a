//! Real files, through the runtime. What they hold is not told.
ghost use Rattle.std.specs.Prelude.{◌≡◌, ◌≤◌, None, IfOk, IfErr, length, drop};
ghost use Rattle.igvm_headers.specs.FaultCounts.{Rose};
ghost use Rattle.igvm_outside.specs.Files.{Nothing};

use crate::Shelf;
use igvm_headers::Failed;
use std::fs::File;
use std::io;
use std::io::{Read, Write};
use std::rt::Files;

/// The bytes of one read at most.
const CHUNK: usize = 65_536;

/// The file that is open.
#[derive(Drop)]
enum Stream<F> {
    Closed,
    Read(F),
    Write(F),
}

/// The files that a runtime reaches. They are written without a buffer that would hold bytes back.
#[derive(Drop)]
pub struct StdShelf<R: Files> {
    files: R,
    stream: Stream<R::File>,
    given: u64,
    faults: u64,
    space: [u8; CHUNK],
}

impl<R: Files> StdShelf<R> {
    /// The files of the runtime that `main` is given. Nothing is open.
    pub fn new(files: R) -> StdShelf<R>
        ensures { ⟦<StdShelf<R> as Shelf>⟧.state result ≡ Nothing }
    {
        StdShelf {
            files,
            stream: Stream::Closed,
            given: 0,
            faults: 0,
            space: [0; CHUNK],
        }
    }
}

// Counts a fault; the count stops at its last value.
fn fault(faults: &mut u64) -> Failed
    ensures rose { Rose faults.old faults.new }
    ensures counted { faults.old ≤ faults.new }
{
    *faults = faults.saturating_add(1);
    Failed
}

// Reads into a space of its own first, since a read may leave anything after the bytes that it
// answers.
fn read_some<F: Read>(file: &mut F, space: &mut [u8], buf: &mut [u8]) -> io::Result<usize>
    ensures within { IfOk result (λ n. n ≤ length buf.new) }
    ensures rest { IfOk result (λ n. drop n buf.new ≡ drop n buf.old) }
{
    let most = buf.len().min(space.len());
    let count = file.read(&mut space[..most])?;
    buf[..count].copy_from_slice(&space[..count]);
    Ok(count)
}

// Writes some of the bytes, at least one.
fn write_some<F: Write>(file: &mut F, piece: &[u8]) -> io::Result<usize>
    ensures some { IfOk result (λ n. 1 ≤ n) }
    ensures within { IfOk result (λ n. n ≤ length piece.now) }
{
    let count = file.write(piece)?;
    if count == 0 {
        return Err(io::ErrorKind::WriteZero.into());
    }
    file.flush()?;
    Ok(count)
}

impl<R: Files> Shelf for StdShelf<R> {
    ghost use Rattle.std.specs.Prelude.{None};
    ghost use Rattle.igvm_outside.specs.RealFiles.{state_of_stream};

    ghost told = { λ s. None };

    ghost state = { λ s. state_of_stream s.stream };

    ghost given = { λ s. s.given };

    // One count for all names.
    ghost read_faults = { λ s name. s.faults };

    ghost write_faults = { λ s name. s.faults };

    fn open_file(&mut self, name: &str) -> Result<(), Failed> {
        self.stream = Stream::Closed;
        match File::open(&self.files, name) {
            Ok(file) => {
                self.stream = Stream::Read(file);
                self.given = 0;
                Ok(())
            }
            Err(_) => Err(fault(&mut self.faults)),
        }
    }

    fn read(&mut self, name: &str, buf: &mut [u8]) -> Result<usize, Failed> {
        let answer = match &mut self.stream {
            Stream::Read(file) => read_some(file, &mut self.space, buf),
            _ => unreachable!(),
        };
        match answer {
            Ok(count) => {
                self.given += count as u64;
                Ok(count)
            }
            Err(_) => {
                self.stream = Stream::Closed;
                Err(fault(&mut self.faults))
            }
        }
    }

    fn create(&mut self, name: &str) -> Result<(), Failed> {
        self.stream = Stream::Closed;
        match File::create(&self.files, name) {
            Ok(file) => {
                self.stream = Stream::Write(file);
                Ok(())
            }
            Err(_) => Err(fault(&mut self.faults)),
        }
    }

    fn write(&mut self, name: &str, piece: &[u8]) -> Result<usize, Failed> {
        let answer = match &mut self.stream {
            Stream::Write(file) => write_some(file, piece),
            _ => unreachable!(),
        };
        match answer {
            Ok(count) => Ok(count),
            Err(_) => {
                self.stream = Stream::Closed;
                Err(fault(&mut self.faults))
            }
        }
    }

    fn close(&mut self, name: &str) -> Result<(), Failed> {
        let answer = match &mut self.stream {
            Stream::Write(file) => file.flush(),
            _ => unreachable!(),
        };
        self.stream = Stream::Closed;
        match answer {
            Ok(()) => Ok(()),
            Err(_) => Err(fault(&mut self.faults)),
        }
    }
}
