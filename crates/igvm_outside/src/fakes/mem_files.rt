//! The files that a shelf in memory keeps.
ghost use Rattle.std.specs.Prelude.{◌≡◌, ◌+◌, ◌-◌, ◌++◌, ◌<◌, ◌≤◌, min, None, OnOk, OnErr, IfOk, MatchOption, length, take, drop};
ghost use Rattle.std.specs.FinMap as map;
ghost use Rattle.igvm_outside.specs.Files.{content};
ghost use Rattle.igvm_outside.specs.MemFiles.{entries, files_of, name_at, IsFileAt};
ghost use Rattle.igvm_outside.specs.Script.{portion};

use crate::fakes::fake_script::FakeScript;
use std::alloc::{AllocError, Global};

/// A file by its name, which is bytes of a text.
#[derive(Drop)]
pub struct KeptFile {
    pub name: Vec<u8>,
    pub bytes: Vec<u8>,
}

/// What is open, by the file's index.
#[derive(Clone, Copy)]
pub enum Turn {
    Closed,
    Read { file: usize, place: usize },
    Write { file: usize },
}

/// Where the first file of a name stands.
pub fn index_of(files: &[KeptFile], name: &str) -> Option<usize>
    ensures { MatchOption result (map.get (files_of files.now) name.now ≡ None)
        (IsFileAt files.now name.now) }
{
    'files: for (at, file) in files.iter().enumerate() {
        if file.name.as_slice() == name.as_bytes() {
            return Some(at);
        }
    }
    None
}

/// Keeps a file with these bytes, in place of one of this name, and answers where.
pub fn keep(
    alloc: Global,
    files: &mut Vec<KeptFile>,
    name: &str,
    bytes: Vec<u8>,
) -> Result<usize, AllocError>
    ensures place { IfOk result (IsFileAt files.new.items name.now) }
    ensures kept { OnOk result (files_of files.new.items
        ≡ map.insert (files_of files.old.items) name.now bytes.items) }
    ensures refused { OnErr result (files.new.items ≡ files.old.items) }
{
    match index_of(files, name) {
        Some(at) => {
            files[at].bytes = bytes;
            Ok(at)
        }
        None => add(alloc, files, name, bytes),
    }
}

// Keeps a file of a new name after the others.
fn add(
    alloc: Global,
    files: &mut Vec<KeptFile>,
    name: &str,
    bytes: Vec<u8>,
) -> Result<usize, AllocError>
    requires { map.get (files_of files.old.items) name.now ≡ None }
    ensures place { IfOk result (IsFileAt files.new.items name.now) }
    ensures kept { OnOk result (files_of files.new.items
        ≡ map.insert (files_of files.old.items) name.now bytes.items) }
    ensures refused { OnErr result (files.new.items ≡ files.old.items) }
{
    let at = files.len();
    let mut own_name = Vec::new(alloc);
    own_name.extend_from_slice(name.as_bytes())?;
    files.push(KeptFile {
        name: own_name,
        bytes,
    })?;
    Ok(at)
}

/// Puts a piece after the bytes of the first file of its name.
pub fn append(files: &mut [KeptFile], at: usize, piece: &[u8]) -> Result<(), AllocError>
    requires { IsFileAt files.old (name_at files.old at) at }
    ensures place { IsFileAt files.new (name_at files.old at) at }
    ensures longer { OnOk result (files_of files.new
        ≡ map.insert (files_of files.old) (name_at files.old at)
        (content (files_of files.old) (name_at files.old at) ++ piece.now)) }
    ensures refused { OnErr result (entries files.new ≡ entries files.old) }
{
    files[at].bytes.extend_from_slice(piece)?;
    Ok(())
}

/// Copies the bytes of a file from a place on: as many as the script moves at once, as fit and as
/// are left.
pub fn give(bytes: &[u8], place: usize, script: &FakeScript, buf: &mut [u8]) -> usize
    requires { place ≤ length bytes.now }
    ensures count { result ≡ portion script.now.piece
        (min (length buf.old) (length bytes.now - place)) }
    ensures within { result ≤ length buf.new }
    ensures inside { place + result ≤ length bytes.now }
    ensures bytes { take result buf.new ≡ take result (drop place bytes.now) }
    ensures rest { drop result buf.new ≡ drop result buf.old }
    ensures end { result ≡ 0 → 0 < length buf.old → length bytes.now ≤ place }
{
    let rest = &bytes[place..];
    let count = script.portion(buf.len().min(rest.len()));
    buf[..count].copy_from_slice(&rest[..count]);
    count
}
