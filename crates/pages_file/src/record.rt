//! One record of the pages file, in a buffer that serves for each.
ghost use Rattle.std.specs.Prelude.{◌≡◌, ◌+◌, ◌≤◌, ◌++◌, length, take};
ghost use Rattle.pages_file.specs.PagesFile.{record_bytes};

use std::marker::Model;

/// The size of a record, in bytes.
const RECORD_SIZE: usize = 4112;

/// A record: 16 bytes of fields, and a page. Contracts see its bytes.
#[derive(Drop)]
pub(crate) struct Record {
    bytes: [u8; RECORD_SIZE],
}

impl Model for Record {
    ghost use Rattle.std.specs.Prelude.{List, ℕ};

    ghost Value = { List ℕ };

    ghost view = { λ r. r.bytes };
}

impl Record {
    /// A record of zeros.
    pub(crate) fn new() -> Record {
        Record {
            bytes: [0; RECORD_SIZE],
        }
    }

    /// Makes it the record of a page of 4,096 bytes.
    pub(crate) fn set(&mut self, gpa: u64, kind: u8, vp: u16, page: &[u8])
        requires { length page.now ≡ 4096 }
        ensures { self.new ≡ record_bytes gpa kind vp page.now }
    {
        put(&gpa.to_le_bytes(), 0, &mut self.bytes);
        put(&[kind, 0], 8, &mut self.bytes);
        put(&vp.to_le_bytes(), 10, &mut self.bytes);
        put(&[0; 4], 12, &mut self.bytes);
        put(page, 16, &mut self.bytes);
    }

    /// Its 4,112 bytes.
    pub(crate) fn bytes(&self) -> &[u8]
        ensures { result.now ≡ self.now }
    {
        &self.bytes
    }
}

/// Puts these bytes behind the first `at` ones, in the place of as many.
fn put(bytes: &[u8], at: usize, out: &mut [u8])
    requires { at + length bytes.now ≤ length out.old }
    ensures front { take (at + length bytes.now) out.new ≡ take at out.old ++ bytes.now }
    ensures size { length out.new ≡ length out.old }
{
    let end = at + bytes.len();
    out[at..end].copy_from_slice(bytes);
}
