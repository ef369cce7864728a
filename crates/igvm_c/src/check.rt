//! `igvm_check`: whether a file breaks no rule, and else the first that it breaks.
ghost use Rattle.std.specs.Prelude.{◌≡◌};
ghost use Rattle.igvm_c.specs.Faults.{check_status, checked_fault};
ghost use Rattle.igvm_c.specs.Files.{file_refusal};

use crate::fault::{Fault, told_fault};
use crate::file::FILE_LIMIT;
use crate::refusal::Refusal;
use igvm_image::open_image;

/// Judges a file: 0 where it breaks no rule of docs/FORMAT.md; `Rule` where it breaks one, with the first in
/// `fault`; `TooLong` where it has more than 536,870,912 bytes.
#[unsafe(no_mangle)]
pub extern "C" fn igvm_check(file: &[u8], fault: &mut Fault) -> u32
    ensures status { result ≡ check_status (file_refusal file.now) }
    ensures fault { fault.new ≡ checked_fault file.now fault.old }
{
    if file.len() > FILE_LIMIT {
        return Refusal::TooLong.status();
    }
    match open_image(file) {
        Ok(_) => 0,
        Err(first) => {
            *fault = told_fault(first);
            Refusal::Rule.status()
        }
    }
}
