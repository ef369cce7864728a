//! The image of a file: read whole, and judged.
ghost use Rattle.std.specs.Prelude.{◌≡◌, ℕ, List, ◌≤◌, length, IfOk, IfErr};
ghost use Rattle.igvm_outside.specs.Files.{IsUnwritten};
ghost use Rattle.igvm_outside.specs.ShelfCalls.{IsRead, OnlyReads};
ghost use Rattle.igvm_jobs.specs.declared.refusal.LimitOf.TheVariants as limit_of;
ghost use Rattle.igvm_jobs.specs.Outcome.{Outcome};
ghost use Rattle.igvm_jobs.specs.ImageFiles.{bytes_outcome, file_limit};
ghost use Rattle.igvm_jobs.specs.Refusals.{Refuses};
ghost use Rattle.igvm_jobs.specs.Endings.{IsNotRead};

use crate::file_reading::read_file;
use crate::refusal::{LimitOf, Refusal};
use crate::texts::fault_text;
use igvm_image::{ImageView, open_image};
use igvm_outside::Shelf;
use std::alloc::Global;

/// The most bytes that an image file may have.
const FILE_LIMIT: u64 = 536_870_912;

/// The bytes of an image file, or why there are none.
pub fn read_image<S: Shelf>(alloc: Global, file: &str, shelf: &mut S) -> Result<Vec<u8>, Refusal>
    ensures read { IfOk result (λ bytes.
        IsRead S.Shelf file.now file_limit bytes.items shelf.old shelf.new) }
    ensures refused { IfErr result (λ refusal.
        IsNotRead S.Shelf file.now file_limit limit_of.File refusal shelf.old shelf.new) }
    ensures only_reads { OnlyReads S.Shelf shelf.old shelf.new }
    ensures unwritten { IsUnwritten (S.state shelf.new) }
{
    read_file(alloc, shelf, file, FILE_LIMIT, LimitOf::File)
}

/// The image of a file's bytes, or the rule that they break.
#[tactic(auto, unfolding(crate::specs::ImageFiles::bytes_outcome))]
pub fn judge(alloc: Global, bytes: &[u8]) -> Result<ImageView<'_>, Refusal>
    requires { length bytes.now ≤ file_limit }
    ensures file { IfOk result (λ view. view ≡ bytes.now) }
    ensures accepted { (next : List ℕ → Outcome)
        → IfOk result (λ view. bytes_outcome next bytes.now ≡ next bytes.now) }
    ensures refused { (next : List ℕ → Outcome)
        → IfErr result (Refuses (bytes_outcome next bytes.now)) }
{
    match open_image(bytes) {
        Ok(view) => Ok(view),
        Err(fault) => Err(Refusal::File(fault_text(alloc, fault)?)),
    }
}
