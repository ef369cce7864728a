//! The file that a call is given, which each call judges itself.
ghost use Rattle.std.specs.Prelude.{◌≡◌, ◌≤◌, IfErr, IfOk, OnOk, None, Some, length};
ghost use Rattle.igvm_c.specs.Files.{file_limit, file_refusal};

use crate::refusal::Refusal;
use igvm_image::{ImageView, open_image};

/// The longest file that is read, in bytes.
pub(crate) const FILE_LIMIT: usize = 536_870_912;

/// Reads a file: Ok where it is within the limit and breaks no rule.
pub(crate) fn open(file: &[u8]) -> Result<ImageView<'_>, Refusal>
    ensures view { IfOk result (λ view. view ≡ file.now) }
    ensures accepted { OnOk result (file_refusal file.now ≡ None) }
    ensures refused { IfErr result (λ refusal. file_refusal file.now ≡ Some refusal) }
{
    if file.len() > FILE_LIMIT {
        return Err(Refusal::TooLong);
    }
    match open_image(file) {
        Ok(view) => Ok(view),
        Err(_) => Err(Refusal::Rule),
    }
}
