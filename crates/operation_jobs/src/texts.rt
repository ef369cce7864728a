//! What is said where an image isn't sealed: docs/PROGRAM.md.
ghost use Rattle.std.specs.Prelude.{◌≡◌, IfOk, string_bytes};
ghost use Rattle.operation_jobs.specs.OperationTexts.{no_id_block_text, no_seal_text};

use igvm_headers::{PlatformKind, kind_name};
use std::alloc::{AllocError, Global};

/// The line that says that platforms of a kind have no ID block.
pub(crate) fn no_seal_text(alloc: Global, kind: PlatformKind) -> Result<String, AllocError>
    ensures { IfOk result (λ text. string_bytes text ≡ no_seal_text kind) }
{
    let name = kind_name(kind);
    format!(in alloc; "igvm: no seal for {name}\n")
}

/// The line that says that no ID block counts for the platform.
pub(crate) fn no_id_block_text(alloc: Global) -> Result<String, AllocError>
    ensures { IfOk result (λ text. string_bytes text ≡ no_id_block_text) }
{
    String::from_str(alloc, "igvm: no id block\n")
}
