//! The bytes of the context.
ghost use Rattle.std.specs.Prelude.{◌≡◌, IfOk};
ghost use Rattle.made_list.specs.MadeList.{context_bytes};

use igvm_headers::Memory;
use std::alloc::Global;

/// The 4,096 bytes of the context.
#[tactic(auto, unfolding(crate::specs::MadeList::context_bytes))]
pub(crate) fn context_bytes(alloc: Global) -> Result<Vec<u8>, Memory>
    ensures { IfOk result (λ bytes. bytes.items ≡ context_bytes) }
{
    let mut bytes = Vec::with_capacity(alloc, 4096)?;
    'bytes: for j in 0..4096u32 {
        bytes.push((j % 256) as u8)?;
    }
    Ok(bytes)
}
