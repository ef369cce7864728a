//! The bytes of a page.
ghost use Rattle.std.specs.Prelude.{◌≡◌, ◌≤◌, IfOk};
ghost use Rattle.made_list.specs.MadeList.{page_bytes};

use igvm_headers::Memory;
use std::alloc::Global;

/// The 4,096 bytes of page `k`.
#[tactic(auto, unfolding(crate::specs::MadeList::page_bytes))]
pub(crate) fn page_bytes(alloc: Global, k: u32) -> Result<Vec<u8>, Memory>
    requires { k ≤ 100000 }
    ensures { IfOk result (λ bytes. bytes.items ≡ page_bytes k) }
{
    let mut bytes = Vec::with_capacity(alloc, 4096)?;
    bytes.extend_from_slice(&k.to_le_bytes())?;
    'bytes: for j in 4..4096 {
        bytes.push(((k + j) % 251) as u8)?;
    }
    Ok(bytes)
}
