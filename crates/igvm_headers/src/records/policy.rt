//! The guest policy (`igvm_defs`, IGVM_VHS_GUEST_POLICY).
ghost use Rattle.std.specs.Prelude.{◌≡◌, ◌≤◌, ◌+◌, ◌++◌, length, vec_len, vec_capacity};
ghost use Rattle.igvm_headers.specs.Records.Policy.{policy_form, policy_fields};

use crate::fields::{append, append_u32, append_u64};
use crate::numbers::{u32_at, u64_at};
use crate::{Header, HeaderFault};

/// The type.
pub(crate) const TYPE: u32 = 0x101;

/// The size of a content, in bytes.
pub(crate) const SIZE: u32 = 16;

/// The header of a content.
#[tactic(auto, unfolding(crate::specs::Records::Policy::policy_form))]
pub(crate) fn read(content: &[u8]) -> Result<Header, HeaderFault>
    ensures { result ≡ policy_form content.now }
{
    if content.len() != SIZE as usize {
        return Err(HeaderFault::Length);
    }
    Ok(Header::Policy {
        policy: u64_at(content, 0),
        mask: u32_at(content, 8),
    })
}

/// Appends the fields.
#[tactic(auto, unfolding(crate::specs::Records::Policy::policy_fields))]
pub(crate) fn append_fields(out: &mut Vec<u8>, policy: u64, mask: u32)
    requires room { vec_len out.old + 16 ≤ vec_capacity out.old }
    ensures items { out.new.items ≡ out.old.items ++ policy_fields policy mask }
    ensures len { vec_len out.new ≡ vec_len out.old + 16 }
    ensures size { length (policy_fields policy mask) ≡ 16 }
    ensures capacity { vec_capacity out.old ≤ vec_capacity out.new }
{
    append_u64(out, policy);
    append_u32(out, mask);
    append(out, &[0; 4]);
}
