//! A page of an image (`igvm_defs`, IGVM_VHS_PAGE_DATA, with IgvmPageDataFlags: bit 0 a 2 MB page, bit 1
//! unmeasured).
ghost use Rattle.std.specs.Prelude.{◌≡◌, ◌≤◌, ◌<◌, ◌+◌, ◌++◌, length, vec_len, vec_capacity};
ghost use Rattle.igvm_headers.specs.Records.Page.{page_form, page_fields};
ghost use Rattle.igvm_headers.specs.Records.Fields.{is_set};
ghost use Rattle.igvm_headers.specs.Records.Page.{least_set, page_flags};

use crate::fields::{append, append_u16, append_u32, append_u64};
use crate::numbers::{u16_at, u32_at, u64_at};
use crate::{Header, HeaderFault, PageKind};

/// The type.
pub(crate) const TYPE: u32 = 0x302;

/// The size of a content, in bytes.
pub(crate) const SIZE: u32 = 24;

/// The header of a content: its flags are judged before its data type.
#[tactic(auto, unfolding(crate::specs::Records::Page::page_form))]
pub(crate) fn read(content: &[u8]) -> Result<Header, HeaderFault>
    ensures { result ≡ page_form content.now }
{
    if content.len() != SIZE as usize {
        return Err(HeaderFault::Length);
    }
    let flags = u32_at(content, 16);
    if let Some(bit) = least_unknown_flag(flags) {
        return Err(HeaderFault::Flags { bit });
    }
    let large = is_flag_set(flags, 0);
    let data_type = u16_at(content, 20);
    let Some(kind) = PageKind::from_data_type(data_type) else {
        return Err(HeaderFault::DataType);
    };
    if large && data_type != 0 {
        return Err(HeaderFault::DataType);
    }
    Ok(Header::Page {
        gpa: u64_at(content, 0),
        mask: u32_at(content, 8),
        offset: u32_at(content, 12),
        large,
        unmeasured: is_flag_set(flags, 1),
        kind,
    })
}

fn is_flag_set(flags: u32, bit: u32) -> bool
    requires { bit < 32 }
    ensures { result ≡ is_set bit flags }
{
    (flags >> bit) % 2 == 1
}

/// The least flag that is set and that no page has.
#[tactic(auto, using(crate::proofs::Bits::least_set_here, crate::proofs::Bits::least_set_behind, crate::proofs::Bits::least_set_past))]
fn least_unknown_flag(flags: u32) -> Option<u32>
    ensures { result ≡ least_set 30 2 flags }
{
    'bits: for bit in 2..32 {
        if is_flag_set(flags, bit) {
            return Some(bit);
        }
    }
    None
}

/// The flags of a page.
fn flags_of(large: bool, unmeasured: bool) -> u32
    ensures { result ≡ page_flags large unmeasured }
{
    u32::from(large) + 2 * u32::from(unmeasured)
}

/// Appends the fields.
#[tactic(auto, unfolding(crate::specs::Records::Page::page_fields))]
pub(crate) fn append_fields(
    out: &mut Vec<u8>,
    gpa: u64,
    mask: u32,
    offset: u32,
    large: bool,
    unmeasured: bool,
    kind: PageKind,
)
    requires room { vec_len out.old + 24 ≤ vec_capacity out.old }
    ensures items { out.new.items ≡ out.old.items ++ page_fields gpa mask offset large unmeasured kind }
    ensures len { vec_len out.new ≡ vec_len out.old + 24 }
    ensures size { length (page_fields gpa mask offset large unmeasured kind) ≡ 24 }
    ensures capacity { vec_capacity out.old ≤ vec_capacity out.new }
{
    append_u64(out, gpa);
    append_u32(out, mask);
    append_u32(out, offset);
    append_u32(out, flags_of(large, unmeasured));
    append_u16(out, kind.data_type());
    append(out, &[0; 2]);
}
