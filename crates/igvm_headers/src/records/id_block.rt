//! An SEV-SNP ID block (`igvm_defs`, IGVM_VHS_SNP_ID_BLOCK).
ghost use Rattle.std.specs.Prelude.{◌≡◌, ◌≤◌, ◌+◌, ◌++◌, length, vec_len, vec_capacity};
ghost use Rattle.igvm_headers.specs.Records.IdBlock.{id_block_form, id_block_fields};

use crate::fields::{append, append_u8, append_u32};
use crate::numbers::{array_at, u32_at};
use crate::{Digest, Header, HeaderFault};

/// The type.
pub(crate) const TYPE: u32 = 0x30B;

/// The size of a content, in bytes.
pub(crate) const SIZE: u32 = 696;

/// How many bytes at its end are carried unread: keys and signatures.
pub(crate) const TAIL_SIZE: u32 = 592;

/// The header of a content.
#[tactic(auto, unfolding(crate::specs::Records::IdBlock::id_block_form))]
pub(crate) fn read(content: &[u8]) -> Result<Header, HeaderFault>
    ensures { result ≡ id_block_form content.now }
{
    if content.len() != SIZE as usize {
        return Err(HeaderFault::Length);
    }
    Ok(Header::IdBlock {
        mask: u32_at(content, 0),
        author_enabled: content[4],
        ld: Digest::of_bytes(array_at(content, 8)),
        family_id: array_at(content, 56),
        image_id: array_at(content, 72),
        version: u32_at(content, 88),
        guest_svn: u32_at(content, 92),
        id_algorithm: u32_at(content, 96),
        author_algorithm: u32_at(content, 100),
    })
}

/// Appends the fields.
#[tactic(auto, unfolding(crate::specs::Records::IdBlock::id_block_fields))]
pub(crate) fn append_fields(
    out: &mut Vec<u8>,
    mask: u32,
    author_enabled: u8,
    ld: Digest,
    family_id: [u8; 16],
    image_id: [u8; 16],
    version: u32,
    guest_svn: u32,
    id_algorithm: u32,
    author_algorithm: u32,
)
    requires room { vec_len out.old + 104 ≤ vec_capacity out.old }
    ensures items { out.new.items ≡ out.old.items ++ id_block_fields mask author_enabled ld family_id image_id version guest_svn
        id_algorithm author_algorithm }
    ensures len { vec_len out.new ≡ vec_len out.old + 104 }
    ensures size { length (id_block_fields mask author_enabled ld family_id image_id version guest_svn
        id_algorithm author_algorithm) ≡ 104 }
    ensures capacity { vec_capacity out.old ≤ vec_capacity out.new }
{
    append_u32(out, mask);
    append_u8(out, author_enabled);
    append(out, &[0; 3]);
    append(out, ld.bytes());
    append(out, &family_id);
    append(out, &image_id);
    append_u32(out, version);
    append_u32(out, guest_svn);
    append_u32(out, id_algorithm);
    append_u32(out, author_algorithm);
}
