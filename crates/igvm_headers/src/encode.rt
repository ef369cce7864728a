//! One variable header as bytes (`igvm_defs`, IGVM_VHS_VARIABLE_HEADER).
ghost use Rattle.std.specs.Prelude.{◌≡◌, ◌≤◌, ◌<◌, ◌+◌, ◌++◌, length, OnOk, OnErr, vec_len, vec_capacity};
ghost use Rattle.igvm_headers.specs.HeaderFacts.{content_size, tail_size};
ghost use Rattle.igvm_headers.specs.Spelling.{header_fields, padding_size, spelled};
ghost use Rattle.igvm_headers.specs.SpellingConditions.{TailFits, LargeIsNormal, KindIsCarried};

use crate::fields::{append, append_u32};
use crate::laws::numbers_fit;
use crate::records::{
    area, context, error_range, id_block, insert, page, param, platform, policy, required,
};
use crate::{Header, Memory};

/// Appends a header, with zeros in reserved fields and up to a multiple of 8. The tail is what the
/// header carries unread: the last 592 bytes of an ID block, all of a carried header, nothing of
/// others.
#[tactic(auto, unfolding(crate::specs::Spelling::spelled))]
pub fn encode_header(h: &Header, tail: &[u8], out: &mut Vec<u8>) -> Result<(), Memory>
    requires tail_fits { TailFits h.now tail.now }
    requires large_is_normal { LargeIsNormal h.now }
    requires kind_is_carried { KindIsCarried h.now }
    ensures spelled { OnOk result (out.new.items ≡ out.old.items ++ spelled h.now tail.now) }
    ensures kept { OnErr result (out.new.items ≡ out.old.items) }
    // It is refused only where the vector has no room and gets none.
    ensures full { OnErr result
        (vec_capacity out.old < vec_len out.old + length (spelled h.now tail.now)) }
{
    // A law: nothing runs.
    numbers_fit(*h);
    let length = h.content_size();
    let padding = padding_of(length);
    out.reserve(8 + length as usize + padding)?;
    append_u32(out, h.header_type());
    append_u32(out, length);
    append_fields(h, out);
    append(out, tail);
    append(out, &[0; 7][..padding]);
    Ok(())
}

/// Appends the header's fields, with zeros where they are reserved.
#[tactic(auto, unfolding(crate::specs::Spelling::header_fields))]
fn append_fields(h: &Header, out: &mut Vec<u8>)
    requires room { vec_len out.old + content_size h.now ≤ vec_capacity out.old + tail_size h.now }
    ensures items { out.new.items ≡ out.old.items ++ header_fields h.now }
    ensures len { vec_len out.new + tail_size h.now ≡ vec_len out.old + content_size h.now }
    ensures size { length (header_fields h.now) + tail_size h.now ≡ content_size h.now }
    ensures capacity { vec_capacity out.old ≤ vec_capacity out.new }
{
    match *h {
        Header::Platform {
            mask,
            highest_vtl,
            kind,
            version,
            shared_gpa,
        } => platform::append_fields(out, mask, highest_vtl, kind, version, shared_gpa),
        Header::Policy { policy, mask } => policy::append_fields(out, policy, mask),
        Header::Area {
            bytes,
            area,
            offset,
        } => area::append_fields(out, bytes, area, offset),
        Header::Page {
            gpa,
            mask,
            offset,
            large,
            unmeasured,
            kind,
        } => page::append_fields(out, gpa, mask, offset, large, unmeasured, kind),
        Header::Insert { gpa, mask, area } => insert::append_fields(out, gpa, mask, area),
        Header::Param {
            area,
            byte_offset,
            ..
        } => param::append_fields(out, area, byte_offset),
        Header::Context {
            gpa,
            mask,
            offset,
            vp,
        } => context::append_fields(out, gpa, mask, offset, vp),
        Header::Required {
            gpa,
            mask,
            bytes,
            flags,
        } => required::append_fields(out, gpa, mask, bytes, flags),
        Header::ErrorRange { gpa, mask, bytes } => {
            error_range::append_fields(out, gpa, mask, bytes)
        }
        Header::IdBlock {
            mask,
            author_enabled,
            ld,
            family_id,
            image_id,
            version,
            guest_svn,
            id_algorithm,
            author_algorithm,
        } => id_block::append_fields(
            out,
            mask,
            author_enabled,
            ld,
            family_id,
            image_id,
            version,
            guest_svn,
            id_algorithm,
            author_algorithm,
        ),
        Header::Carried { .. } => {}
    }
}

/// How many bytes are missing up to a multiple of 8.
fn padding_of(length: u32) -> usize
    ensures value { result ≡ padding_size length }
    ensures few { result ≤ 7 }
{
    (8 - length as usize % 8) % 8
}

#[cfg(test)]
mod tests;
