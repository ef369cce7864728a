//! The lines of the listing.
ghost use Rattle.std.specs.Prelude.{◌≡◌, ℕ, ◌≤◌, ◌+◌, ◌++◌, length};
ghost use Rattle.platform_masks.specs.Platforms.{platform_of};
ghost use Rattle.igvm_image.specs.PlacedView.{placed_view};
ghost use Rattle.dump_text.specs.Lines.{header_text};
ghost use Rattle.dump_text.specs.Listing.{added_text, first_line, fixed_line, numbered_line};

use crate::header_texts;
use igvm_headers::{FixedHeader, Header};
use igvm_image::{ImageView, Placed};
use line_buffer::LineBuffer;

/// 1 for a platform, and 0 for other headers.
pub(crate) fn platforms_in(header: &Header) -> u32
    ensures count { result ≡ length (platform_of 0 header.now) }
    ensures one { result ≤ 1 }
{
    match header {
        Header::Platform { .. } => 1,
        _ => 0,
    }
}

/// Adds the line for the whole.
pub(crate) fn push_first_line(text: &mut LineBuffer, view: &ImageView<'_>)
    requires { length text.old + 512 ≤ 16384 }
    ensures { text.new ≡ text.old ++ first_line view.now }
{
    push_fixed(text, &view.fixed(), view.header_count());
}

fn push_fixed(text: &mut LineBuffer, fixed: &FixedHeader, count: u32)
    requires { length text.old + 512 ≤ 16384 }
    ensures { text.new ≡ text.old ++ fixed_line fixed.now count }
{
    text.number("igvm version ", fixed.version as u64);
    text.number(" section ", fixed.var_offset as u64);
    text.number(" ", fixed.var_size as u64);
    text.number(" total ", fixed.total as u64);
    text.number(" headers ", count as u64);
    push_added(text, fixed.version);
    text.push(b"\n");
}

/// Adds what version 2 says besides: it is read for this architecture and with pages of this size alone.
fn push_added(text: &mut LineBuffer, version: u32)
    requires { length text.old + 27 ≤ 16384 }
    ensures text { text.new ≡ text.old ++ added_text version }
    ensures grown { length text.new ≤ length text.old + 27 }
{
    if version == 2 {
        text.push(b" architecture x64 page 4096");
    }
}

/// Adds the line of a header. The number is its own where it is a platform.
pub(crate) fn push_line(text: &mut LineBuffer, number: u32, placed: &Placed<'_>)
    requires { length text.old + 512 ≤ 16384 }
    ensures { text.new ≡ text.old ++ numbered_line number (placed_view placed.now) }
{
    text.number("", placed.index as u64);
    text.number(" at ", placed.at as u64);
    text.push(b" ");
    push_header(text, number, &placed.header);
    text.push(b"\n");
}

fn push_header(text: &mut LineBuffer, number: u32, header: &Header)
    requires { length text.old + 400 ≤ 16384 }
    ensures text { text.new ≡ text.old ++ header_text number header.now }
    ensures grown { length text.new ≤ length text.old + 400 }
{
    match header {
        Header::Platform {
            mask,
            highest_vtl,
            kind,
            version,
            shared_gpa,
        } => header_texts::platform(
            text,
            number,
            *mask,
            *highest_vtl,
            *kind,
            *version,
            *shared_gpa,
        ),
        Header::Policy { policy, mask } => header_texts::policy(text, *policy, *mask),
        Header::Area {
            bytes,
            area,
            offset,
        } => header_texts::area(text, *bytes, *area, *offset),
        Header::Page {
            gpa,
            mask,
            offset,
            large,
            unmeasured,
            kind,
        } => header_texts::page(text, *gpa, *mask, *offset, *large, *unmeasured, *kind),
        Header::Insert { gpa, mask, area } => header_texts::insert(text, *gpa, *mask, *area),
        Header::Param {
            kind,
            area,
            byte_offset,
        } => header_texts::parameter(text, *kind, *area, *byte_offset),
        Header::Context {
            gpa,
            mask,
            offset,
            vp,
        } => header_texts::context(text, *gpa, *mask, *offset, *vp),
        Header::Required {
            gpa,
            mask,
            bytes,
            flags,
        } => header_texts::required(text, *gpa, *mask, *bytes, *flags),
        Header::ErrorRange { gpa, mask, bytes } => header_texts::error_range(
            text, *gpa, *mask, *bytes,
        ),
        Header::IdBlock {
            mask,
            author_enabled,
            ld,
            family_id,
            image_id,
            version,
            guest_svn,
            id_algorithm,
            author_algorithm,
        } => header_texts::id_block(
            text,
            *mask,
            *author_enabled,
            ld,
            family_id,
            image_id,
            *version,
            *guest_svn,
            *id_algorithm,
            *author_algorithm,
        ),
        Header::Carried { kind, length } => header_texts::carried(text, *kind, *length),
    }
}
