//! Where everything stands in the image of a list, and how large it is.
ghost use Rattle.std.specs.Prelude.{◌≡◌, List, ℕ, [], ◌++◌, IfOk, OnOk};
ghost use Rattle.std.specs.List.{AllByRecursion, fold};
ghost use Rattle.igvm_headers.specs.SpellingConditions.{IsSpellable};
ghost use Rattle.image_builder.specs.DistinctContents.{stored};
ghost use Rattle.image_builder.specs.ContentIndex.{kept_with, saturated};
ghost use Rattle.image_builder.specs.Layout.{kept_contents, offset_among};
ghost use Rattle.image_builder.specs.Plans.{IsPlan, in_version, offsets_in};

use crate::contents::Contents;
use crate::fixed_header::fixed_size;
use crate::sizes::section_size;
use component_list::{Component, Content};
use igvm_headers::Memory;
use std::alloc::Global;

/// The format's version, the section's size, the file offset of each component's content, and the contents to write.
/// Numbers past 64 bits stop at the greatest.
#[derive(Drop)]
pub(crate) struct Plan<'a> {
    pub(crate) version: u32,
    pub(crate) section: u64,
    pub(crate) offsets: Vec<u64>,
    pub(crate) contents: Contents<'a>,
}

impl<'a> Plan<'a> {
    /// The plan of these components in a version of the format.
    pub(crate) fn of(
        alloc: Global,
        version: u32,
        parts: &'a [Component],
    ) -> Result<Plan<'a>, Memory>
        requires { AllByRecursion (λ c. IsSpellable c.header c.tail) parts.now }
        ensures planned { IfOk result (λ plan. IsPlan plan.section plan.offsets.items plan.contents
            (in_version plan.version parts.now)) }
        ensures version { IfOk result (λ plan. plan.version ≡ version) }
    {
        let section = section_size(parts);
        let start = section.saturating_add(u64::from(fixed_size(version)));
        let mut contents = Contents::new(alloc, start);
        let offsets = place_all(alloc, parts, &mut contents)?;
        Ok(Plan {
            version,
            section,
            offsets,
            contents,
        })
    }
}

/// Places the contents of all components in an empty row, and answers their file offsets.
fn place_all<'a>(
    alloc: Global,
    parts: &'a [Component],
    row: &mut Contents<'a>,
) -> Result<Vec<u64>, Memory>
    requires { row.old.kept ≡ [] }
    ensures kept { OnOk result (row.new.kept ≡ kept_contents parts.now) }
    ensures start { row.new.start ≡ row.old.start }
    ensures offsets { IfOk result (λ offsets.
        offsets.items ≡ offsets_in row.old.start (kept_contents parts.now) parts.now) }
{
    let mut offsets = Vec::with_capacity(alloc, parts.len())?;
    'parts: for component in parts {
        let offset = place(&component.content, row)?;
        offsets.push(offset)?;
    }
    Ok(offsets)
}

/// Places a content, and answers its file offset, which is 0 where the file holds none of it.
fn place<'a>(content: &'a Content, row: &mut Contents<'a>) -> Result<u64, Memory>
    ensures kept { OnOk result (row.new.kept ≡ fold kept_with row.old.kept (stored content.now)) }
    ensures start { row.new.start ≡ row.old.start }
    // What comes behind changes nothing of it.
    ensures offset { IfOk result (λ offset. (more : List (List ℕ)) → offset
        ≡ saturated (offset_among row.old.start (row.new.kept ++ more) content.now)) }
{
    match content {
        Content::Bytes(blob) => row.place(blob.bytes()),
        Content::Nothing => Ok(0),
        Content::Zero => Ok(0),
    }
}
