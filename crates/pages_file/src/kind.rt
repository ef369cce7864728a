//! The number of a record's kind.
ghost use Rattle.std.specs.Prelude.{◌≡◌};
ghost use Rattle.pages_file.specs.PagesFile.{tag_number};

use igvm_headers::Tag;

/// The kind of a context.
pub(crate) const CONTEXT: u8 = 5;

/// The number of a page's kind, by its tag. 255 stands for none.
pub(crate) fn tag_number(tag: Option<Tag>) -> u8
    ensures { result ≡ tag_number tag }
{
    match tag {
        Some(Tag::Normal) => 0,
        Some(Tag::Unmeasured) => 1,
        Some(Tag::Secrets) => 2,
        Some(Tag::Cpuid) => 3,
        Some(Tag::Zero) => 4,
        None => 255,
    }
}
