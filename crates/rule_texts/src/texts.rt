//! The words for each rule of docs/FORMAT.md.
ghost use Rattle.std.specs.Prelude.{◌≡◌};
ghost use Rattle.rule_texts.specs.RuleTexts.{rule_words};

use igvm_headers::ReadWhat;

/// The words for a rule, in ASCII, before the number that two of them have: an unknown type, and a flag bit.
pub fn rule_words(what: ReadWhat) -> &'static str
    ensures { result.now ≡ rule_words what }
{
    match what {
        ReadWhat::TooShort => "too short",
        ReadWhat::Magic => "magic",
        ReadWhat::Version => "version",
        ReadWhat::Aarch64 => "architecture aarch64",
        ReadWhat::Architecture => "architecture",
        ReadWhat::PageSize => "page size",
        ReadWhat::TotalSize => "total size",
        ReadWhat::Section => "section",
        ReadWhat::Checksum => "checksum",
        ReadWhat::HeaderCut => "header cut",
        ReadWhat::Length => "length",
        ReadWhat::DataType => "data type",
        ReadWhat::PlatformType => "platform type",
        ReadWhat::Order => "order",
        ReadWhat::Mask => "mask",
        ReadWhat::Align => "alignment",
        ReadWhat::AreaLimit => "too many areas",
        ReadWhat::AreaRepeated => "area repeated",
        ReadWhat::AreaUnknown => "area unknown",
        ReadWhat::AreaSize => "area size",
        ReadWhat::Wrap => "address wraps",
        ReadWhat::DataOutside => "data outside",
        ReadWhat::TooManyPages => "too many pages",
        ReadWhat::NoPlatform => "no platform",
        ReadWhat::UnknownType { .. } => "unknown type ",
        ReadWhat::Flags { .. } => "flag bit ",
    }
}
