//! The rules of the reader as numbers.
ghost use Rattle.std.specs.Prelude.{◌≡◌, ◌==◌, find};
ghost use Rattle.igvm_c.specs.Rules.{number_named, rule_number, rule_of};

use igvm_headers::ReadWhat;

/// The number of a rule, from 1 on.
pub(crate) fn rule_number(what: ReadWhat) -> u32
    ensures { result ≡ rule_number what }
{
    match what {
        ReadWhat::TooShort => 1,
        ReadWhat::Magic => 2,
        ReadWhat::Version => 3,
        ReadWhat::Aarch64 => 4,
        ReadWhat::Architecture => 5,
        ReadWhat::PageSize => 6,
        ReadWhat::TotalSize => 7,
        ReadWhat::Section => 8,
        ReadWhat::Checksum => 9,
        ReadWhat::HeaderCut => 10,
        ReadWhat::UnknownType { .. } => 11,
        ReadWhat::Length => 12,
        ReadWhat::Flags { .. } => 13,
        ReadWhat::DataType => 14,
        ReadWhat::PlatformType => 15,
        ReadWhat::Order => 16,
        ReadWhat::Mask => 17,
        ReadWhat::Align => 18,
        ReadWhat::AreaLimit => 19,
        ReadWhat::AreaRepeated => 20,
        ReadWhat::AreaUnknown => 21,
        ReadWhat::AreaSize => 22,
        ReadWhat::Wrap => 23,
        ReadWhat::DataOutside => 24,
        ReadWhat::TooManyPages => 25,
        ReadWhat::NoPlatform => 26,
    }
}

/// The number that a rule names: the unknown type, or the flag's bit; 0 of all others.
pub(crate) fn number_named(what: ReadWhat) -> u32
    ensures { result ≡ number_named what }
{
    match what {
        ReadWhat::UnknownType { kind } => kind,
        ReadWhat::Flags { bit } => bit,
        _ => 0,
    }
}

/// All rules, in the order of their numbers; what one names is 0.
const ALL: [ReadWhat; 26] = [
    ReadWhat::TooShort,
    ReadWhat::Magic,
    ReadWhat::Version,
    ReadWhat::Aarch64,
    ReadWhat::Architecture,
    ReadWhat::PageSize,
    ReadWhat::TotalSize,
    ReadWhat::Section,
    ReadWhat::Checksum,
    ReadWhat::HeaderCut,
    ReadWhat::UnknownType { kind: 0 },
    ReadWhat::Length,
    ReadWhat::Flags { bit: 0 },
    ReadWhat::DataType,
    ReadWhat::PlatformType,
    ReadWhat::Order,
    ReadWhat::Mask,
    ReadWhat::Align,
    ReadWhat::AreaLimit,
    ReadWhat::AreaRepeated,
    ReadWhat::AreaUnknown,
    ReadWhat::AreaSize,
    ReadWhat::Wrap,
    ReadWhat::DataOutside,
    ReadWhat::TooManyPages,
    ReadWhat::NoPlatform,
];

/// The rule of a number, where there is one.
pub(crate) fn rule_of(number: u32) -> Option<ReadWhat>
    ensures { result ≡ rule_of number }
{
    numbered(&ALL, number)
}

fn numbered(rules: &[ReadWhat], number: u32) -> Option<ReadWhat>
    ensures { result ≡ find (λ rule. rule_number rule == number) rules.now }
{
    rules
        .iter()
        .copied()
        .find(|rule| rule_number(*rule) == number)
}
