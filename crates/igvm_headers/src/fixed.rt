//! The fixed header (`igvm_defs`, IGVM_FIXED_HEADER), of format versions 1 and 2.
ghost use Rattle.std.specs.Prelude.{◌≡◌, ◌≤◌, ◌<◌, ◌+◌, length, IfOk, IfNone};
ghost use Rattle.igvm_headers.specs.Numbers.{number_at};
ghost use Rattle.igvm_headers.specs.Fixed.{added_fault, added_field, fixed_fault, fixed_fields, fixed_form, fixed_size};

use crate::numbers::u32_at;
use crate::{ReadFault, ReadWhat};

/// The bytes of `IGVM` as a number.
const MAGIC: u32 = 0x4D56_4749;

/// The architecture X64.
const X64: u32 = 0;

/// The architecture AArch64.
const AARCH64: u32 = 1;

/// The one page size that is read, in bytes.
const PAGE_SIZE: u32 = 4096;

/// The fixed header's fields behind the magic. Offsets and sizes are in bytes. What version 1 has not
/// is as if it had: architecture 0, which is X64, and pages of 4,096 bytes.
#[derive(Clone, Copy, Debug, PartialEq, Eq)]
pub struct FixedHeader {
    pub version: u32,
    pub var_offset: u32,
    pub var_size: u32,
    pub total: u32,
    pub checksum: u32,
    pub architecture: u32,
    pub page_size: u32,
}

impl FixedHeader {
    ghost use Rattle.igvm_headers.specs.Fixed.{fixed_size};

    /// The size in bytes of the fixed header itself: 24 in version 1, and 32 in version 2.
    pub fn size(&self) -> u32
        ensures value { result ≡ fixed_size self.now.version }
        ensures within { result ≤ 32 }
        ensures some { 24 ≤ result }
    {
        if self.version == 2 { 32 } else { 24 }
    }
}

/// The fields of the fixed header, or the first of: fewer than 24 bytes, another magic than `IGVM`,
/// another version than 1 and 2; and in version 2 fewer than 32 bytes, another architecture than X64,
/// another page size than 4,096.
#[tactic(auto, unfolding(crate::specs::Fixed::fixed_form))]
pub fn read_fixed(bytes: &[u8]) -> Result<FixedHeader, ReadFault>
    ensures form { result ≡ fixed_form bytes.now }
    ensures whole { IfOk result (λ fixed. fixed_size fixed.version ≤ length bytes.now) }
{
    if let Some(fault) = fixed_fault(bytes) {
        return Err(fault);
    }
    Ok(FixedHeader {
        version: u32_at(bytes, 4),
        var_offset: u32_at(bytes, 8),
        var_size: u32_at(bytes, 12),
        total: u32_at(bytes, 16),
        checksum: u32_at(bytes, 20),
        architecture: added_field(bytes, 24, X64),
        page_size: added_field(bytes, 28, PAGE_SIZE),
    })
}

/// The first rule on the fixed header that fails.
#[tactic(auto, unfolding(crate::specs::Fixed::fixed_fault))]
fn fixed_fault(bytes: &[u8]) -> Option<ReadFault>
    ensures fault { result ≡ fixed_fault bytes.now }
    ensures front { IfNone result (24 ≤ length bytes.now) }
    ensures whole { IfNone result (fixed_size (number_at 4 4 bytes.now) ≤ length bytes.now) }
{
    if bytes.len() < 24 {
        return fault_at(bytes.len() as u32, ReadWhat::TooShort);
    }
    if u32_at(bytes, 0) != MAGIC {
        return fault_at(0, ReadWhat::Magic);
    }
    match u32_at(bytes, 4) {
        1 => None,
        2 => added_fault(bytes),
        _ => fault_at(4, ReadWhat::Version),
    }
}

/// The first rule on what version 2 adds that fails.
#[tactic(auto, unfolding(crate::specs::Fixed::added_fault))]
fn added_fault(bytes: &[u8]) -> Option<ReadFault>
    requires { 24 ≤ length bytes.now }
    ensures fault { result ≡ added_fault bytes.now }
    ensures whole { IfNone result (32 ≤ length bytes.now) }
{
    if bytes.len() < 32 {
        return fault_at(bytes.len() as u32, ReadWhat::TooShort);
    }
    match u32_at(bytes, 24) {
        X64 => {}
        AARCH64 => return fault_at(24, ReadWhat::Aarch64),
        _ => return fault_at(24, ReadWhat::Architecture),
    }
    if u32_at(bytes, 28) != PAGE_SIZE {
        return fault_at(28, ReadWhat::PageSize);
    }
    None
}

/// The number that version 2 has at a place, or what stands for it in version 1.
fn added_field(bytes: &[u8], at: usize, default: u32) -> u32
    requires front { 24 ≤ length bytes.now }
    requires whole { number_at 4 4 bytes.now ≡ 2 → at + 4 ≤ length bytes.now }
    ensures { result ≡ added_field default at bytes.now }
{
    if u32_at(bytes, 4) == 2 {
        u32_at(bytes, at)
    } else {
        default
    }
}

fn fault_at(at: u32, what: ReadWhat) -> Option<ReadFault>
    ensures { result ≡ Some (record { at = at; what = what }) }
{
    Some(ReadFault { at, what })
}

#[cfg(test)]
mod tests {
    use super::*;

    /// The fixed header of version 2 with its fields as they may be.
    const VERSION_2: [u8; 32] =
        *b"IGVM\x02\0\0\0\x20\0\0\0\x18\0\0\0\x38\0\0\0\xEF\xBE\xAD\xDE\0\0\0\0\0\x10\0\0";

    /// The same with another byte at a place.
    fn with_byte(at: usize, byte: u8) -> [u8; 32]
        requires { at < 32 }
    {
        let mut bytes = VERSION_2;
        bytes[at] = byte;
        bytes
    }

    #[test]
    fn names_the_first_rule_that_fails(rt: HostRuntime) {
        let version_9 = with_byte(4, 9);
        let zeros = [0; 24];
        for (bytes, at, what) in [
            (&zeros[..0], 0, ReadWhat::TooShort),
            (&version_9[..23], 23, ReadWhat::TooShort),
            (&zeros[..], 0, ReadWhat::Magic),
            (&version_9[..], 4, ReadWhat::Version),
            (&with_byte(4, 0)[..], 4, ReadWhat::Version),
            (&with_byte(4, 3)[..], 4, ReadWhat::Version),
            (&VERSION_2[..24], 24, ReadWhat::TooShort),
            (&VERSION_2[..28], 28, ReadWhat::TooShort),
            (&VERSION_2[..31], 31, ReadWhat::TooShort),
            (&with_byte(24, 1)[..], 24, ReadWhat::Aarch64),
            (&with_byte(24, 2)[..], 24, ReadWhat::Architecture),
            (&with_byte(27, 1)[..], 24, ReadWhat::Architecture),
            (&with_byte(28, 1)[..], 28, ReadWhat::PageSize),
            (&with_byte(29, 0)[..], 28, ReadWhat::PageSize),
        ] {
            assert_eq!(rt; read_fixed(bytes), Err(ReadFault { at, what }));
        }
    }

    #[test]
    fn reads_each_field(rt: HostRuntime) {
        let bytes = b"IGVM\x01\0\0\0\x18\0\0\0\x90\x02\0\0\xA8\xA2\0\0\xEF\xBE\xAD\xDE and more";
        let first = FixedHeader {
            version: 1,
            var_offset: 24,
            var_size: 656,
            total: 41_640,
            checksum: 0xDEAD_BEEF,
            architecture: 0,
            page_size: 4096,
        };
        let second = FixedHeader {
            version: 2,
            var_offset: 32,
            var_size: 24,
            total: 56,
            checksum: 0xDEAD_BEEF,
            architecture: 0,
            page_size: 4096,
        };
        assert_eq!(rt; read_fixed(bytes), Ok(first));
        assert_eq!(rt; first.size(), 24);
        assert_eq!(rt; read_fixed(&VERSION_2), Ok(second));
        assert_eq!(rt; second.size(), 32);
    }
}
