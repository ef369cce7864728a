//! Headers that are carried as bytes (`igvm_defs`, IGVM_VHT_*: initialization and directives that this
//! toolset doesn't read, and types with bit 31 set).
ghost use Rattle.std.specs.Prelude.{◌≡◌, ◌≤◌, ◌<◌, ◌^◌, length};
ghost use Rattle.igvm_headers.specs.HeaderFacts.{carried_class};
ghost use Rattle.igvm_headers.specs.Records.Carried.{carried_form, is_carried};

use crate::{Header, HeaderFault};

/// A type that is carried as bytes.
pub fn is_carried(kind: u32) -> bool
    ensures { result ≡ is_carried kind }
{
    kind == 0x102 || kind == 0x103 || kind == 0x311 || kind >= 0x8000_0000
}

/// The header of a type and a content; every other type is unknown.
#[tactic(auto, unfolding(crate::specs::Records::Carried::carried_form))]
pub(crate) fn read(kind: u32, content: &[u8]) -> Result<Header, HeaderFault>
    requires { length content.now < 2 ^ 32 }
    ensures { result ≡ carried_form kind content.now }
{
    if !is_carried(kind) {
        return Err(HeaderFault::UnknownType { kind });
    }
    Ok(Header::Carried {
        kind,
        length: content.len() as u32,
    })
}

/// The class of such a type in the order of headers.
pub(crate) fn class_of_carried(kind: u32) -> u32
    ensures value { result ≡ carried_class kind }
    ensures within { result ≤ 3 }
{
    if kind >= 0x8000_0000 {
        0
    } else if kind == 0x311 {
        3
    } else {
        2
    }
}
