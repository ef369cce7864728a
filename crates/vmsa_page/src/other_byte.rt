//! Bytes of a VMSA page outside the named fields.
ghost use Rattle.std.specs.Prelude.{◌≡◌};

use crate::fields::is_named;

/// A byte outside the named fields that is not 0, and its place in the page.
#[derive(Clone, Copy, Debug, PartialEq, Eq)]
pub struct OtherByte {
    /// Its offset in the page, below 4,096.
    pub at: u16,
    pub byte: u8,
}

impl OtherByte {
    ghost use Rattle.vmsa_page.specs.Vmsas.{is_placed};

    /// It isn't 0, and its place is `low` or behind that, in the page, and in no named field.
    pub(crate) fn is_placed(self, low: usize) -> bool
        ensures { result ≡ is_placed low self }
    {
        let at = usize::from(self.at);
        at >= low && at < 4096 && !is_named(at) && self.byte > 0
    }
}
