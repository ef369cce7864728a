//! Segment registers: AMD64 Architecture Programmer's Manual, volume 2, appendix B.
ghost use Rattle.std.specs.Prelude.{◌≡◌};

/// A segment register, or a descriptor table's, of which only base and limit have a meaning.
#[derive(Clone, Copy, Debug, PartialEq, Eq)]
pub struct Segment {
    pub selector: u16,
    /// Bits 40 to 47 and 52 to 55 of the descriptor, joined.
    pub attributes: u16,
    /// The last offset of the segment, in bytes.
    pub limit: u32,
    /// The linear address of its first byte.
    pub base: u64,
}

impl Segment {
    ghost use Rattle.vmsa_page.specs.Pages.{segment_bytes};
    ghost use Rattle.vmsa_page.specs.Texts.{is_zero};

    /// All zeros.
    pub(crate) const ZERO: Segment = Segment {
        selector: 0,
        attributes: 0,
        limit: 0,
        base: 0,
    };

    /// It is all zeros.
    pub(crate) fn is_zero(self) -> bool
        ensures { result ≡ is_zero self }
    {
        self.selector == 0 && self.attributes == 0 && self.limit == 0 && self.base == 0
    }

    /// Its bytes in the page: selector, attributes, limit and base, each with its low byte first.
    pub(crate) fn to_le_bytes(self) -> [u8; 16]
        ensures { result ≡ segment_bytes self }
    {
        let [s0, s1] = self.selector.to_le_bytes();
        let [a0, a1] = self.attributes.to_le_bytes();
        let [l0, l1, l2, l3] = self.limit.to_le_bytes();
        let [b0, b1, b2, b3, b4, b5, b6, b7] = self.base.to_le_bytes();
        [
            s0, s1, a0, a1, l0, l1, l2, l3, b0, b1, b2, b3, b4, b5, b6, b7,
        ]
    }
}
