//! The initial state of a virtual processor.
ghost use Rattle.std.specs.Prelude.{◌≡◌};

use crate::other_byte::OtherByte;
use crate::segment::Segment;
use std::marker::Model;

/// The named registers of a VMSA page, in the order of their offsets, and the other bytes of the
/// page that are not 0, in the order of their places. No two VMSAs have one page.
#[derive(Drop)]
pub struct Vmsa {
    pub(crate) segments: [Segment; 10],
    pub(crate) numbers: [u64; 13],
    pub(crate) other: Vec<OtherByte>,
}

impl Model for Vmsa {
    ghost use Rattle.vmsa_page.specs.Vmsas.{VmsaParts};

    ghost Value = { VmsaParts };

    ghost use Rattle.vmsa_page.specs.VmsaViews.{view_of};
    ghost use Rattle.vmsa_page.specs.Vmsas.{IsVmsa};

    ghost view = { view_of };

    ghost invariant = { λ v. IsVmsa (view_of v) };
}

impl Vmsa {
    ghost use Rattle.vmsa_page.specs.Vmsas.{IsVmsa};

    /// The VMSA of these parts.
    pub(crate) fn from_parts(
        segments: [Segment; 10],
        numbers: [u64; 13],
        other: Vec<OtherByte>,
    ) -> Vmsa
        requires { IsVmsa (record { segments = segments; numbers = numbers; other = other.items }) }
        ensures parts { result ≡ record { segments = segments; numbers = numbers; other = other.items } }
        ensures valid { IsVmsa result }
    {
        Vmsa {
            segments,
            numbers,
            other,
        }
    }
}
