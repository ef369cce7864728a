//! Compatibility masks (`igvm_defs`, compatibility_mask).
ghost use Rattle.std.specs.Prelude.{◌≡◌};
ghost use Rattle.platform_masks.specs.Masks.{applies as applies_to, shares_bit};

use igvm_headers::Header;

/// The header counts for a platform of this mask.
pub fn applies(h: &Header, mask: u32) -> bool
    ensures { result ≡ applies_to h.now mask }
{
    h.is_for_all() || shares_bit(h.mask(), mask)
}

/// A mask, where there is one, has a bit in common with another.
fn shares_bit(mask: Option<u32>, other: u32) -> bool
    ensures { result ≡ shares_bit mask other }
{
    mask.is_some_and(|own| own & other != 0)
}

#[cfg(test)]
mod tests {
    use super::*;
    use igvm_headers::ParamKind;

    #[test]
    fn counts_for_shared_bits(rt: HostRuntime) {
        let policy = Header::Policy {
            policy: 0x30000,
            mask: 0b101,
        };
        let area = Header::Area {
            bytes: 4096,
            area: 0,
            offset: 0,
        };
        let count = Header::Param {
            kind: ParamKind::VpCount,
            area: 0,
            byte_offset: 0,
        };
        let carried = Header::Carried {
            kind: 0x102,
            length: 8,
        };
        for (mask, want) in [(1, true), (2, false), (4, true), (6, true), (0, false)] {
            assert_eq!(rt; applies(&policy, mask), want, "at {mask}");
            assert!(rt; applies(&area, mask));
            assert!(rt; applies(&count, mask));
            assert!(rt; !applies(&carried, mask));
        }
    }
}
