//! The platforms of an image, in the order of their headers.
ghost use Rattle.std.specs.Prelude.{◌≡◌, ◌<◌, ◌≤◌, ◌==◌, [], ◌∷◌, ◌++◌, length, position, slice_get, IfSome};
ghost use Rattle.std.specs.List.{list_any};
ghost use Rattle.igvm_headers.specs.PlatformKinds.{is_kind};

use crate::Platform;
use igvm_headers::PlatformKind;
use std::marker::Model;

/// What stands in the places that are not taken yet.
const NONE: Platform = Platform {
    number: 0,
    mask: 0,
    kind: PlatformKind::Native,
    highest_vtl: 0,
    version: 0,
    shared_gpa: 0,
};

/// The platforms of an image: contracts see the list of them, in the order in which they were pushed.
/// There are at most 32, since each has a bit of a mask to itself.
#[derive(Drop)]
pub struct Platforms {
    entries: [Platform; 32],
    count: usize,
}

impl Model for Platforms {
    ghost use Rattle.std.specs.Prelude.{List, ◌≤◌, take};
    ghost use Rattle.platform_masks.specs.declared.platform.Platform as platform;

    ghost Value = { List platform.Platform };

    ghost view = { λ p. take p.count p.entries };

    ghost invariant = { λ p. p.count ≤ 32 };
}

impl Platforms {
    /// No platform.
    pub fn new() -> Platforms
        ensures { result ≡ [] }
    {
        Platforms {
            entries: [NONE; 32],
            count: 0,
        }
    }

    /// Takes in one more platform, under the next number.
    pub fn push(&mut self, p: Platform)
        requires room { length self.old < 32 }
        requires number { p.number ≡ length self.old }
        ensures { self.new ≡ self.old ++ p ∷ [] }
    {
        self.entries[self.count] = p;
        self.count += 1;
    }

    /// How many platforms there are.
    pub fn count(&self) -> u32
        ensures value { result ≡ length self.now }
        ensures within { result ≤ 32 }
    {
        self.listed().len() as u32
    }

    /// The platform of a number.
    pub fn by_number(&self, n: u32) -> Option<Platform>
        ensures { result ≡ slice_get self.now n }
    {
        self.listed().get(n as usize).copied()
    }

    /// The number of the first platform of a kind.
    pub fn first_of(&self, kind: PlatformKind) -> Option<u32>
        ensures { result ≡ position (λ p. is_kind p.kind kind) self.now }
    {
        let place = first_place(self.listed(), kind)?;
        Some(place as u32)
    }

    /// A platform has exactly this mask.
    pub fn has_mask(&self, mask: u32) -> bool
        ensures { result ≡ list_any (λ p. p.mask == mask) self.now }
    {
        self.listed().iter().any(|p| p.mask == mask)
    }

    fn listed(&self) -> &[Platform]
        ensures value { result.now ≡ self.now }
        ensures within { length result.now ≤ 32 }
    {
        &self.entries[..self.count]
    }
}

/// The place of the first platform of a kind.
fn first_place(platforms: &[Platform], kind: PlatformKind) -> Option<usize>
    ensures value { result ≡ position (λ p. is_kind p.kind kind) platforms.now }
    ensures within { IfSome result (λ place. place < length platforms.now) }
{
    platforms.iter().position(|p| is_same(p.kind, kind))
}

/// Two kinds are one.
fn is_same(kind: PlatformKind, other: PlatformKind) -> bool
    ensures { result ≡ is_kind kind other }
{
    kind.number() == other.number()
}

#[cfg(test)]
mod tests {
    use super::*;

    #[test]
    fn finds_platforms(rt: HostRuntime) {
        let mut table = Platforms::new();
        assert_eq!(rt; table.first_of(PlatformKind::SevSnp), None);
        let vsm = Platform {
            mask: 1,
            kind: PlatformKind::VsmIsolation,
            ..NONE
        };
        let snp = Platform {
            number: 1,
            mask: 4,
            kind: PlatformKind::SevSnp,
            ..NONE
        };
        let second_snp = Platform {
            number: 2,
            mask: 2,
            ..snp
        };
        table.push(vsm);
        table.push(snp);
        table.push(second_snp);
        assert_eq!(rt; table.count(), 3);
        assert_eq!(rt; table.by_number(1), Some(snp));
        assert_eq!(rt; table.by_number(3), None);
        assert_eq!(rt; table.first_of(PlatformKind::SevSnp), Some(1));
        assert_eq!(rt; table.first_of(PlatformKind::Tdx), None);
        assert!(rt; table.has_mask(2));
        assert!(rt; !table.has_mask(3));
    }
}
