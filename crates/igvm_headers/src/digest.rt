//! A SHA-384 digest (FIPS 180-4, section 1).
ghost use Rattle.std.specs.Prelude.{◌≡◌, length};

use std::marker::Model;

/// A SHA-384 digest: 48 bytes, as a launch digest or the contents of a page record.
#[derive(Clone, Copy, Debug, PartialEq, Eq)]
pub struct Digest {
    bytes: [u8; 48],
}

impl Model for Digest {
    ghost use Rattle.std.specs.Prelude.{List, ℕ};

    ghost Value = { List ℕ };

    ghost view = { λ d. d.bytes };

    ghost inverse = { λ bytes. record { bytes = bytes } };
}

impl Digest {
    /// The digest of these bytes.
    pub fn of_bytes(bytes: [u8; 48]) -> Digest
        ensures { result ≡ bytes }
    {
        Digest { bytes }
    }

    /// Its 48 bytes.
    pub fn bytes(&self) -> &[u8]
        ensures value { result.now ≡ self.now }
        ensures size { length result.now ≡ 48 }
    {
        &self.bytes
    }
}

#[cfg(test)]
mod tests {
    use super::*;

    #[test]
    fn keeps_its_bytes(rt: HostRuntime) {
        let digest = Digest::of_bytes([3; 48]);
        assert_eq!(rt; digest.bytes(), [3; 48].as_slice());
        assert!(rt; digest == Digest::of_bytes([3; 48]) && digest != Digest::of_bytes([4; 48]));
    }
}
