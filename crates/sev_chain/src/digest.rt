//! A SHA-256 digest (FIPS 180-4, section 1).
ghost use Rattle.std.specs.Prelude.{◌≡◌, length};

use std::marker::Model;

/// A SHA-256 digest: 32 bytes.
#[derive(Clone, Copy, Debug, PartialEq, Eq)]
pub struct Digest32 {
    bytes: [u8; 32],
}

impl Model for Digest32 {
    ghost use Rattle.std.specs.Prelude.{List, ℕ};

    ghost Value = { List ℕ };

    ghost view = { λ d. d.bytes };

    ghost inverse = { λ bytes. record { bytes = bytes } };
}

impl Digest32 {
    /// The digest of these bytes.
    pub fn of_bytes(bytes: [u8; 32]) -> Digest32
        ensures { result ≡ bytes }
    {
        Digest32 { bytes }
    }

    /// Its 32 bytes.
    pub fn bytes(&self) -> &[u8]
        ensures value { result.now ≡ self.now }
        ensures size { length result.now ≡ 32 }
    {
        &self.bytes
    }
}
