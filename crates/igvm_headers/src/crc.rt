//! CRC-32 with the reflected polynomial 0xEDB88320 (ISO 3309), which IGVM takes over its headers.
ghost use Rattle.std.specs.Prelude.{◌≡◌, ℕ, List, [], ◌++◌};
ghost use Rattle.igvm_headers.specs.Checksum.{crc, crc_state, crc_step};

use crate::crc_table::TABLE;

/// The checksum of these bytes.
pub fn crc32(bytes: &[u8]) -> u32
    ensures { result ≡ crc bytes.now }
{
    crc_end(crc_more(crc_begin(), bytes))
}

/// The state of a checksum before its first byte.
pub fn crc_begin() -> u32
    ensures { result ≡ crc_state [] }
{
    0xFFFF_FFFF
}

/// The state after these bytes, too. Pieces fed in turn are the message they make.
pub fn crc_more(state: u32, bytes: &[u8]) -> u32
    ensures { (before : List ℕ) → state ≡ crc_state before → result ≡ crc_state (before ++ bytes.now) }
{
    let mut now = state;
    'bytes: for byte in bytes {
        now = crc_byte(now, *byte);
    }
    now
}

/// The checksum of the bytes that were fed.
pub fn crc_end(state: u32) -> u32
    ensures { (message : List ℕ) → state ≡ crc_state message → result ≡ crc message }
{
    state ^ 0xFFFF_FFFF
}

// The state after one more byte: its low eight bits fall out, and the table has what they leave.
fn crc_byte(state: u32, byte: u8) -> u32
    ensures { result ≡ crc_step state byte }
{
    let mixed = state ^ u32::from(byte);
    TABLE[(mixed & 0xFF) as usize] ^ (mixed >> 8)
}

#[cfg(test)]
mod tests {
    use super::*;

    #[test]
    fn agrees_with_zlib(rt: HostRuntime) {
        let cases: [(&[u8], u32); 6] = [
            (b"", 0),
            (b"a", 0xE8B7_BE43),
            (b"123456789", 0xCBF4_3926),
            (b"The quick brown fox jumps over the lazy dog", 0x414F_A339),
            (&[0; 32], 0x190A_55AD),
            (&[0xFF; 32], 0xFF6C_AB0B),
        ];
        for (message, want) in cases {
            assert_eq!(rt; crc32(message), want);

            let (front, back) = message.split_at(message.len() / 2);
            let pieces = crc_more(crc_more(crc_begin(), front), back);
            assert_eq!(rt; crc_end(pieces), want);
        }
    }
}
