//! Why two lists aren't joined.
ghost use Rattle.std.specs.Prelude.{◌≡◌};
ghost use Rattle.joined_list.specs.declared.refusal.JoinRefusal.TheVariants as refusal;

use igvm_headers::Memory;

/// Want of memory, or the first limit that two lists pass together.
#[derive(Clone, Copy, Debug, PartialEq, Eq)]
pub enum JoinRefusal {
    /// They have more than 32 platforms.
    TooManyPlatforms,
    /// They declare more than 256 parameter areas.
    TooManyAreas,
    /// Their pages and inserted areas are more than 4,194,304 pages of 4,096 bytes.
    TooManyPages,
    /// Want of memory.
    Memory,
}

impl From<Memory> for JoinRefusal {
    ghost from_gives = { λ _ given. given ≡ refusal.Memory };

    fn from(_e: Memory) -> JoinRefusal {
        JoinRefusal::Memory
    }
}
