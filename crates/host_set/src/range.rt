//! One range of guest memory.
ghost use Rattle.std.specs.Prelude.{◌≡◌, ◌≤◌, IsTrue};
ghost use Rattle.host_set.specs.Plans.{end_of, is_placed, past};

/// No range ends past this guest physical address, 2^52.
const LAST_END: u64 = 0x10_0000_0000_0000;

/// The bytes of guest memory from the guest physical address `start` on, `bytes` of them.
#[derive(Clone, Copy, Debug, PartialEq, Eq)]
pub struct PlanRange {
    pub start: u64,
    pub bytes: u64,
}

impl PlanRange {
    /// It is of whole pages, has some, ends at 2^52 at most, and begins at `before` or behind it.
    #[tactic(auto, unfolding(crate::specs::Plans::is_placed))]
    pub(crate) fn is_placed(self, before: u64) -> bool
        ensures test { result ≡ is_placed before self }
        ensures end { IsTrue result → end_of self ≤ 4503599627370496 }
    {
        self.start % 4096 == 0
            && self.bytes % 4096 == 0
            && self.bytes > 0
            && self.start <= LAST_END
            && self.bytes <= LAST_END - self.start
            && before <= self.start
    }

    /// The address behind the last byte.
    pub(crate) fn end(self) -> u64
        requires { end_of self ≤ 4503599627370496 }
        ensures { result ≡ end_of self }
    {
        self.start + self.bytes
    }

    /// The end, from an address in the range; another address stays as it is.
    pub(crate) fn past(self, address: u64) -> u64
        requires { end_of self ≤ 4503599627370496 }
        ensures { result ≡ past address self }
    {
        if self.start <= address && address < self.end() {
            self.end()
        } else {
            address
        }
    }
}
