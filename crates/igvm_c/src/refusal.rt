//! Why a call gives no answer.
ghost use Rattle.std.specs.Prelude.{◌≡◌};
ghost use Rattle.igvm_c.specs.Refusals.{refusal_status};

/// Why a call gives no answer.
#[derive(Clone, Copy, Debug, PartialEq, Eq)]
pub(crate) enum Refusal {
    /// The file breaks a rule of the reader.
    Rule,
    /// The file is longer than the limit.
    TooLong,
    /// The image has no such platform.
    NoPlatform,
    /// Platforms of the kind have no such digest.
    NoDigest,
    /// The two platforms are of two kinds.
    OtherKind,
    /// No header begins at the file offset.
    NoHeader,
    /// The header places no pages.
    NoPages,
    /// An argument has a value that stands for nothing.
    Unknown,
}

impl Refusal {
    /// The status that C gets.
    pub(crate) fn status(self) -> u32
        ensures { result ≡ refusal_status self }
    {
        match self {
            Refusal::Rule => 1,
            Refusal::TooLong => 2,
            Refusal::NoPlatform => 3,
            Refusal::NoDigest => 4,
            Refusal::OtherKind => 5,
            Refusal::NoHeader => 6,
            Refusal::NoPages => 7,
            Refusal::Unknown => 8,
        }
    }
}
