//! Why an image doesn't fit a host, and what one that fits comes to.
use igvm_headers::Digest;

/// A header that doesn't fit, by its number among all headers of the file, and why.
#[derive(Clone, Copy, Debug, PartialEq, Eq)]
pub struct Misfit {
    pub index: u32,
    pub why: Why,
}

/// Why a header doesn't fit. Earlier headers are those that count for the platform.
#[derive(Clone, Copy, Debug, PartialEq, Eq)]
pub enum Why {
    /// Some of its bytes lie in no range of the memory plan.
    Outside,
    /// An earlier header places one of its pages.
    Repeated,
    /// SEV-SNP alone has pages of this type.
    TypeNotHere,
    /// Contexts are for SEV-SNP and SEV-ES alone.
    ContextNotHere,
    /// An earlier context is that of the same virtual processor.
    ContextRepeated,
    /// An earlier header is a policy.
    PolicyRepeated,
    /// ID blocks are for SEV-SNP alone.
    IdBlockNotHere,
    /// An earlier header is an ID block.
    IdBlockRepeated,
    /// An earlier header put the area into the guest.
    AreaGone,
    /// The host's value passes the area's end.
    ValueTooLong,
    /// The areas up to this one have more than 67,108,864 bytes together.
    AreasTooLarge,
    /// The pages up to this header's are more than 524,288.
    TooManyPages,
    /// The launch digest isn't the one that the ID block wants. `check` never answers it.
    BadDigest { wanted: Digest, found: Digest },
}

/// The ID block that counts, by its number among all headers of the file, and the launch digest that it
/// wants.
#[derive(Clone, Copy, Debug, PartialEq, Eq)]
pub struct IdWanted {
    pub index: u32,
    pub wanted: Digest,
}

/// What the headers that count for a platform come to, where all fit: the pages of 4,096 bytes that they
/// place, the contexts, the bytes of all areas, and the ID block.
#[derive(Clone, Copy, Debug, PartialEq, Eq)]
pub struct Checked {
    pub pages: u32,
    pub contexts: u32,
    pub area_bytes: u64,
    pub id: Option<IdWanted>,
}

/// Why there is no `Checked`: the image doesn't fit, or there isn't memory enough to tell.
#[derive(Clone, Copy, Debug, PartialEq, Eq)]
pub enum CheckRefusal {
    Misfit(Misfit),
    Memory,
}
