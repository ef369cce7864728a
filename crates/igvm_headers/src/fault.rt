//! What is wrong with a file: one variant a rule of docs/FORMAT.md.

/// Why a header's content is not that of its type.
#[derive(Clone, Copy, Debug, PartialEq, Eq)]
pub enum HeaderFault {
    /// No such type, and bit 31 is clear.
    UnknownType { kind: u32 },
    /// The length is not the record's.
    Length,
    /// A page flag other than bits 0 and 1 is set; the least is named.
    Flags { bit: u32 },
    /// The page's data type is unknown, or a 2 MB page is not NORMAL.
    DataType,
    /// The platform type is unknown.
    PlatformType,
}

/// The rule of the reader that a file breaks.
#[derive(Clone, Copy, Debug, PartialEq, Eq)]
pub enum ReadWhat {
    TooShort,
    Magic,
    Version,
    /// The image is for AArch64.
    Aarch64,
    /// The architecture is neither X64 nor AArch64.
    Architecture,
    /// Pages have another size than 4,096 bytes.
    PageSize,
    TotalSize,
    Section,
    Checksum,
    HeaderCut,
    UnknownType { kind: u32 },
    Length,
    Flags { bit: u32 },
    DataType,
    PlatformType,
    Order,
    Mask,
    Align,
    AreaLimit,
    AreaRepeated,
    AreaUnknown,
    AreaSize,
    Wrap,
    DataOutside,
    TooManyPages,
    NoPlatform,
}

/// The first rule that a file breaks, and the file offset where it does.
#[derive(Clone, Copy, Debug, PartialEq, Eq)]
pub struct ReadFault {
    pub at: u32,
    pub what: ReadWhat,
}
