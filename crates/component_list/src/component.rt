//! One component of a list.

use crate::Blob;
use igvm_headers::Header;

/// A header's data.
#[derive(Drop, PartialEq, Eq)]
pub enum Content {
    /// The header has no data.
    Nothing,
    /// All zeros, which no file holds.
    Zero,
    /// Exactly as many bytes as the header's data have.
    Bytes(Blob),
}

/// A header with its data, whose file offset is 0: where data stand is for the builder to say.
#[derive(Drop, PartialEq, Eq)]
pub struct Component {
    pub header: Header,
    /// What the record carries unread: 592 bytes of an ID block, the content of a carried header,
    /// none of the others.
    pub tail: Blob,
    pub content: Content,
}
