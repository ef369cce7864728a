//! The base of the toolset: the types that all crates share, and the codec of IGVM headers.
#![tactic(auto)]

mod crc;
mod crc_table;
mod decode;
mod digest;
mod encode;
mod facts;
mod fault;
mod fields;
mod fixed;
mod header;
mod laws;
mod numbers;
mod options;
mod page_kind;
mod page_view;
mod param_kind;
mod platform_kind;
mod records;
mod refusal;
mod tag;

pub use crc::{crc_begin, crc_end, crc_more, crc32};
pub use decode::decode_header;
pub use digest::Digest;
pub use encode::encode_header;
pub use fault::{HeaderFault, ReadFault, ReadWhat};
pub use fixed::{FixedHeader, read_fixed};
pub use header::Header;
pub use laws::{
    equal_headers_are_one, fields_are_bytes, numbers_fit, offset_keeps, read_is_spellable,
    spelled_is_a_piece, spelled_is_read, what_is_read,
};
pub use options::Options;
pub use page_kind::{PageKind, page_kind_name};
pub use page_view::{LARGE_PAGE_SIZE, PAGE_SIZE, PageView, page_bytes, small_pages};
pub use param_kind::{ParamKind, param_name};
pub use platform_kind::{PlatformKind, kind_name};
pub use records::carried::is_carried;
pub use refusal::{Failed, Memory};
pub use tag::Tag;
