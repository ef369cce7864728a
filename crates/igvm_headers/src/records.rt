//! The records of variable headers, one file each: type, size, reading and fields (`igvm_defs`, IGVM_VHS_*).

pub(crate) mod area;
pub(crate) mod carried;
pub(crate) mod context;
pub(crate) mod error_range;
pub(crate) mod id_block;
pub(crate) mod insert;
pub(crate) mod page;
pub(crate) mod param;
pub(crate) mod platform;
pub(crate) mod policy;
pub(crate) mod required;
