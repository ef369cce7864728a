//! Why components are no list.

use igvm_headers::ReadWhat;

/// The first rule that a list breaks, and the place of the component that breaks it; a list without
/// a platform has the place behind the last.
#[derive(Clone, Copy, Debug, PartialEq, Eq)]
pub struct ListFault {
    pub place: u32,
    pub what: ReadWhat,
}
