//! What the JSON of a component list says, before its files are read.
ghost use Rattle.std.specs.Prelude.{◌≡◌, ◌≤◌, true, length, string_bytes};
ghost use Rattle.igvm_headers.specs.Fixed.{is_version};
ghost use Rattle.component_list.specs.Source.{HasFew};

use crate::blob::Blob;
use igvm_headers::{Header, PageKind};
use std::marker::Model;

/// The name of a file that a list names: contracts see its bytes. It is not empty.
#[derive(Drop)]
pub struct FileName {
    text: String,
}

impl Model for FileName {
    ghost use Rattle.std.specs.Prelude.{List, ℕ, string_bytes};

    ghost Value = { List ℕ };

    ghost view = { λ n. string_bytes n.text };
}

impl FileName {
    /// This name.
    pub fn of_string(text: String) -> FileName
        ensures { result ≡ string_bytes text }
    {
        FileName { text }
    }

    /// The name, lent.
    pub fn as_str(&self) -> &str
        ensures { result.now ≡ self.now }
    {
        self.text.as_str()
    }
}

/// Pages one behind the other from `gpa` on, all of 4 KB or all of 2 MB.
#[derive(Clone, Copy, Debug, PartialEq, Eq)]
pub struct PageRun {
    pub gpa: u64,
    pub mask: u32,
    pub large: bool,
    pub unmeasured: bool,
    pub kind: PageKind,
}

/// An entry of `directives`.
#[derive(Drop)]
pub enum Directive {
    /// Pages with the bytes of a file.
    Pages {
        run: PageRun,
        file: FileName,
    },
    /// So many pages of zeros.
    Zeros {
        run: PageRun,
        count: u32,
    },
    /// A parameter area of so many bytes.
    Area {
        area: u32,
        bytes: u32,
        file: Option<FileName>,
    },
    /// The state of a virtual processor.
    Context {
        gpa: u64,
        mask: u32,
        vp: u16,
        file: Option<FileName>,
    },
    /// A header that has no data, with what its record carries unread.
    Plain {
        header: Header,
        tail: Blob,
    },
}

/// What a component list says: contracts see its version, and its three lists of entries in order.
#[derive(Drop)]
pub struct ListSource {
    version: u32,
    platforms: Vec<Header>,
    policies: Vec<Header>,
    directives: Vec<Directive>,
}

impl Model for ListSource {
    ghost use Rattle.component_list.specs.Source.{Source, source_view, IsSource};

    ghost Value = { Source };

    ghost view = { source_view };

    ghost invariant = { IsSource };
}

impl ListSource {
    /// These entries, for a version of the format.
    pub(crate) fn of_entries(
        version: u32,
        platforms: Vec<Header>,
        policies: Vec<Header>,
        directives: Vec<Directive>,
    ) -> ListSource
        requires known { is_version version ≡ true }
        requires few { HasFew platforms.items policies.items directives.items }
        ensures version { result.version ≡ version }
        ensures platforms { result.platforms ≡ platforms.items }
        ensures policies { result.policies ≡ policies.items }
        ensures directives { result.directives ≡ directives.items }
    {
        ListSource {
            version,
            platforms,
            policies,
            directives,
        }
    }

    /// The version of the format, 1 or 2.
    pub fn version(&self) -> u32
        ensures value { result ≡ self.now.version }
        ensures known { is_version result ≡ true }
    {
        self.version
    }

    /// The platforms, as their headers.
    pub fn platforms(&self) -> &[Header]
        ensures value { result.now ≡ self.now.platforms }
        ensures few { length result.now ≤ 16777216 }
    {
        self.platforms.as_slice()
    }

    /// The policies, as their headers.
    pub fn policies(&self) -> &[Header]
        ensures value { result.now ≡ self.now.policies }
        ensures few { length result.now ≤ 16777216 }
    {
        self.policies.as_slice()
    }

    /// The directives.
    pub fn directives(&self) -> &[Directive]
        ensures value { result.now ≡ self.now.directives }
        ensures few { HasFew self.now.platforms self.now.policies self.now.directives }
    {
        self.directives.as_slice()
    }
}
