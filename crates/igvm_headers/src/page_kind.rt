//! Data types of IGVM_VHS_PAGE_DATA (`igvm_defs`, IgvmPageDataType).
ghost use Rattle.std.specs.Prelude.{◌≡◌, ◌==◌, bytes_eq, find};
ghost use Rattle.igvm_headers.specs.PageKinds.{data_type, page_kind_text, page_kind_of, page_kind_named};

/// What a page of an image is for.
#[derive(Clone, Copy, Debug, PartialEq, Eq)]
pub enum PageKind {
    /// Bytes of the file.
    Normal,
    /// The host's secrets, whatever the file holds.
    Secrets,
    /// The host's CPUID page.
    Cpuid,
    /// The host's CPUID page with XSAVE areas; measured as `Cpuid`.
    CpuidXf,
}

/// The name that texts and lists have for a page kind.
pub fn page_kind_name(kind: PageKind) -> &'static str
    ensures { result.now ≡ page_kind_text kind }
{
    match kind {
        PageKind::Normal => "normal",
        PageKind::Secrets => "secrets",
        PageKind::Cpuid => "cpuid",
        PageKind::CpuidXf => "cpuid_xf",
    }
}

impl PageKind {
    /// All kinds, in the order of their data types.
    pub const ALL: [PageKind; 4] = [
        PageKind::Normal,
        PageKind::Secrets,
        PageKind::Cpuid,
        PageKind::CpuidXf,
    ];

    /// The data type that stands for the kind in a header.
    pub fn data_type(self) -> u16
        ensures { result ≡ data_type self }
    {
        match self {
            PageKind::Normal => 0,
            PageKind::Secrets => 1,
            PageKind::Cpuid => 2,
            PageKind::CpuidXf => 3,
        }
    }

    /// The kind of a data type, where there is one.
    pub fn from_data_type(data_type: u16) -> Option<PageKind>
        ensures { result ≡ page_kind_of data_type }
    {
        numbered(&PageKind::ALL, data_type)
    }

    /// The kind of a name, where there is one.
    pub fn from_name(name: &str) -> Option<PageKind>
        ensures { result ≡ page_kind_named name.now }
    {
        named(&PageKind::ALL, name)
    }
}

fn numbered(kinds: &[PageKind], number: u16) -> Option<PageKind>
    ensures { result ≡ find (λ kind. data_type kind == number) kinds.now }
{
    kinds
        .iter()
        .copied()
        .find(|kind| kind.data_type() == number)
}

fn named(kinds: &[PageKind], name: &str) -> Option<PageKind>
    ensures { result ≡ find (λ kind. bytes_eq (page_kind_text kind) name.now) kinds.now }
{
    kinds
        .iter()
        .copied()
        .find(|kind| page_kind_name(*kind) == name)
}

#[cfg(test)]
mod tests {
    use super::*;

    #[test]
    fn numbers_and_names_page_kinds(rt: HostRuntime) {
        for (kind, number, name) in [
            (PageKind::Normal, 0, "normal"),
            (PageKind::Secrets, 1, "secrets"),
            (PageKind::Cpuid, 2, "cpuid"),
            (PageKind::CpuidXf, 3, "cpuid_xf"),
        ] {
            assert_eq!(rt; page_kind_name(kind), name);
            assert_eq!(rt; kind.data_type(), number);
            assert_eq!(rt; PageKind::from_data_type(number), Some(kind));
            assert_eq!(rt; PageKind::from_name(name), Some(kind));
        }
        assert_eq!(rt; PageKind::from_data_type(4), None);
        assert_eq!(rt; PageKind::from_name(""), None);
    }
}
