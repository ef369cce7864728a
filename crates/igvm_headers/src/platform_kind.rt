//! Isolation platforms (`igvm_defs`, IgvmPlatformType).
ghost use Rattle.std.specs.Prelude.{◌≡◌, ◌==◌, bytes_eq, find};
ghost use Rattle.igvm_headers.specs.PlatformKinds.{kind_number, kind_text, platform_kind_of, platform_kind_named};

/// The platform that an image supports.
#[derive(Clone, Copy, Debug, PartialEq, Eq)]
pub enum PlatformKind {
    Native,
    VsmIsolation,
    SevSnp,
    Tdx,
    Sev,
    SevEs,
}

/// The name that texts and lists have for a platform kind.
pub fn kind_name(kind: PlatformKind) -> &'static str
    ensures { result.now ≡ kind_text kind }
{
    match kind {
        PlatformKind::Native => "native",
        PlatformKind::VsmIsolation => "vsm",
        PlatformKind::SevSnp => "snp",
        PlatformKind::Tdx => "tdx",
        PlatformKind::Sev => "sev",
        PlatformKind::SevEs => "sev_es",
    }
}

impl PlatformKind {
    /// All kinds, in the order of their numbers.
    pub const ALL: [PlatformKind; 6] = [
        PlatformKind::Native,
        PlatformKind::VsmIsolation,
        PlatformKind::SevSnp,
        PlatformKind::Tdx,
        PlatformKind::Sev,
        PlatformKind::SevEs,
    ];

    /// The number that the kind has in a header.
    pub fn number(self) -> u8
        ensures { result ≡ kind_number self }
    {
        match self {
            PlatformKind::Native => 0,
            PlatformKind::VsmIsolation => 1,
            PlatformKind::SevSnp => 2,
            PlatformKind::Tdx => 3,
            PlatformKind::Sev => 4,
            PlatformKind::SevEs => 5,
        }
    }

    /// The kind of a number, where there is one.
    pub fn from_number(number: u8) -> Option<PlatformKind>
        ensures { result ≡ platform_kind_of number }
    {
        numbered(&PlatformKind::ALL, number)
    }

    /// The kind of a name, where there is one.
    pub fn from_name(name: &str) -> Option<PlatformKind>
        ensures { result ≡ platform_kind_named name.now }
    {
        named(&PlatformKind::ALL, name)
    }
}

fn numbered(kinds: &[PlatformKind], number: u8) -> Option<PlatformKind>
    ensures { result ≡ find (λ kind. kind_number kind == number) kinds.now }
{
    kinds.iter().copied().find(|kind| kind.number() == number)
}

fn named(kinds: &[PlatformKind], name: &str) -> Option<PlatformKind>
    ensures { result ≡ find (λ kind. bytes_eq (kind_text kind) name.now) kinds.now }
{
    kinds.iter().copied().find(|kind| kind_name(*kind) == name)
}

#[cfg(test)]
mod tests {
    use super::*;

    #[test]
    fn numbers_and_names_platforms(rt: HostRuntime) {
        for (kind, number, name) in [
            (PlatformKind::Native, 0, "native"),
            (PlatformKind::VsmIsolation, 1, "vsm"),
            (PlatformKind::SevSnp, 2, "snp"),
            (PlatformKind::Tdx, 3, "tdx"),
            (PlatformKind::Sev, 4, "sev"),
            (PlatformKind::SevEs, 5, "sev_es"),
        ] {
            assert_eq!(rt; kind_name(kind), name);
            assert_eq!(rt; kind.number(), number);
            assert_eq!(rt; PlatformKind::from_number(number), Some(kind));
            assert_eq!(rt; PlatformKind::from_name(name), Some(kind));
        }
        assert_eq!(rt; PlatformKind::from_number(6), None);
        assert_eq!(rt; PlatformKind::from_name("SNP"), None);
    }
}
