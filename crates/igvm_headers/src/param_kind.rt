//! Parameters that a host hands to a guest (`igvm_defs`, IGVM_VHS_PARAMETER and its kin).
ghost use Rattle.std.specs.Prelude.{◌≡◌, ◌<◌, ◌==◌, bytes_eq, find};
ghost use Rattle.igvm_headers.specs.ParamKinds.{param_type, param_number, param_text, param_kind_of, param_kind_named};

/// A kind of value that a host writes into a parameter area.
#[derive(Clone, Copy, Debug, PartialEq, Eq)]
pub enum ParamKind {
    VpCount,
    Srat,
    Madt,
    MmioRanges,
    MemoryMap,
    CommandLine,
    Slit,
    Pptt,
    DeviceTree,
    EnvironmentInfo,
}

/// The name that texts, lists and host descriptions have for a parameter.
pub fn param_name(kind: ParamKind) -> &'static str
    ensures { result.now ≡ param_text kind }
{
    match kind {
        ParamKind::VpCount => "vp_count",
        ParamKind::Srat => "srat",
        ParamKind::Madt => "madt",
        ParamKind::MmioRanges => "mmio_ranges",
        ParamKind::MemoryMap => "memory_map",
        ParamKind::CommandLine => "command_line",
        ParamKind::Slit => "slit",
        ParamKind::Pptt => "pptt",
        ParamKind::DeviceTree => "device_tree",
        ParamKind::EnvironmentInfo => "environment_info",
    }
}

impl ParamKind {
    /// All parameters, in the order of their header types.
    pub const ALL: [ParamKind; 10] = [
        ParamKind::VpCount,
        ParamKind::Srat,
        ParamKind::Madt,
        ParamKind::MmioRanges,
        ParamKind::MemoryMap,
        ParamKind::CommandLine,
        ParamKind::Slit,
        ParamKind::Pptt,
        ParamKind::DeviceTree,
        ParamKind::EnvironmentInfo,
    ];

    /// The type of the parameter's header.
    pub fn header_type(self) -> u32
        ensures { result ≡ param_type self }
    {
        match self {
            ParamKind::VpCount => 0x307,
            ParamKind::Srat => 0x308,
            ParamKind::Madt => 0x309,
            ParamKind::MmioRanges => 0x30A,
            ParamKind::MemoryMap => 0x30C,
            ParamKind::CommandLine => 0x30E,
            ParamKind::Slit => 0x30F,
            ParamKind::Pptt => 0x310,
            ParamKind::DeviceTree => 0x312,
            ParamKind::EnvironmentInfo => 0x313,
        }
    }

    /// The parameter's place among all.
    pub fn number(self) -> usize
        ensures number { result ≡ param_number self }
        ensures few { result < 10 }
    {
        match self {
            ParamKind::VpCount => 0,
            ParamKind::Srat => 1,
            ParamKind::Madt => 2,
            ParamKind::MmioRanges => 3,
            ParamKind::MemoryMap => 4,
            ParamKind::CommandLine => 5,
            ParamKind::Slit => 6,
            ParamKind::Pptt => 7,
            ParamKind::DeviceTree => 8,
            ParamKind::EnvironmentInfo => 9,
        }
    }

    /// The parameter of a header's type, where it is one.
    pub fn from_header_type(header_type: u32) -> Option<ParamKind>
        ensures { result ≡ param_kind_of header_type }
    {
        typed(&ParamKind::ALL, header_type)
    }

    /// The parameter of a name, where there is one.
    pub fn from_name(name: &str) -> Option<ParamKind>
        ensures { result ≡ param_kind_named name.now }
    {
        named(&ParamKind::ALL, name)
    }
}

fn typed(kinds: &[ParamKind], header_type: u32) -> Option<ParamKind>
    ensures { result ≡ find (λ kind. param_type kind == header_type) kinds.now }
{
    kinds
        .iter()
        .copied()
        .find(|kind| kind.header_type() == header_type)
}

fn named(kinds: &[ParamKind], name: &str) -> Option<ParamKind>
    ensures { result ≡ find (λ kind. bytes_eq (param_text kind) name.now) kinds.now }
{
    kinds.iter().copied().find(|kind| param_name(*kind) == name)
}

#[cfg(test)]
mod tests {
    use super::*;

    #[test]
    fn numbers_and_names_parameters(rt: HostRuntime) {
        for (number, (kind, header_type, name)) in [
            (ParamKind::VpCount, 0x307, "vp_count"),
            (ParamKind::Srat, 0x308, "srat"),
            (ParamKind::Madt, 0x309, "madt"),
            (ParamKind::MmioRanges, 0x30A, "mmio_ranges"),
            (ParamKind::MemoryMap, 0x30C, "memory_map"),
            (ParamKind::CommandLine, 0x30E, "command_line"),
            (ParamKind::Slit, 0x30F, "slit"),
            (ParamKind::Pptt, 0x310, "pptt"),
            (ParamKind::DeviceTree, 0x312, "device_tree"),
            (ParamKind::EnvironmentInfo, 0x313, "environment_info"),
        ]
        .into_iter()
        .enumerate()
        {
            assert_eq!(rt; param_name(kind), name);
            assert_eq!(rt; kind.number(), number);
            assert_eq!(rt; kind.header_type(), header_type);
            assert_eq!(rt; ParamKind::from_header_type(header_type), Some(kind));
            assert_eq!(rt; ParamKind::from_name(name), Some(kind));
        }
        assert_eq!(rt; ParamKind::from_header_type(0x30B), None);
        assert_eq!(rt; ParamKind::from_name("madt "), None);
    }
}
