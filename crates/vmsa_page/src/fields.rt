//! The named fields of a VMSA page: AMD64 Architecture Programmer's Manual, volume 2, appendix B,
//! VMSA layout.
ghost use Rattle.std.specs.Prelude.{◌≡◌, ◌≤◌, ◌<◌, ◌+◌, map};
ghost use Rattle.std.specs.List.{AllByRecursion, list_any};
ghost use Rattle.vmsa_page.specs.Fields.{field_of, is_named, is_within, key_name, key_names, numbers, segments};

/// A named field: where its bytes begin in the page, and how many they are.
#[derive(Clone, Copy)]
pub(crate) struct Field {
    pub(crate) name: &'static str,
    pub(crate) offset: usize,
    pub(crate) width: usize,
}

/// The field of a segment register: 16 bytes.
macro_rules! segment {
    ($name:literal, $offset:literal) => {
        Field {
            name: $name,
            offset: $offset,
            width: 16,
        }
    };
}

/// The field of a number: 8 bytes.
macro_rules! number {
    ($name:literal, $offset:literal) => {
        Field {
            name: $name,
            offset: $offset,
            width: 8,
        }
    };
}

/// The segments, whose places in the JSON rules are 1 to 10.
const SEGMENTS: [Field; 10] = [
    segment!("es", 0x000),
    segment!("cs", 0x010),
    segment!("ss", 0x020),
    segment!("ds", 0x030),
    segment!("fs", 0x040),
    segment!("gs", 0x050),
    segment!("gdtr", 0x060),
    segment!("ldtr", 0x070),
    segment!("idtr", 0x080),
    segment!("tr", 0x090),
];

/// The numbers, whose places in the JSON rules are 11 to 23.
const NUMBERS: [Field; 13] = [
    number!("efer", 0x0D0),
    number!("cr4", 0x148),
    number!("cr3", 0x150),
    number!("cr0", 0x158),
    number!("dr7", 0x160),
    number!("dr6", 0x168),
    number!("rflags", 0x170),
    number!("rip", 0x178),
    number!("rsp", 0x1D8),
    number!("rax", 0x1F8),
    number!("g_pat", 0x268),
    number!("sev_features", 0x3B0),
    number!("xcr0", 0x3E8),
];

/// The fields of the segments, each of which ends within the page.
pub(crate) fn segments() -> [Field; 10]
    ensures fields { map field_of result ≡ segments }
    ensures within { AllByRecursion (λ f. f.offset ≤ 4080) result }
{
    SEGMENTS
}

/// The fields of the numbers, each of which ends within the page.
pub(crate) fn numbers() -> [Field; 13]
    ensures fields { map field_of result ≡ numbers }
    ensures within { AllByRecursion (λ f. f.offset ≤ 4080) result }
{
    NUMBERS
}

/// The name of a field, by its number: the segments first, then the numbers.
pub(crate) fn field_name(number: usize) -> &'static str
    requires { number < 23 }
    ensures { result.now ≡ key_name number }
{
    if number < 10 {
        segment_name(number)
    } else {
        number_name(number - 10)
    }
}

/// The name of a segment.
fn segment_name(place: usize) -> &'static str
    requires { place < 10 }
    ensures { result.now ≡ key_name place }
{
    segments()[place].name
}

/// The name of a number.
fn number_name(place: usize) -> &'static str
    requires { place < 13 }
    ensures { result.now ≡ key_name (10 + place) }
{
    numbers()[place].name
}

/// All keys of a VMSA in JSON: the names of the fields, and `other`.
pub(crate) fn key_names() -> [&'static str; 24]
    ensures { map (λ name. name.now) result ≡ key_names }
{
    let mut names = ["other"; 24];
    'steps: for number in 0..23 {
        names[number] = field_name(number);
    }
    names
}

/// A place in the page lies within a named field.
#[tactic(auto, unfolding(crate::specs::Fields::is_named))]
pub(crate) fn is_named(at: usize) -> bool
    ensures { result ≡ is_named at }
{
    is_in(&SEGMENTS, at) || is_in(&NUMBERS, at)
}

/// A place in the page lies within one of these fields.
fn is_in(fields: &[Field], at: usize) -> bool
    ensures { result ≡ list_any (λ f. is_within (field_of f) at) fields.now }
{
    fields.iter().any(|f| is_within(f, at))
}

/// A place in the page lies within the field.
fn is_within(field: &Field, at: usize) -> bool
    ensures { result ≡ is_within (field_of field.now) at }
{
    at >= field.offset && at - field.offset < field.width
}
