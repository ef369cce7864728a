//! The text of each kind of header, by its fields: docs/PROGRAM.md, "The listing".
ghost use Rattle.std.specs.Prelude.{◌≡◌, ℕ, ◌≤◌, ◌+◌, ◌++◌, length};
ghost use Rattle.dump_text.specs.PageWords.{size_text, measured_text};
ghost use Rattle.dump_text.specs.Lines.{platform_text, policy_text, area_text, page_text, insert_text, parameter_text, context_text, required_text, error_range_text, id_block_text, carried_text};

use igvm_headers::{
    Digest, PageKind, ParamKind, PlatformKind, kind_name, page_kind_name, param_name,
};
use line_buffer::LineBuffer;

/// A platform, with its own number.
#[tactic(auto, using(std::proofs::Common::append_assoc), unfolding(crate::specs::Lines::platform_text))]
pub(crate) fn platform(
    text: &mut LineBuffer,
    number: u32,
    mask: u32,
    highest_vtl: u8,
    kind: PlatformKind,
    version: u16,
    shared_gpa: u64,
)
    requires { length text.old + 400 ≤ 16384 }
    ensures text { text.new ≡ text.old ++ platform_text number mask highest_vtl kind version shared_gpa }
    ensures grown { length text.new ≤ length text.old + 400 }
{
    text.number("platform ", number as u64);
    text.eight_digits(" mask ", mask);
    text.word(" kind ", kind_name(kind));
    text.number(" vtl ", highest_vtl as u64);
    text.number(" version ", version as u64);
    text.sixteen_digits(" shared ", shared_gpa);
}

/// A guest policy.
pub(crate) fn policy(text: &mut LineBuffer, policy: u64, mask: u32)
    requires { length text.old + 400 ≤ 16384 }
    ensures text { text.new ≡ text.old ++ policy_text policy mask }
    ensures grown { length text.new ≤ length text.old + 400 }
{
    text.eight_digits("policy mask ", mask);
    text.sixteen_digits(" value ", policy);
}

/// A parameter area.
#[tactic(auto, using(std::proofs::Common::append_assoc), unfolding(crate::specs::Lines::area_text))]
pub(crate) fn area(text: &mut LineBuffer, bytes: u64, area: u32, offset: u32)
    requires { length text.old + 400 ≤ 16384 }
    ensures text { text.new ≡ text.old ++ area_text bytes area offset }
    ensures grown { length text.new ≤ length text.old + 400 }
{
    text.number("area ", area as u64);
    text.number(" bytes ", bytes);
    text.number(" from ", offset as u64);
}

/// A page.
#[tactic(auto, using(std::proofs::Common::append_assoc), unfolding(crate::specs::Lines::page_text))]
pub(crate) fn page(
    text: &mut LineBuffer,
    gpa: u64,
    mask: u32,
    offset: u32,
    large: bool,
    unmeasured: bool,
    kind: PageKind,
)
    requires { length text.old + 400 ≤ 16384 }
    ensures text { text.new ≡ text.old ++ page_text gpa mask offset large unmeasured kind }
    ensures grown { length text.new ≤ length text.old + 400 }
{
    text.sixteen_digits("page gpa ", gpa);
    text.eight_digits(" mask ", mask);
    text.number(" from ", offset as u64);
    text.word(" size ", size_name(large));
    text.word(" ", measured_name(unmeasured));
    text.word(" ", page_kind_name(kind));
}

/// The size of a page in bytes.
fn size_name(large: bool) -> &'static str
    ensures { result.now ≡ size_text large }
{
    if large { "2097152" } else { "4096" }
}

/// Whether a page is measured.
fn measured_name(unmeasured: bool) -> &'static str
    ensures { result.now ≡ measured_text unmeasured }
{
    if unmeasured { "unmeasured" } else { "measured" }
}

/// A parameter area put into the guest.
#[tactic(auto, using(std::proofs::Common::append_assoc), unfolding(crate::specs::Lines::insert_text))]
pub(crate) fn insert(text: &mut LineBuffer, gpa: u64, mask: u32, area: u32)
    requires { length text.old + 400 ≤ 16384 }
    ensures text { text.new ≡ text.old ++ insert_text gpa mask area }
    ensures grown { length text.new ≤ length text.old + 400 }
{
    text.sixteen_digits("insert gpa ", gpa);
    text.eight_digits(" mask ", mask);
    text.number(" area ", area as u64);
}

/// A value of the host, written into an area.
#[tactic(auto, using(std::proofs::Common::append_assoc), unfolding(crate::specs::Lines::parameter_text))]
pub(crate) fn parameter(text: &mut LineBuffer, kind: ParamKind, area: u32, byte_offset: u32)
    requires { length text.old + 400 ≤ 16384 }
    ensures text { text.new ≡ text.old ++ parameter_text kind area byte_offset }
    ensures grown { length text.new ≤ length text.old + 400 }
{
    text.word("param ", param_name(kind));
    text.number(" area ", area as u64);
    text.number(" offset ", byte_offset as u64);
}

/// The state of a virtual processor.
pub(crate) fn context(text: &mut LineBuffer, gpa: u64, mask: u32, offset: u32, vp: u16)
    requires { length text.old + 400 ≤ 16384 }
    ensures text { text.new ≡ text.old ++ context_text gpa mask offset vp }
    ensures grown { length text.new ≤ length text.old + 400 }
{
    text.sixteen_digits("context gpa ", gpa);
    text.eight_digits(" mask ", mask);
    text.number(" from ", offset as u64);
    text.number(" vp ", vp as u64);
}

/// Memory that the guest needs.
pub(crate) fn required(text: &mut LineBuffer, gpa: u64, mask: u32, bytes: u32, flags: u32)
    requires { length text.old + 400 ≤ 16384 }
    ensures text { text.new ≡ text.old ++ required_text gpa mask bytes flags }
    ensures grown { length text.new ≤ length text.old + 400 }
{
    text.sixteen_digits("required gpa ", gpa);
    text.eight_digits(" mask ", mask);
    text.number(" bytes ", bytes as u64);
    text.eight_digits(" flags ", flags);
}

/// Memory where the guest reports errors.
#[tactic(auto, using(std::proofs::Common::append_assoc), unfolding(crate::specs::Lines::error_range_text))]
pub(crate) fn error_range(text: &mut LineBuffer, gpa: u64, mask: u32, bytes: u32)
    requires { length text.old + 400 ≤ 16384 }
    ensures text { text.new ≡ text.old ++ error_range_text gpa mask bytes }
    ensures grown { length text.new ≤ length text.old + 400 }
{
    text.sixteen_digits("error-range gpa ", gpa);
    text.eight_digits(" mask ", mask);
    text.number(" bytes ", bytes as u64);
}

/// An ID block.
pub(crate) fn id_block(
    text: &mut LineBuffer,
    mask: u32,
    author_enabled: u8,
    ld: &Digest,
    family_id: &[u8; 16],
    image_id: &[u8; 16],
    version: u32,
    guest_svn: u32,
    id_algorithm: u32,
    author_algorithm: u32,
)
    requires { length text.old + 400 ≤ 16384 }
    ensures text { text.new ≡ text.old
        ++ id_block_text mask author_enabled ld.now family_id.now image_id.now version guest_svn
        id_algorithm author_algorithm }
    ensures grown { length text.new ≤ length text.old + 400 }
{
    text.eight_digits("id-block mask ", mask);
    text.number(" author ", author_enabled as u64);
    text.digits(" ld ", ld.bytes());
    text.digits(" family ", family_id);
    text.digits(" image ", image_id);
    text.number(" version ", version as u64);
    text.number(" svn ", guest_svn as u64);
    text.number(" algorithms ", id_algorithm as u64);
    text.number(" ", author_algorithm as u64);
}

/// A header that is carried as bytes.
pub(crate) fn carried(text: &mut LineBuffer, kind: u32, size: u32)
    requires { length text.old + 400 ≤ 16384 }
    ensures text { text.new ≡ text.old ++ carried_text kind size }
    ensures grown { length text.new ≤ length text.old + 400 }
{
    text.eight_digits("carried kind ", kind);
    text.number(" length ", size as u64);
}
