//! Pages put into a machine.
ghost use Rattle.std.specs.Prelude.{◌≡◌, ◌<◌, ◌≤◌, ◌+◌, ◌*◌, ◌%◌, ◌^◌, true, false, Some, length, map, OnOk, OnErr, IfSome};
ghost use Rattle.std.specs.List.{range_with_len};
ghost use Rattle.igvm_headers.specs.HeaderFacts.{gpa_of};
ghost use Rattle.directive_rules.specs.Tags.{tag_of};
ghost use Rattle.igvm_image.specs.PlacedView.{placed_view};
ghost use Rattle.launch_platform.specs.Machine.{is_placed};
ghost use Rattle.launch_platform.specs.Commands.{CanAdd, CanExtend, TagFits};
ghost use Rattle.image_loader.specs.Sources.{load_in};
ghost use Rattle.image_loader.specs.PlacedPages.{page_with, page_at, page_bytes, kind_page, added_by, is_extended};
ghost use Rattle.image_loader.specs.LoadCommands.{Did, Stopped, add_command, extend_command, page_commands, pages_commands};
ghost use Rattle.image_loader.specs.Fitting.{AreFresh, HasOwnData, HasPages, page_in};

use crate::carrier::Carrier;
use crate::source::LoadSource;
use host_set::HostSet;
use igvm_headers::{Failed, Header, PageKind, PageView, PlatformKind, Tag};
use igvm_image::{DataView, Placed};
use launch_platform::Phase;
use param_areas::Areas;

/// Puts so many pages of a header into a machine, with their tag.
pub(crate) fn place_pages<'a, M, C: Carrier<M>>(
    machine: &mut M,
    source: &'a LoadSource<'a>,
    areas: &'a Areas,
    placed: &'a Placed<'a>,
    tag: Tag,
    count: u64,
) -> Result<(), Failed>
    requires loading { (C.state machine.old).phase ≡ Phase.Loading }
    requires kind { (C.state machine.old).kind ≡ source.now.platform.kind }
    requires kinds { C.kinds source.now.platform.kind }
    requires tag { tag_of placed.now.header source.now.platform.kind source.now.options
        ≡ Some tag }
    requires spare { count ≤ (C.spares machine.old).pages }
    requires aligned { gpa_of placed.now.header % 4096 ≡ 0 }
    requires within { gpa_of placed.now.header + 4096 * count ≤ 2 ^ 64 }
    requires own { HasOwnData (placed_view placed.now) }
    requires pages { HasPages areas.now placed.now.header placed.now.content count }
    requires fresh { AreFresh (C.state machine.old).entries
        (map (page_at (load_in source.now) (page_in areas.now) (placed_view placed.now) tag)
        (range_with_len 0 count)) }
    ensures done { OnOk result (Did C.Carrier (pages_commands (length (C.state machine.old).entries)
        (map (page_at (load_in source.now) (page_in areas.now) (placed_view placed.now) tag)
        (range_with_len 0 count))) count 0 machine.old machine.new) }
    ensures stopped { OnErr result (Stopped C.Carrier
        (pages_commands (length (C.state machine.old).entries)
        (map (page_at (load_in source.now) (page_in areas.now) (placed_view placed.now) tag)
        (range_with_len 0 count))) machine.old machine.new) }
{
    let gpa = placed.header.gpa();
    let added = added_by(source.platform.kind, tag);
    let extended = is_extended(source.platform.kind, tag);
    'pages: for k in 0..count {
        let page = header_page(source.host, areas, placed, k);
        place_page::<M, C>(machine, gpa + 4096 * k, page, added, extended)?;
    }
    Ok(())
}

/// Puts a page into a machine, and adds it to the launch, where it has a tag.
fn place_page<M, C: Carrier<M>>(
    machine: &mut M,
    gpa: u64,
    page: PageView<'_>,
    tag: Option<Tag>,
    extended: bool,
) -> Result<(), Failed>
    requires loading { (C.state machine.old).phase ≡ Phase.Loading }
    requires spare { 0 < (C.spares machine.old).pages }
    requires aligned { gpa % 4096 ≡ 0 }
    requires new { is_placed gpa (C.state machine.old).entries ≡ false }
    requires fits { IfSome tag (λ tag. TagFits (C.state machine.old).kind tag page) }
    requires kinds { C.kinds (C.state machine.old).kind }
    requires kind { extended ≡ true → (C.state machine.old).kind ≡ PlatformKind.Tdx }
    requires normal { extended ≡ true → tag ≡ Some Tag.Normal }
    ensures done { OnOk result (Did C.Carrier (page_commands (length (C.state machine.old).entries)
        (page_with gpa page.entry tag extended)) 1 0 machine.old machine.new) }
    ensures stopped { OnErr result (Stopped C.Carrier
        (page_commands (length (C.state machine.old).entries)
        (page_with gpa page.entry tag extended)) machine.old machine.new) }
{
    // What was just placed can be added, and then extended.
    launch_platform::pages_enter();
    let slot = C::place(machine, gpa, page)?;
    add_page::<M, C>(machine, slot, tag)?;
    extend_page::<M, C>(machine, slot, extended)?;
    Ok(())
}

/// Adds a placed page to the launch, where it has a tag.
fn add_page<M, C: Carrier<M>>(machine: &mut M, slot: u32, tag: Option<Tag>) -> Result<(), Failed>
    requires kinds { C.kinds (C.state machine.old).kind }
    requires loading { (C.state machine.old).phase ≡ Phase.Loading }
    requires entry { IfSome tag (λ tag. CanAdd slot tag (C.state machine.old)) }
    ensures done { OnOk result
        (Did C.Carrier (add_command tag slot) 0 0 machine.old machine.new) }
    ensures stopped { OnErr result
        (Stopped C.Carrier (add_command tag slot) machine.old machine.new) }
{
    match tag {
        Some(tag) => C::add(machine, slot, tag),
        None => Ok(()),
    }
}

/// Measures the bytes of a page, where that is due.
fn extend_page<M, C: Carrier<M>>(machine: &mut M, slot: u32, extended: bool) -> Result<(), Failed>
    requires kinds { C.kinds (C.state machine.old).kind }
    requires loading { (C.state machine.old).phase ≡ Phase.Loading }
    requires kind { extended ≡ true → (C.state machine.old).kind ≡ PlatformKind.Tdx }
    requires entry { extended ≡ true → CanExtend slot (C.state machine.old) }
    ensures done { OnOk result
        (Did C.Carrier (extend_command extended slot) 0 0 machine.old machine.new) }
    ensures stopped { OnErr result
        (Stopped C.Carrier (extend_command extended slot) machine.old machine.new) }
{
    if extended {
        C::extend(machine, slot)
    } else {
        Ok(())
    }
}

/// The tag by which a page is added: SEV-SNP and TDX are told of each page, other platforms of those
/// whose bytes are measured.
fn added_by(kind: PlatformKind, tag: Tag) -> Option<Tag>
    ensures { result ≡ added_by kind tag }
{
    match (kind, tag) {
        (PlatformKind::SevSnp | PlatformKind::Tdx, tag) => Some(tag),
        (_, Tag::Normal) => Some(Tag::Normal),
        _ => None,
    }
}

/// TDX measures the bytes of normal pages by `extend`.
fn is_extended(kind: PlatformKind, tag: Tag) -> bool
    ensures { result ≡ is_extended kind tag }
{
    matches!((kind, tag), (PlatformKind::Tdx, Tag::Normal))
}

/// Page `k` of a header, from where it lies.
fn header_page<'a>(
    host: &'a HostSet,
    areas: &'a Areas,
    placed: &'a Placed<'a>,
    k: u64,
) -> PageView<'a>
    requires { HasPages areas.now placed.now.header placed.now.content (k + 1) }
    ensures { result
        ≡ page_bytes host.now (page_in areas.now) placed.now.header placed.now.content k }
{
    if let Header::Insert { area, .. } = placed.header {
        return PageView::of_bytes(areas.page(area, k));
    }
    if let Header::Page { kind, .. } = placed.header {
        return kind_page(host, &placed.content, kind, k);
    }
    unreachable!()
}

/// Page `k` of the data, or what the host has for a page of this kind.
fn kind_page<'a>(
    host: &'a HostSet,
    content: &'a DataView<'a>,
    kind: PageKind,
    k: u64,
) -> PageView<'a>
    requires { k < content.now.pages }
    ensures { result ≡ kind_page host.now kind content.now k }
{
    match kind {
        PageKind::Normal => content.page(k),
        PageKind::Secrets => PageView::of_bytes(host.secrets()),
        PageKind::Cpuid | PageKind::CpuidXf => PageView::of_bytes(host.cpuid()),
    }
}
