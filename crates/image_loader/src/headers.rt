//! Headers carried out, one after the other.
ghost use Rattle.std.specs.Prelude.{◌≡◌, ◌≤◌, List, [], length, sum_by, OnOk, OnErr};
ghost use Rattle.igvm_image.specs.PlacedView.{placed_view};
ghost use Rattle.igvm_image.specs.RulesInWords.{declared_bytes};
ghost use Rattle.directive_rules.specs.FirstMisfit.{headers_in};
ghost use Rattle.launch_platform.specs.Machine.{started};
ghost use Rattle.image_loader.specs.Sources.{load_in};
ghost use Rattle.image_loader.specs.Loads.{directives};
ghost use Rattle.image_loader.specs.PlacedPages.{header_pages, header_contexts, placed, contexts};
ghost use Rattle.image_loader.specs.LoadCommands.{Did, Stopped, pages_commands, context_commands, header_commands, commands};
ghost use Rattle.image_loader.specs.Fitting.{AreFresh, HasOwnData, PagesEnter, InsertsFit, ContextsFit, AreasFit, Fits, page_in, space_after};
ghost use Rattle.image_loader.specs.Preparing.{FitsAPlan};
ghost use Rattle.image_loader.specs.Carrying.{Ran};

use crate::carrier::Carrier;
use crate::pages::place_pages;
use crate::source::LoadSource;
use crate::step_laws::{next_is_done, next_is_ready};
use directive_rules::tag_of;
use host_set::HostSet;
use igvm_headers::{Failed, Header};
use igvm_image::Placed;
use igvm_image::laws::pages_fit;
use launch_platform::Phase;
use param_areas::Areas;
use platform_masks::applies;

/// Carries out the headers that count for the platform, on a launch that has begun.
pub(crate) fn carry_all<M, C: Carrier<M>>(
    machine: &mut M,
    source: &LoadSource<'_>,
    areas: Areas,
) -> Result<(), Failed>
    requires begun { C.state machine.old ≡ started source.now.platform.kind }
    requires kinds { C.kinds source.now.platform.kind }
    requires fits { FitsAPlan (load_in source.now) }
    requires undeclared { areas.areas ≡ [] }
    requires room { areas.total
        ≡ sum_by declared_bytes (headers_in (directives (load_in source.now))) }
    requires pages { length (placed (load_in source.now)) ≤ (C.spares machine.old).pages }
    requires contexts { length (contexts (load_in source.now)) ≤ (C.spares machine.old).contexts }
    ensures done { OnOk result
        (Ran C.Carrier (commands (load_in source.now)) machine.old machine.new) }
    ensures stopped { OnErr result
        (Stopped C.Carrier (commands (load_in source.now)) machine.old machine.new) }
{
    // Laws: nothing runs.
    next_is_ready();
    next_is_done();
    pages_fit();
    // The view's file is accepted, and of bytes.
    let _fixed = source.view.fixed();
    let mut areas = areas;
    'headers: for placed in source.view.headers() {
        if applies(&placed.header, source.platform.mask) {
            put::<M, C>(machine, &*source, &areas, &placed)?;
            tell(&mut areas, &*source.host, placed);
        }
    }
    Ok(())
}

/// Puts what a header places into a machine.
fn put<'a, M, C: Carrier<M>>(
    machine: &mut M,
    source: &'a LoadSource<'a>,
    areas: &'a Areas,
    placed: &'a Placed<'a>,
) -> Result<(), Failed>
    requires loading { (C.state machine.old).phase ≡ Phase.Loading }
    requires kind { (C.state machine.old).kind ≡ source.now.platform.kind }
    requires kinds { C.kinds source.now.platform.kind }
    requires fits { Fits (load_in source.now) areas.now (C.state machine.old).entries
        (C.state machine.old).contexts (placed_view placed.now) }
    requires pages { length (header_pages (load_in source.now) (page_in areas.now) (placed_view placed.now))
        ≤ (C.spares machine.old).pages }
    requires contexts { length (header_contexts (placed_view placed.now))
        ≤ (C.spares machine.old).contexts }
    ensures done { OnOk result (Did C.Carrier
        (header_commands (load_in source.now) (page_in areas.now)
        (length (C.state machine.old).entries) (placed_view placed.now))
        (length (header_pages (load_in source.now) (page_in areas.now) (placed_view placed.now)))
        (length (header_contexts (placed_view placed.now))) machine.old machine.new) }
    ensures stopped { OnErr result (Stopped C.Carrier
        (header_commands (load_in source.now) (page_in areas.now)
        (length (C.state machine.old).entries) (placed_view placed.now))
        machine.old machine.new) }
{
    put_pages::<M, C>(machine, source, areas, placed)?;
    put_context::<M, C>(machine, source, placed)?;
    Ok(())
}

/// Puts the pages of a header into a machine.
fn put_pages<'a, M, C: Carrier<M>>(
    machine: &mut M,
    source: &'a LoadSource<'a>,
    areas: &'a Areas,
    placed: &'a Placed<'a>,
) -> Result<(), Failed>
    requires loading { (C.state machine.old).phase ≡ Phase.Loading }
    requires kind { (C.state machine.old).kind ≡ source.now.platform.kind }
    requires kinds { C.kinds source.now.platform.kind }
    requires own { HasOwnData (placed_view placed.now) }
    requires fresh { AreFresh (C.state machine.old).entries
        (header_pages (load_in source.now) (page_in areas.now) (placed_view placed.now)) }
    requires fits { PagesEnter (load_in source.now) placed.now.header }
    requires inserted { InsertsFit (load_in source.now) areas.now placed.now.header }
    requires spare { length (header_pages (load_in source.now) (page_in areas.now) (placed_view placed.now))
        ≤ (C.spares machine.old).pages }
    ensures done { OnOk result (Did C.Carrier
        (pages_commands (length (C.state machine.old).entries)
        (header_pages (load_in source.now) (page_in areas.now) (placed_view placed.now)))
        (length (header_pages (load_in source.now) (page_in areas.now) (placed_view placed.now)))
        0 machine.old machine.new) }
    ensures stopped { OnErr result (Stopped C.Carrier
        (pages_commands (length (C.state machine.old).entries)
        (header_pages (load_in source.now) (page_in areas.now) (placed_view placed.now)))
        machine.old machine.new) }
{
    match tag_of(&placed.header, source.platform.kind, source.options) {
        Some(tag) => {
            let count = source.view.placed_pages(&placed.header);
            place_pages::<M, C>(machine, source, areas, placed, tag, count)
        }
        None => Ok(()),
    }
}

/// Puts the context of a header into a machine.
#[tactic(auto, unfolding(crate::specs::PlacedPages::header_contexts))]
fn put_context<M, C: Carrier<M>>(
    machine: &mut M,
    source: &LoadSource<'_>,
    placed: &Placed<'_>,
) -> Result<(), Failed>
    requires loading { (C.state machine.old).phase ≡ Phase.Loading }
    requires kind { (C.state machine.old).kind ≡ source.now.platform.kind }
    requires kinds { C.kinds source.now.platform.kind }
    requires own { HasOwnData (placed_view placed.now) }
    requires fits { ContextsFit (load_in source.now) (C.state machine.old).contexts
        placed.now.header }
    requires spare { length (header_contexts (placed_view placed.now))
        ≤ (C.spares machine.old).contexts }
    ensures done { OnOk result (Did C.Carrier
        (context_commands (header_contexts (placed_view placed.now)))
        0 (length (header_contexts (placed_view placed.now))) machine.old machine.new) }
    ensures stopped { OnErr result (Stopped C.Carrier
        (context_commands (header_contexts (placed_view placed.now))) machine.old machine.new) }
{
    match placed.header {
        Header::Context { vp, gpa, .. } => C::context(machine, vp, gpa, placed.content.page(0)),
        _ => Ok(()),
    }
}

/// What the areas are told by a header.
#[tactic(auto, unfolding(crate::specs::Fitting::space_after))]
fn tell(areas: &mut Areas, host: &HostSet, placed: Placed<'_>)
    requires { AreasFit host.now areas.old placed.header placed.content }
    ensures { areas.new ≡ space_after host.now (placed_view placed.entry) areas.old }
{
    match placed.header {
        Header::Area { bytes, area, .. } => areas.declare(area, bytes, placed.content),
        Header::Param {
            kind,
            area,
            byte_offset,
        } => areas.set(area, byte_offset, host.value(kind)),
        Header::Insert { area, .. } => areas.take(area),
        _ => {}
    }
}
