//! Images that are known to fit, and how they are carried out on machines of any make.
ghost use Rattle.std.specs.Prelude.{◌≡◌, ◌≤◌, length, None, OnOk, OnErr, IfOk, IfErr};
ghost use Rattle.std.specs.List.{filter_map};
ghost use Rattle.std.specs.Option.{option_to_list};
ghost use Rattle.directive_rules.specs.CheckAnswers.{IsRefusalBy};
ghost use Rattle.directive_rules.specs.FirstMisfit.{first_misfit};
ghost use Rattle.directive_rules.specs.LoadCounts.{wanted_of};
ghost use Rattle.launch_platform.specs.Machine.{started};
ghost use Rattle.image_loader.specs.Loads.{load_of, directives};
ghost use Rattle.image_loader.specs.PlacedPages.{placed, contexts};
ghost use Rattle.image_loader.specs.LoadCommands.{Stopped, commands};
ghost use Rattle.image_loader.specs.Carrying.{Ran};
ghost use Rattle.image_loader.specs.Preparing.{FitsAPlan};

use crate::carrier::Carrier;
use crate::headers::carry_all;
use crate::laws::counts_suffice;
use crate::source::LoadSource;
use directive_rules::{CheckRefusal, IdWanted, check};
use host_set::{HostSet, MemoryPlan};
use igvm_headers::{Failed, Options};
use igvm_image::ImageView;
use param_areas::Areas;
use platform_masks::Platform;
use std::alloc::Global;
use std::marker::Model;

/// An image that fits a host, for a platform of any kind, with all that its load needs. Contracts see
/// what is loaded.
#[derive(Drop)]
pub struct Judged<'a> {
    source: LoadSource<'a>,
    areas: Areas,
    pages: u32,
    contexts: u32,
    id: Option<IdWanted>,
}

impl<'a> Model for Judged<'a> {
    ghost use Rattle.image_loader.specs.Loads.{Load};
    ghost use Rattle.image_loader.specs.Sources.{load_in};
    ghost use Rattle.image_loader.specs.Preparing.{IsReady};

    ghost Value = { Load };

    ghost view = { λ p. load_in p.source };

    ghost invariant = { λ p. IsReady (load_in p.source) p.areas p.pages p.contexts p.id };
}

/// Judges an image for one of its platforms, and takes the memory for its parameter areas. Ok where all
/// headers fit the memory plan and the host's values; else the first misfit, or want of memory.
pub fn judge<'a>(
    alloc: Global,
    view: &'a ImageView<'a>,
    platform: Platform,
    options: Options,
    plan: &MemoryPlan,
    host: &'a HostSet,
) -> Result<Judged<'a>, CheckRefusal>
    ensures load { IfOk result (λ judged. judged ≡ load_of view.now platform options host.now) }
    ensures fits { OnOk result (first_misfit view.now platform plan.now host.now ≡ None) }
    ensures refused { IfErr result
        (IsRefusalBy (first_misfit view.now platform plan.now host.now)) }
{
    let checked = match check(alloc, view, platform, plan, host) {
        Ok(checked) => checked,
        Err(refusal) => return Err(refusal),
    };
    let Ok(areas) = Areas::reserve(alloc, checked.area_bytes) else {
        return Err(CheckRefusal::Memory);
    };
    // A law: nothing runs.
    counts_suffice();
    Ok(Judged {
        source: LoadSource {
            view,
            platform,
            options,
            host,
        },
        areas,
        pages: checked.pages,
        contexts: checked.contexts,
        id: checked.id,
    })
}

impl<'a> Judged<'a> {
    /// The platform that it is loaded for.
    pub fn platform(&self) -> Platform
        ensures { result ≡ self.now.platform }
    {
        self.source.platform
    }

    /// A number of pages that a machine needs room for: at most 524,288.
    pub fn pages(&self) -> u32
        ensures enough { length (placed self.now) ≤ result }
        ensures few { result ≤ 524288 }
    {
        self.pages
    }

    /// A number of contexts that a machine needs room for: at most 65,536.
    pub fn contexts(&self) -> u32
        ensures enough { length (contexts self.now) ≤ result }
        ensures few { result ≤ 65536 }
    {
        self.contexts
    }

    /// The digest that the ID block wants which counts, if there is one, of an image that fits.
    pub(crate) fn wanted(&self) -> Option<IdWanted>
        ensures id { option_to_list result ≡ filter_map wanted_of (directives self.now) }
        ensures fits { FitsAPlan self.now }
    {
        self.id
    }
}

/// Carries an image out on a machine whose launch has begun, for the image's kind of platform, and that
/// has room for its pages and contexts. A fault stops it behind a front of the commands.
pub fn carry<M, C: Carrier<M>>(judged: Judged<'_>, machine: &mut M) -> Result<(), Failed>
    requires begun { C.state machine.old ≡ started judged.platform.kind }
    requires kinds { C.kinds judged.platform.kind }
    requires pages { length (placed judged) ≤ (C.spares machine.old).pages }
    requires contexts { length (contexts judged) ≤ (C.spares machine.old).contexts }
    ensures done { OnOk result (Ran C.Carrier (commands judged.entry) machine.old machine.new) }
    ensures stopped { OnErr result
        (Stopped C.Carrier (commands judged.entry) machine.old machine.new) }
{
    let source = judged.source;
    carry_all::<M, C>(machine, &source, judged.areas)
}
