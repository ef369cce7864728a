//! Images that fit, for a platform whose kind has a launch digest.
ghost use Rattle.std.specs.Prelude.{◌≡◌, None, OnOk, IfOk, IfErr};
ghost use Rattle.directive_rules.specs.FirstMisfit.{first_misfit};
ghost use Rattle.launch_platform.specs.Machine.{HasDigest};
ghost use Rattle.image_loader.specs.Loads.{load_of};
ghost use Rattle.image_loader.specs.Preparing.{IsRefusedBy};

use crate::PrepareRefusal;
use crate::judged::{Judged, judge};
use directive_rules::CheckRefusal;
use host_set::{HostSet, MemoryPlan};
use igvm_headers::{Options, PlatformKind};
use igvm_image::ImageView;
use platform_masks::Platform;
use std::alloc::Global;
use std::marker::Model;

/// An image that fits a host, with all that its load needs. Contracts see what is loaded.
#[derive(Drop)]
pub struct Prepared<'a> {
    pub(crate) judged: Judged<'a>,
}

impl<'a> Model for Prepared<'a> {
    ghost use Rattle.launch_platform.specs.Machine.{HasDigest};
    ghost use Rattle.image_loader.specs.Loads.{Load};

    ghost Value = { Load };

    ghost view = { λ p. p.judged };

    ghost invariant = { λ p. HasDigest p.judged.platform.kind };
}

/// Judges an image for one of its platforms, and takes the memory for its parameter areas. Ok where the
/// platform's kind has a launch digest, and all headers fit the memory plan and the host's values.
pub fn prepare<'a>(
    alloc: Global,
    view: &'a ImageView<'a>,
    platform: Platform,
    options: Options,
    plan: &MemoryPlan,
    host: &'a HostSet,
) -> Result<Prepared<'a>, PrepareRefusal>
    ensures load { IfOk result (λ prepared.
        prepared ≡ load_of view.now platform options host.now) }
    ensures digest { OnOk result (HasDigest platform.kind) }
    ensures fits { OnOk result (first_misfit view.now platform plan.now host.now ≡ None) }
    ensures refused { IfErr result
        (IsRefusedBy platform.kind (first_misfit view.now platform plan.now host.now)) }
{
    let kind = platform.kind;
    match kind {
        PlatformKind::SevSnp | PlatformKind::Tdx => {}
        _ => return Err(PrepareRefusal::NoDigest { kind }),
    }
    match judge(alloc, view, platform, options, plan, host) {
        Ok(judged) => Ok(Prepared { judged }),
        Err(CheckRefusal::Misfit(misfit)) => Err(PrepareRefusal::Misfit(misfit)),
        Err(CheckRefusal::Memory) => Err(PrepareRefusal::Memory),
    }
}
