//! A host, and what it answers for made images.
use super::images::image;
use crate::{CheckRefusal, Checked, Why, check};
use host_set::{HostSet, MemoryPlan, PlanRange};
use igvm_headers::{ParamKind, PlatformKind};
use igvm_image::open_image;
use platform_masks::Platform;
use std::alloc::Global;
use std::process::Abort;
use std::test::Fail;

/// What an image comes to, or the number of the first header that doesn't fit, and why.
type Answer = Result<Checked, (u32, Why)>;

/// The number of the first header that doesn't fit, and why.
type Misfit = Option<(u32, Why)>;

/// The memory and the values of a host.
#[derive(Drop)]
pub(crate) struct Host {
    alloc: Global,
    plan: MemoryPlan,
    values: HostSet,
}

impl Host {
    /// Guest memory from address 0 on, and a command line of 4 bytes.
    pub(crate) fn new(alloc: Global, bytes: u64) -> Result<Host, Fail> {
        let mut ranges = Vec::new(alloc);
        ranges.push(PlanRange { start: 0, bytes })?;
        let mut values = HostSet::empty(alloc);
        values.set(ParamKind::CommandLine, b"abcd")?;
        Ok(Host {
            alloc,
            plan: MemoryPlan::from_ranges(ranges).ok().ok_or("refused")?,
            values,
        })
    }

    /// What it answers for these headers, by the platform of SEV-SNP under mask 1.
    pub(crate) fn on_snp(&self, rt: &impl Abort, headers: &[u8]) -> Result<Answer, Fail> {
        self.answer(rt, headers, first(PlatformKind::SevSnp))
    }

    /// What it answers for these headers, by the platform of TDX under mask 2.
    pub(crate) fn on_tdx(&self, rt: &impl Abort, headers: &[u8]) -> Result<Answer, Fail> {
        self.answer(rt, headers, second(PlatformKind::Tdx))
    }

    /// The first header that doesn't fit by the platform of SEV-SNP, and why.
    pub(crate) fn snp_misfit(&self, rt: &impl Abort, headers: &[u8]) -> Result<Misfit, Fail> {
        self.misfit(rt, headers, first(PlatformKind::SevSnp))
    }

    /// The first header that doesn't fit by the platform of TDX, and why.
    pub(crate) fn tdx_misfit(&self, rt: &impl Abort, headers: &[u8]) -> Result<Misfit, Fail> {
        self.misfit(rt, headers, second(PlatformKind::Tdx))
    }

    /// The first header that doesn't fit by the platform of SEV-ES under mask 1, and why.
    pub(crate) fn sev_es_misfit(&self, rt: &impl Abort, headers: &[u8]) -> Result<Misfit, Fail> {
        self.misfit(rt, headers, first(PlatformKind::SevEs))
    }

    /// The first header that doesn't fit by the platform of SEV under mask 2, and why.
    pub(crate) fn sev_misfit(&self, rt: &impl Abort, headers: &[u8]) -> Result<Misfit, Fail> {
        self.misfit(rt, headers, second(PlatformKind::Sev))
    }

    /// The first header that doesn't fit by a platform, and why.
    fn misfit(&self, rt: &impl Abort, headers: &[u8], platform: Platform) -> Result<Misfit, Fail> {
        match self.answer(rt, headers, platform) {
            Ok(answer) => Ok(answer.err()),
            Err(fail) => Err(fail),
        }
    }

    /// What it answers for these headers and a platform.
    fn answer(&self, rt: &impl Abort, headers: &[u8], platform: Platform) -> Result<Answer, Fail> {
        let file = image(self.alloc, headers)?;
        assert!(rt; file.len() <= 536_870_912);
        let view = open_image(&file).expect(rt, "a file that breaks no rule");
        match check(self.alloc, &view, platform, &self.plan, &self.values) {
            Ok(checked) => Ok(Ok(checked)),
            Err(CheckRefusal::Misfit(misfit)) => Ok(Err((misfit.index, misfit.why))),
            Err(CheckRefusal::Memory) => Err("no memory".into()),
        }
    }
}

/// The first platform of an image, under mask 1.
fn first(kind: PlatformKind) -> Platform {
    platform(0, 1, kind)
}

/// The second one, under mask 2.
fn second(kind: PlatformKind) -> Platform {
    platform(1, 2, kind)
}

/// A platform by its number among the headers, its mask and its kind.
fn platform(number: u32, mask: u32, kind: PlatformKind) -> Platform {
    Platform {
        number,
        mask,
        kind,
        highest_vtl: 0,
        version: 1,
        shared_gpa: 0,
    }
}
