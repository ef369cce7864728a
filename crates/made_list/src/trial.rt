//! A host for trials, which the image of every made list fits on SEV-SNP.
ghost use Rattle.std.specs.Prelude.{◌≡◌, IfOk};
ghost use Rattle.made_list.specs.MadeImage.{trial_host, trial_plan};

use host_set::{HostSet, MemoryPlan, PlanRange};
use igvm_headers::{Memory, ParamKind};
use std::alloc::Global;

/// 4 GB of memory, from guest physical address 0 on.
#[tactic(auto, using(crate::proofs::TrialPlan::no_bad_range))]
pub fn trial_plan(alloc: Global) -> Result<MemoryPlan, Memory>
    ensures { IfOk result (λ plan. plan ≡ trial_plan) }
{
    let mut ranges = Vec::new(alloc);
    ranges.push(PlanRange {
        start: 0,
        bytes: 0x1_0000_0000,
    })?;
    match MemoryPlan::from_ranges(ranges) {
        Ok(plan) => Ok(plan),
        // One range of whole pages from 0 on breaks no rule.
        Err(_) => unreachable!(),
    }
}

/// A command line of 13 bytes, and no other value.
pub fn trial_host(alloc: Global) -> Result<HostSet, Memory>
    ensures { IfOk result (λ host. host ≡ trial_host) }
{
    let mut host = HostSet::empty(alloc);
    host.set(ParamKind::CommandLine, b"console=ttyS0")?;
    Ok(host)
}
