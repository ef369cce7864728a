//! A host that loads made images, and what stands in its machine then.
ghost use Rattle.std.specs.Prelude.{◌≡◌};

use crate::{ExecuteRefusal, LoadAnswer, PrepareRefusal, execute, prepare};
use host_set::{HostSet, MemoryPlan, PlanRange};
use igvm_headers::{Options, ParamKind, Tag};
use igvm_image::open_image;
use launch_platform::{Launch, MemLaunch, Phase};
use std::alloc::{AllocError, Global};
use std::process::Abort;
use std::test::Fail;

/// Guest memory of 256 MB from address 0 on.
pub(crate) const MEMORY: PlanRange = PlanRange {
    start: 0,
    bytes: 0x1000_0000,
};

/// What a load comes to.
pub(crate) type Answer = Result<Result<LoadAnswer, ExecuteRefusal>, PrepareRefusal>;

/// A page in a machine: its address, how it entered the launch, and whether it was extended.
pub(crate) type Row = (u64, Option<Tag>, bool);

/// The memory and the values of a host.
#[derive(Drop)]
pub(crate) struct Host {
    pub alloc: Global,
    pub plan: MemoryPlan,
    pub values: HostSet,
}

/// What a load came to, and its machine then.
#[derive(Drop)]
pub(crate) struct Outcome {
    pub answer: Answer,
    pub machine: MemLaunch,
}

impl Host {
    /// A host with this guest memory, and no values.
    pub(crate) fn new(alloc: Global, ranges: &[PlanRange]) -> Result<Host, Fail> {
        let ranges = ranges.to_vec(alloc)?;
        Ok(Host {
            alloc,
            plan: MemoryPlan::from_ranges(ranges).ok().ok_or("refused")?,
            values: HostSet::empty(alloc),
        })
    }

    /// A host with this guest memory, and these values.
    pub(crate) fn with_values(
        rt: &impl Abort,
        alloc: Global,
        ranges: &[PlanRange],
        secrets: &[u8],
        cpuid: &[u8],
        command_line: &[u8],
    ) -> Result<Host, Fail> {
        assert!(rt; secrets.len() <= 4096 && cpuid.len() <= 4096 && command_line.len() <= 4096);
        let mut host = Host::new(alloc, ranges)?;
        host.values.set_secrets(secrets)?;
        host.values.set_cpuid(cpuid)?;
        host.values.set(ParamKind::CommandLine, command_line)?;
        Ok(host)
    }

    /// What a file comes to on a machine, for its platform of a number.
    pub(crate) fn load_into<L: Launch>(
        &self,
        rt: &impl Abort,
        file: &[u8],
        number: u32,
        options: Options,
        machine: &mut L,
    ) -> Result<Answer, Fail>
        requires { (L.state machine.old).phase ≡ Phase.Idle }
    {
        assert!(rt; file.len() <= 536_870_912);
        let view = open_image(file).expect(rt, "a file that breaks no rule");
        let platform = view.platforms().by_number(number).ok_or("no platform")?;
        match prepare(
            self.alloc,
            &view,
            platform,
            options,
            &self.plan,
            &self.values,
        ) {
            Ok(prepared) => Ok(Ok(execute(prepared, machine))),
            Err(refusal) => Ok(Err(refusal)),
        }
    }

    /// What it comes to on a machine in memory, with no option.
    pub(crate) fn load(&self, rt: &impl Abort, file: &[u8], number: u32) -> Result<Outcome, Fail> {
        self.load_with(rt, file, number, Options::plain())
    }

    /// What it comes to on a machine in memory.
    pub(crate) fn load_with(
        &self,
        rt: &impl Abort,
        file: &[u8],
        number: u32,
        options: Options,
    ) -> Result<Outcome, Fail> {
        let mut machine = MemLaunch::new(self.alloc);
        let answer = self.load_into(rt, file, number, options, &mut machine)?;
        Ok(Outcome { answer, machine })
    }
}

/// The pages in a machine but their bytes, in their order.
pub(crate) fn rows_of(alloc: Global, machine: &MemLaunch) -> Result<Vec<Row>, AllocError> {
    let mut rows = Vec::new(alloc);
    for k in 0..machine.entries() {
        if let Some(entry) = machine.entry(k) {
            rows.push((entry.gpa, entry.tag, entry.extended))?;
        }
    }
    Ok(rows)
}

/// A page is these bytes, followed by zeros.
pub(crate) fn is_padded(page: &[u8], front: &[u8]) -> bool {
    match page.strip_prefix(front) {
        Some(rest) => rest.iter().all(|byte| *byte == 0),
        None => false,
    }
}
