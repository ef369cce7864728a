//! The host description of a file: docs/HOST.md.
ghost use Rattle.std.specs.Prelude.{◌≡◌, ◌≤◌, Ok, length, IfOk, IfErr};
ghost use Rattle.igvm_words.specs.Words.{LoadWords};
ghost use Rattle.igvm_outside.specs.Files.{IsUnwritten};
ghost use Rattle.igvm_outside.specs.ShelfCalls.{IsRead, OnlyReads};
ghost use Rattle.host_set.specs.Descriptions.{host_of};
ghost use Rattle.igvm_jobs.specs.declared.refusal.LimitOf.TheVariants as limit_of;
ghost use Rattle.igvm_jobs.specs.LoadJob.{Setting, host_limit, host_outcome, host_refused};
ghost use Rattle.igvm_jobs.specs.HostRefusals.{IsOfHost};
ghost use Rattle.igvm_jobs.specs.Refusals.{Refuses};
ghost use Rattle.igvm_jobs.specs.Endings.{IsNotRead};

use crate::file_reading::read_file;
use crate::refusal::{LimitOf, Refusal, line_refusal};
use crate::texts::{field_text, host_part_text, not_json_text};
use host_set::{HostRefusal, HostSet, MemoryPlan, read_host};
use igvm_outside::Shelf;
use std::alloc::Global;

/// The most bytes that the text of a host description may have.
const HOST_LIMIT: u64 = 16_777_216;

/// The text of a host description, or why there is none.
pub fn read_description<S: Shelf>(
    alloc: Global,
    host: &str,
    shelf: &mut S,
) -> Result<Vec<u8>, Refusal>
    ensures read { IfOk result (λ text.
        IsRead S.Shelf host.now host_limit text.items shelf.old shelf.new) }
    ensures refused { IfErr result (λ refusal.
        IsNotRead S.Shelf host.now host_limit limit_of.Host refusal shelf.old shelf.new) }
    ensures only_reads { OnlyReads S.Shelf shelf.old shelf.new }
    ensures unwritten { IsUnwritten (S.state shelf.new) }
{
    read_file(alloc, shelf, host, HOST_LIMIT, LimitOf::Host)
}

/// The memory plan and the values that a text describes, or why there are none.
#[tactic(auto, unfolding(crate::specs::LoadJob::host_outcome))]
pub fn described(alloc: Global, text: &[u8]) -> Result<(MemoryPlan, HostSet), Refusal>
    requires { length text.now ≤ host_limit }
    ensures host { IfOk result (λ host. host_of text.now ≡ Ok (host.0, host.1)) }
    ensures refused { (words : LoadWords) (setting : Setting)
        → IfErr result (Refuses (host_outcome words setting text.now)) }
{
    match read_host(alloc, text) {
        Ok(host) => Ok(host),
        Err(refusal) => Err(host_refusal(alloc, refusal)),
    }
}

/// What a host description that is not read gives.
fn host_refusal(alloc: Global, refusal: HostRefusal) -> Refusal
    ensures { IsOfHost refusal result }
{
    match refusal {
        HostRefusal::NotJson => line_refusal(not_json_text(alloc)),
        HostRefusal::Field { part, item } => line_refusal(field_text(
            alloc,
            host_part_text(part),
            item,
        )),
        HostRefusal::Memory => Refusal::Memory,
    }
}
