//! `vmsa-build JSON OUT`: the page of a VMSA that a text describes.
ghost use Rattle.std.specs.Prelude.{◌≡◌, ◌≤◌, ℕ, List, length, IfOk, IfErr};
ghost use Rattle.vmsa_page.specs.Pages.{page_of};
ghost use Rattle.igvm_jobs.specs.Texts.{built_text};
ghost use Rattle.igvm_jobs.specs.Outcome.{done_writing};
ghost use Rattle.igvm_jobs.specs.Refusals.{Refuses};
ghost use Rattle.igvm_jobs.specs.Endings.{Ends};
ghost use Rattle.igvm_tool.specs.VmsaJobs.{text_limit, text_outcome, vmsa_build_task};

use igvm_jobs::{
    Ended, LimitOf, Refusal, built_text, field_text, line_refusal, not_json_text, read_file,
    write_whole,
};
use igvm_outside::{Shelf, Sink};
use std::alloc::Global;
use vmsa_page::{Vmsa, VmsaRefusal, read_vmsa_json, write_page};

/// The most bytes that the text of a VMSA may have.
const TEXT_LIMIT: u64 = 16_777_216;

/// Writes the page of a VMSA and puts how many bytes it has, or says why not.
pub fn build_vmsa_file<S: Shelf, O: Sink>(
    alloc: Global,
    json: &str,
    target: &str,
    shelf: &mut S,
    out: &mut O,
) -> Result<Ended, Refusal>
    ensures { Ends S.Shelf O.Sink (vmsa_build_task json.now target.now) result
        shelf.old shelf.new out.old out.new }
{
    let text = read_file(alloc, shelf, json, TEXT_LIMIT, LimitOf::Vmsa)?;
    let vmsa = described(alloc, text.as_slice())?;
    let line = built_text(alloc, 4096)?;
    let mut page = [0; 4096];
    write_page(&vmsa, &mut page);
    write_whole(target, &page, line.as_bytes(), shelf, out)
}

/// The VMSA that a text describes, or why there is none.
#[tactic(auto, unfolding(crate::specs::VmsaJobs::text_outcome))]
fn described(alloc: Global, text: &[u8]) -> Result<Vmsa, Refusal>
    ensures vmsa { IfOk result (λ vmsa. (target : List ℕ) → text_outcome target text.now
        ≡ done_writing target (page_of vmsa) (built_text 4096)) }
    ensures refused { (target : List ℕ) → IfErr result (Refuses (text_outcome target text.now)) }
{
    match read_vmsa_json(alloc, text) {
        Ok(vmsa) => Ok(vmsa),
        Err(VmsaRefusal::NotJson) => Err(line_refusal(not_json_text(alloc))),
        Err(VmsaRefusal::Field { place }) => Err(line_refusal(field_text(alloc, "vmsa", place))),
        Err(VmsaRefusal::Memory) => Err(Refusal::Memory),
    }
}
