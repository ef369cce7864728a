//! `vmsa-print FILE`: the text of a VMSA page.
ghost use Rattle.igvm_jobs.specs.Endings.{Ends};
ghost use Rattle.igvm_tool.specs.VmsaJobs.{vmsa_print_task};

use igvm_jobs::{Ended, LimitOf, Refusal, put_end, read_file};
use igvm_outside::{Shelf, Sink};
use std::alloc::Global;
use vmsa_page::{read_page, vmsa_text};

/// The most bytes that a VMSA page may have.
const PAGE_LIMIT: u64 = 4096;

/// Puts the text of a VMSA page, without a newline, or says why not.
pub fn put_vmsa_text<S: Shelf, O: Sink>(
    alloc: Global,
    file: &str,
    shelf: &mut S,
    out: &mut O,
) -> Result<Ended, Refusal>
    ensures { Ends S.Shelf O.Sink (vmsa_print_task file.now) result
        shelf.old shelf.new out.old out.new }
{
    let page = read_file(alloc, shelf, file, PAGE_LIMIT, LimitOf::Vmsa)?;
    let Ok(vmsa) = read_page(alloc, page.as_slice()) else {
        return Err(Refusal::Memory);
    };
    let Ok(text) = vmsa_text(alloc, &vmsa) else {
        return Err(Refusal::Memory);
    };
    put_end(out, Ended::Done, text.as_slice())
}
