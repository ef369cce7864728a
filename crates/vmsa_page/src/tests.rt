//! Pages and texts, both ways, through the public calls.
ghost use Rattle.std.specs.Prelude.{◌≤◌, length};

mod field_offsets;
mod page_bytes;
mod printed_texts;
mod refusals;

use super::*;
use std::alloc::Global;

/// The page of a text that describes one.
fn page_of(alloc: Global, text: &str) -> Result<[u8; 4096], &'static str> {
    let vmsa = read_vmsa_json(alloc, text.as_bytes())
        .ok()
        .ok_or("refused")?;
    let mut page = [1; 4096];
    write_page(&vmsa, &mut page);
    Ok(page)
}

/// The text of a page.
fn text_of(alloc: Global, page: &[u8]) -> Result<Vec<u8>, &'static str>
    requires { length page.now ≤ 4096 }
{
    let vmsa = read_page(alloc, page).ok().ok_or("memory")?;
    vmsa_text(alloc, &vmsa).ok().ok_or("memory")
}
