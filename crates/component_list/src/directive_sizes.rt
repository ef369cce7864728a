//! How much a directive names with its file, and what that passes.
ghost use Rattle.std.specs.Prelude.{◌≡◌, ◌≤◌, length, option_map};
ghost use Rattle.component_list.specs.Expansion.{breaks_end, breaks_size, bytes_or_none, content_bytes, is_longer, pages_named, size_if};

use crate::page_run::{pages_for, passes_end};
use crate::source::Directive;
use igvm_headers::{PAGE_SIZE, page_bytes, small_pages};

/// The bytes of a file, lent, where there is one.
pub(crate) fn lent(file: &Option<Vec<u8>>) -> Option<&[u8]>
    ensures { option_map (λ b. b.now) result ≡ option_map (λ v. v.items) file.now }
{
    match file {
        None => None,
        Some(bytes) => Some(bytes.as_slice()),
    }
}

/// The bytes of a file, where there is one.
fn bytes_of<'a>(file: Option<&'a [u8]>) -> &'a [u8]
    ensures { result.now ≡ bytes_or_none (option_map (λ b. b.now) file.entry) }
{
    match file {
        None => &[],
        Some(bytes) => bytes,
    }
}

/// The file is longer than what it is to fill.
pub(crate) fn breaks_size(directive: &Directive, file: Option<&[u8]>) -> bool
    ensures { result ≡ breaks_size directive.now (option_map (λ b. b.now) file.entry) }
{
    match directive {
        Directive::Area { bytes, .. } => is_longer(u64::from(*bytes), file),
        Directive::Context { .. } => is_longer(PAGE_SIZE, file),
        _ => false,
    }
}

fn is_longer(size: u64, file: Option<&[u8]>) -> bool
    ensures { result ≡ is_longer size (option_map (λ b. b.now) file.entry) }
{
    match file {
        None => false,
        Some(bytes) => bytes.len() as u64 > size,
    }
}

/// The pages pass the end of the address space.
pub(crate) fn breaks_end(directive: &Directive, file: Option<&[u8]>) -> bool
    requires { length (bytes_or_none (option_map (λ b. b.now) file)) ≤ 536870912 }
    ensures { result ≡ breaks_end directive.now (option_map (λ b. b.now) file.entry) }
{
    match directive {
        Directive::Pages { run, .. } => passes_end(run, pages_for(run, bytes_of(file).len())),
        Directive::Zeros { run, count } => passes_end(run, u64::from(*count)),
        _ => false,
    }
}

/// How many pages of 4 KB it names.
pub(crate) fn pages_named(directive: &Directive, file: Option<&[u8]>) -> u64
    requires { length (bytes_or_none (option_map (λ b. b.now) file)) ≤ 536870912 }
    ensures value { result ≡ pages_named directive.now (option_map (λ b. b.now) file.entry) }
    ensures within { result ≤ 2199023255552 }
{
    match directive {
        Directive::Pages { run, .. } => {
            small_pages(run.large) * pages_for(run, bytes_of(file).len())
        }
        Directive::Zeros { run, count } => small_pages(run.large) * u64::from(*count),
        _ => 0,
    }
}

/// The bytes of its contents.
pub(crate) fn content_bytes(directive: &Directive, file: Option<&[u8]>) -> u64
    requires { length (bytes_or_none (option_map (λ b. b.now) file)) ≤ 536870912 }
    ensures value { result ≡ content_bytes directive.now (option_map (λ b. b.now) file.entry) }
    ensures within { result ≤ 274877906944 }
{
    match directive {
        Directive::Pages { run, .. } => {
            page_bytes(run.large) * pages_for(run, bytes_of(file).len())
        }
        Directive::Area { bytes, .. } => size_if(u64::from(*bytes), file),
        Directive::Context { .. } => size_if(PAGE_SIZE, file),
        _ => 0,
    }
}

fn size_if(size: u64, file: Option<&[u8]>) -> u64
    ensures value { result ≡ size_if size (option_map (λ b. b.now) file.entry) }
    ensures within { result ≤ size }
{
    match file {
        None => 0,
        Some(_) => size,
    }
}
