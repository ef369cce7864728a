//! The texts of docs/PROGRAM.md.
ghost use Rattle.std.specs.Prelude.{◌≡◌, IfOk, string_bytes, length};
ghost use Rattle.igvm_jobs.specs.Texts.{what_text, fault_text, no_platform_text, no_digest_text, digest_text, part_text, host_part_text, not_json_text, field_text, entry_text, built_text};
ghost use Rattle.igvm_words.specs.JobView.{choice_view};

use component_list::ListPart;
use host_set::HostPart;
use igvm_headers::{Digest, PlatformKind, ReadFault, ReadWhat, kind_name};
use igvm_words::PlatformChoice;
use rule_texts::rule_words;
use std::alloc::{AllocError, Global};

/// The text of a rule.
pub fn what_text(alloc: Global, what: ReadWhat) -> Result<String, AllocError>
    ensures { IfOk result (λ text. string_bytes text ≡ what_text what) }
{
    let words = rule_words(what);
    match what {
        ReadWhat::UnknownType { kind } => format!(in alloc; "{words}{kind:08x}"),
        ReadWhat::Flags { bit } => format!(in alloc; "{words}{bit}"),
        _ => String::from_str(alloc, words),
    }
}

/// The line that says which rule a file breaks, and where.
pub fn fault_text(alloc: Global, fault: ReadFault) -> Result<String, AllocError>
    ensures { IfOk result (λ text. string_bytes text ≡ fault_text fault) }
{
    let at = fault.at;
    let what = what_text(alloc, fault.what)?;
    format!(in alloc; "igvm: file refused at {at}: {what}\n")
}

/// The line that says which platform an image does not have.
pub fn no_platform_text(alloc: Global, wanted: PlatformChoice) -> Result<String, AllocError>
    ensures { IfOk result (λ text. string_bytes text ≡ no_platform_text (choice_view wanted)) }
{
    match wanted {
        PlatformChoice::First(kind) => {
            let name = kind_name(kind);
            format!(in alloc; "igvm: no platform {name}\n")
        }
        PlatformChoice::Numbered(number) => format!(in alloc; "igvm: no platform {number}\n"),
    }
}

/// The line that says that platforms of a kind have no digest.
pub fn no_digest_text(alloc: Global, kind: PlatformKind) -> Result<String, AllocError>
    ensures { IfOk result (λ text. string_bytes text ≡ no_digest_text kind) }
{
    let name = kind_name(kind);
    format!(in alloc; "igvm: no digest for {name}\n")
}

/// The word for a part of a component list.
pub fn part_text(part: ListPart) -> &'static str
    ensures { result.now ≡ part_text part }
{
    match part {
        ListPart::Top => "top",
        ListPart::Platforms => "platforms",
        ListPart::Policies => "policies",
        ListPart::Directives => "directives",
    }
}

/// The word for a part of a host description.
pub fn host_part_text(part: HostPart) -> &'static str
    ensures { result.now ≡ host_part_text part }
{
    match part {
        HostPart::Top => "top",
        HostPart::Memory => "memory",
        HostPart::Values => "values",
        HostPart::Secrets => "secrets",
        HostPart::Cpuid => "cpuid",
    }
}

/// The line that says that a text is no JSON.
pub fn not_json_text(alloc: Global) -> Result<String, AllocError>
    ensures { IfOk result (λ text. string_bytes text ≡ not_json_text) }
{
    String::from_str(alloc, "igvm: json refused\n")
}

/// The line that says which entry of which part has not its form.
pub fn field_text(alloc: Global, part: &str, item: u32) -> Result<String, AllocError>
    ensures { IfOk result (λ text. string_bytes text ≡ field_text part.now item) }
{
    format!(in alloc; "igvm: json refused: {part} {item}\n")
}

/// The line that says which entry of a list breaks which rule.
pub fn entry_text(
    alloc: Global,
    part: ListPart,
    item: u32,
    what: ReadWhat,
) -> Result<String, AllocError>
    ensures { IfOk result (λ text. string_bytes text ≡ entry_text part item what) }
{
    let part = part_text(part);
    let what = what_text(alloc, what)?;
    format!(in alloc; "igvm: json refused: {part} {item}: {what}\n")
}

/// The line that says how many bytes were written.
pub fn built_text(alloc: Global, bytes: u64) -> Result<String, AllocError>
    ensures { IfOk result (λ text. string_bytes text ≡ built_text bytes) }
{
    format!(in alloc; "built {bytes} bytes\n")
}

/// The line of a digest.
pub fn digest_text(digest: &Digest) -> [u8; 97]
    ensures { result ≡ digest_text digest.now }
{
    let mut line = [b'\n'; 97];
    let _ = hex::encode_to_slice(digest.bytes(), &mut line[..96]);
    line
}
