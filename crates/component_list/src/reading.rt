//! Component lists: JSON (RFC 8259) of the form that docs/LIST.md gives.
ghost use Rattle.std.specs.Prelude.{◌≡◌, ◌≢◌, ◌≤◌, true, codes, length, option_map, None, Some, Ok, Err, IfOk, IfErr, IfSome};
ghost use Rattle.igvm_headers.specs.Fixed.{is_version};
ghost use Rattle.serde_json.specs.Data.{no_items};
ghost use Rattle.serde_json.specs.View.{view, items_view};
ghost use Rattle.json_forms.specs.Forms.{required, optional};
ghost use Rattle.component_list.specs.ListForms.{directive_entry, entries, entries_of, fields_of, format_version, platform_entry, policy_entry, source_from, source_of};
ghost use Rattle.component_list.specs.EntryArrays.{fields_view};

use crate::directives::directive_entry;
use crate::header_entries::{platform_entry, policy_entry};
use crate::refusal::{ListPart, ListRefusal};
use crate::source::{Directive, ListSource};
use igvm_headers::Header;
use json_forms::{JsonRefusal, has_only, json_of};
use serde_json::Value;
use std::alloc::Global;

/// The most entries of a list.
const MOST_ENTRIES: usize = 16_777_216;

/// The fields of the whole: the version, and the arrays.
#[derive(Clone, Copy)]
pub(crate) struct ListFields<'a> {
    pub version: u32,
    pub platforms: &'a [Value],
    pub policies: &'a [Value],
    pub directives: &'a [Value],
}

/// What a component list says, or its first refusal.
#[tactic(auto, unfolding(crate::specs::ListForms::source_of))]
pub fn read_list(alloc: Global, bytes: &[u8]) -> Result<ListSource, ListRefusal>
    requires { length bytes.now ≤ 16777216 }
    ensures source { IfOk result (λ source. source_of bytes.now ≡ Ok source) }
    ensures refused { IfErr result (λ e. e ≢ ListRefusal.Memory → source_of bytes.now ≡ Err e) }
{
    match json_of(alloc, bytes) {
        Ok(json) => source_from(alloc, &json),
        Err(JsonRefusal::NotJson) => Err(ListRefusal::NotJson),
        Err(JsonRefusal::Memory) => Err(ListRefusal::Memory),
    }
}

/// What a JSON value says as a component list.
#[tactic(auto, unfolding(crate::specs::ListForms::source_from))]
fn source_from(alloc: Global, json: &Value) -> Result<ListSource, ListRefusal>
    ensures source { IfOk result (λ source. source_from (view json.now) ≡ Ok source) }
    ensures refused { IfErr result (λ e. e ≢ ListRefusal.Memory
        → source_from (view json.now) ≡ Err e) }
{
    let Some(fields) = fields_of(json) else {
        return Err(refused(ListPart::Top, 0));
    };
    let platforms = platforms(alloc, fields.platforms)?;
    let policies = policies(alloc, fields.policies)?;
    let directives = directives(alloc, fields.directives)?;
    Ok(ListSource::of_entries(fields.version, platforms, policies, directives))
}

/// The fields of an object that has no other keys; `version` and `policies` may be missing.
#[tactic(auto, unfolding(crate::specs::ListForms::fields_of))]
fn fields_of(json: &Value) -> Option<ListFields<'_>>
    ensures fields { option_map fields_view result ≡ fields_of (view json.now) }
    ensures known { IfSome result (λ f. is_version f.version ≡ true) }
    ensures few { IfSome result (λ a. (length a.platforms.now ≤ 16777216)
        × (length a.policies.now ≤ 16777216) × (length a.directives.now ≤ 16777216)) }
{
    if !has_only(json, &["version", "platforms", "policies", "directives"]) {
        return None;
    }
    let version = version_at(json)?;
    let platforms = array_at(json, "platforms")?;
    let policies = array_or_none(json, "policies")?;
    let directives = array_at(json, "directives")?;
    Some(ListFields {
        version,
        platforms,
        policies,
        directives,
    })
}

/// The version of the format, and 1 where it is missing.
fn version_at(json: &Value) -> Option<u32>
    ensures version { result ≡ optional format_version 1 (codes "version") (view json.now) }
    ensures known { IfSome result (λ version. is_version version ≡ true) }
{
    match json.get("version") {
        None => Some(1),
        Some(found) => format_version(found),
    }
}

/// A version of the format, 1 or 2.
fn format_version(json: &Value) -> Option<u32>
    ensures version { result ≡ format_version (view json.now) }
    ensures known { IfSome result (λ version. is_version version ≡ true) }
{
    let number = json_forms::word(json)?;
    if number == 1 || number == 2 {
        Some(number)
    } else {
        None
    }
}

fn array_at<'a>(json: &'a Value, key: &str) -> Option<&'a [Value]>
    ensures array { option_map (λ e. items_view e.now) result
        ≡ required entries key.now (view json.now) }
    ensures few { IfSome result (λ e. length e.now ≤ 16777216) }
{
    array_of(json.get(key)?)
}

fn array_or_none<'a>(json: &'a Value, key: &str) -> Option<&'a [Value]>
    ensures array { option_map (λ e. items_view e.now) result
        ≡ optional entries no_items key.now (view json.now) }
    ensures few { IfSome result (λ e. length e.now ≤ 16777216) }
{
    match json.get(key) {
        None => Some(&[]),
        Some(found) => array_of(found),
    }
}

/// An array.
#[tactic(auto, using(crate::proofs::EntryWalks::items_len_is))]
fn array_of(json: &Value) -> Option<&[Value]>
    ensures array { option_map (λ e. items_view e.now) result ≡ entries (view json.now) }
    ensures few { IfSome result (λ e. length e.now ≤ 16777216) }
{
    let items = json.as_array()?.as_slice();
    if items.len() <= MOST_ENTRIES {
        Some(items)
    } else {
        None
    }
}

/// The entries of `platforms`.
fn platforms(alloc: Global, items: &[Value]) -> Result<Vec<Header>, ListRefusal>
    requires { length items.now ≤ 16777216 }
    ensures read { IfOk result (λ headers. entries_of platform_entry ListPart.Platforms
        (items_view items.now) ≡ Ok headers.items) }
    ensures refused { IfErr result (λ e. e ≢ ListRefusal.Memory
        → entries_of platform_entry ListPart.Platforms (items_view items.now) ≡ Err e) }
    ensures few { IfOk result (λ headers. length headers.items ≤ 16777216) }
{
    let mut headers = Vec::new(alloc);
    'entries: for (number, json) in items.iter().enumerate() {
        let Some(header) = platform_entry(json) else {
            return Err(refused(ListPart::Platforms, number as u32));
        };
        headers.push(header)?;
    }
    Ok(headers)
}

/// The entries of `policies`.
fn policies(alloc: Global, items: &[Value]) -> Result<Vec<Header>, ListRefusal>
    requires { length items.now ≤ 16777216 }
    ensures read { IfOk result (λ headers. entries_of policy_entry ListPart.Policies
        (items_view items.now) ≡ Ok headers.items) }
    ensures refused { IfErr result (λ e. e ≢ ListRefusal.Memory
        → entries_of policy_entry ListPart.Policies (items_view items.now) ≡ Err e) }
    ensures few { IfOk result (λ headers. length headers.items ≤ 16777216) }
{
    let mut headers = Vec::new(alloc);
    'entries: for (number, json) in items.iter().enumerate() {
        let Some(header) = policy_entry(json) else {
            return Err(refused(ListPart::Policies, number as u32));
        };
        headers.push(header)?;
    }
    Ok(headers)
}

/// The entries of `directives`.
fn directives(alloc: Global, items: &[Value]) -> Result<Vec<Directive>, ListRefusal>
    requires { length items.now ≤ 16777216 }
    ensures read { IfOk result (λ entries. entries_of directive_entry ListPart.Directives
        (items_view items.now) ≡ Ok entries.items) }
    ensures refused { IfErr result (λ e. e ≢ ListRefusal.Memory
        → entries_of directive_entry ListPart.Directives (items_view items.now) ≡ Err e) }
    ensures few { IfOk result (λ entries. length entries.items ≤ 16777216) }
{
    let mut entries = Vec::new(alloc);
    'entries: for (number, json) in items.iter().enumerate() {
        let Some(entry) = directive_entry(alloc, json)? else {
            return Err(refused(ListPart::Directives, number as u32));
        };
        entries.push(entry)?;
    }
    Ok(entries)
}

/// The refusal of an entry.
fn refused(part: ListPart, item: u32) -> ListRefusal
    ensures { result ≡ ListRefusal.Field part item }
{
    ListRefusal::Field { part, item }
}
