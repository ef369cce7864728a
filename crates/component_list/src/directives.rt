//! Entries of `directives`, by the word at `do`.
ghost use Rattle.std.specs.Prelude.{◌≡◌, codes, IfOk, None};
ghost use Rattle.serde_json.specs.View.{view};
ghost use Rattle.json_forms.specs.Forms.{required, optional};
ghost use Rattle.component_list.specs.TextForms.{file_name};
ghost use Rattle.component_list.specs.ListForms.{directive_by, directive_entry, entry_form, plain, plain_form, page_count, page_run, some_file, pages_keys, pages_entry, zero_keys, zero_entry, area_keys, area_entry, context_keys, context_entry, param_keys, param_fields, insert_keys, insert_fields, required_keys, required_fields, error_range_keys, error_range_fields};

use crate::blob::Blob;
use crate::fields::{address, page_kind, short, truth, word};
use crate::header_entries::{error_range_fields, insert_fields, param_fields, required_fields};
use crate::id_block;
use crate::source::{Directive, FileName, PageRun};
use igvm_headers::{Header, Memory};
use json_forms::has_only;
use serde_json::Value;
use std::alloc::Global;

/// An entry of `directives`, or None where it has not the form of its word.
#[tactic(auto, unfolding(crate::specs::ListForms::directive_entry))]
pub(crate) fn directive_entry(alloc: Global, json: &Value) -> Result<Option<Directive>, Memory>
    ensures { IfOk result (λ entry. entry ≡ directive_entry (view json.now)) }
{
    let Some(found) = json.get("do") else {
        return Ok(None);
    };
    let Some(word) = found.as_str() else {
        return Ok(None);
    };
    directive_by(alloc, word, json)
}

#[tactic(auto, unfolding(crate::specs::ListForms::directive_by))]
fn directive_by(alloc: Global, word: &str, json: &Value) -> Result<Option<Directive>, Memory>
    ensures { IfOk result (λ entry. entry ≡ directive_by word.now (view json.now)) }
{
    if word == "pages" {
        return pages(alloc, json);
    }
    if word == "zero" {
        return Ok(zeros(json));
    }
    if word == "area" {
        return area(alloc, json);
    }
    if word == "param" {
        return Ok(param(alloc, json));
    }
    if word == "insert" {
        return Ok(insert(alloc, json));
    }
    if word == "context" {
        return context(alloc, json);
    }
    if word == "required" {
        return Ok(required_memory(alloc, json));
    }
    if word == "error_range" {
        return Ok(error_range(alloc, json));
    }
    if word == "id_block" {
        return id_block::id_block(alloc, json);
    }
    Ok(None)
}

#[tactic(auto, unfolding(crate::specs::ListForms::pages_entry))]
fn pages(alloc: Global, json: &Value) -> Result<Option<Directive>, Memory>
    ensures { IfOk result (λ entry. entry ≡ entry_form pages_keys pages_entry (view json.now)) }
{
    if !has_only(
        json,
        &["do", "mask", "gpa", "file", "kind", "large", "unmeasured"],
    ) {
        return Ok(None);
    }
    let Some(run) = page_run(json) else {
        return Ok(None);
    };
    let Some(file) = file_at(alloc, json)? else {
        return Ok(None);
    };
    Ok(Some(Directive::Pages { run, file }))
}

#[tactic(auto, unfolding(crate::specs::ListForms::zero_entry))]
fn zeros(json: &Value) -> Option<Directive>
    ensures { result ≡ entry_form zero_keys zero_entry (view json.now) }
{
    if !has_only(
        json,
        &["do", "mask", "gpa", "count", "kind", "large", "unmeasured"],
    ) {
        return None;
    }
    let run = page_run(json)?;
    let count = count_at(json)?;
    Some(Directive::Zeros { run, count })
}

/// From 1 to 524,288 pages.
fn count_at(json: &Value) -> Option<u32>
    ensures { result ≡ required page_count (codes "count") (view json.now) }
{
    let count = json_forms::word(json.get("count")?)?;
    if count >= 1 && count <= 524_288 {
        Some(count)
    } else {
        None
    }
}

#[tactic(auto, unfolding(crate::specs::ListForms::page_run))]
fn page_run(json: &Value) -> Option<PageRun>
    ensures { result ≡ page_run (view json.now) }
{
    let gpa = address(json, "gpa")?;
    let mask = word(json, "mask")?;
    let large = truth(json, "large")?;
    let unmeasured = truth(json, "unmeasured")?;
    let kind = page_kind(json, "kind")?;
    Some(PageRun {
        gpa,
        mask,
        large,
        unmeasured,
        kind,
    })
}

#[tactic(auto, unfolding(crate::specs::ListForms::area_entry))]
fn area(alloc: Global, json: &Value) -> Result<Option<Directive>, Memory>
    ensures { IfOk result (λ entry. entry ≡ entry_form area_keys area_entry (view json.now)) }
{
    if !has_only(json, &["do", "index", "bytes", "file"]) {
        return Ok(None);
    }
    let Some(area) = word(json, "index") else {
        return Ok(None);
    };
    let Some(bytes) = word(json, "bytes") else {
        return Ok(None);
    };
    let Some(file) = some_file_at(alloc, json)? else {
        return Ok(None);
    };
    Ok(Some(Directive::Area { area, bytes, file }))
}

#[tactic(auto, unfolding(crate::specs::ListForms::context_entry))]
fn context(alloc: Global, json: &Value) -> Result<Option<Directive>, Memory>
    ensures { IfOk result (λ entry. entry
        ≡ entry_form context_keys context_entry (view json.now)) }
{
    if !has_only(json, &["do", "mask", "gpa", "vp", "file"]) {
        return Ok(None);
    }
    let Some(gpa) = address(json, "gpa") else {
        return Ok(None);
    };
    let Some(mask) = word(json, "mask") else {
        return Ok(None);
    };
    let Some(vp) = short(json, "vp") else {
        return Ok(None);
    };
    let Some(file) = some_file_at(alloc, json)? else {
        return Ok(None);
    };
    Ok(Some(Directive::Context {
        gpa,
        mask,
        vp,
        file,
    }))
}

fn param(alloc: Global, json: &Value) -> Option<Directive>
    ensures { result ≡ entry_form param_keys (plain_form param_fields) (view json.now) }
{
    if !has_only(json, &["do", "kind", "area", "offset"]) {
        return None;
    }
    Some(plain(alloc, param_fields(json)?))
}

fn insert(alloc: Global, json: &Value) -> Option<Directive>
    ensures { result ≡ entry_form insert_keys (plain_form insert_fields) (view json.now) }
{
    if !has_only(json, &["do", "mask", "gpa", "area"]) {
        return None;
    }
    Some(plain(alloc, insert_fields(json)?))
}

fn required_memory(alloc: Global, json: &Value) -> Option<Directive>
    ensures { result ≡ entry_form required_keys (plain_form required_fields) (view json.now) }
{
    if !has_only(json, &["do", "mask", "gpa", "bytes", "flags"]) {
        return None;
    }
    Some(plain(alloc, required_fields(json)?))
}

fn error_range(alloc: Global, json: &Value) -> Option<Directive>
    ensures { result
        ≡ entry_form error_range_keys (plain_form error_range_fields) (view json.now) }
{
    if !has_only(json, &["do", "mask", "gpa", "bytes"]) {
        return None;
    }
    Some(plain(alloc, error_range_fields(json)?))
}

/// A header with neither data nor bytes that are carried unread. It takes no memory.
fn plain(alloc: Global, header: Header) -> Directive
    ensures { result ≡ plain header }
{
    Directive::Plain {
        header,
        tail: Blob::of_vec(Vec::new(alloc)),
    }
}

/// The name of the file that must be there.
fn file_at(alloc: Global, json: &Value) -> Result<Option<FileName>, Memory>
    ensures { IfOk result (λ name. name ≡ required file_name (codes "file") (view json.now)) }
{
    match json.get("file") {
        None => Ok(None),
        Some(found) => file_name(alloc, found),
    }
}

/// The name of a file, where there is one.
fn some_file_at(alloc: Global, json: &Value) -> Result<Option<Option<FileName>>, Memory>
    ensures { IfOk result (λ name. name
        ≡ optional some_file None (codes "file") (view json.now)) }
{
    match json.get("file") {
        None => Ok(Some(None)),
        Some(found) => match file_name(alloc, found)? {
            None => Ok(None),
            Some(name) => Ok(Some(Some(name))),
        },
    }
}

/// A text that is not empty.
fn file_name(alloc: Global, json: &Value) -> Result<Option<FileName>, Memory>
    ensures { IfOk result (λ name. name ≡ file_name (view json.now)) }
{
    let Some(text) = json.as_str() else {
        return Ok(None);
    };
    if text.is_empty() {
        return Ok(None);
    }
    let name = String::from_str(alloc, text)?;
    Ok(Some(FileName::of_string(name)))
}
