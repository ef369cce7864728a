//! Entries that are one header without data.
ghost use Rattle.std.specs.Prelude.{◌≡◌, codes};
ghost use Rattle.serde_json.specs.View.{view};
ghost use Rattle.json_forms.specs.Forms.{required};
ghost use Rattle.component_list.specs.ListForms.{platform_entry, policy_entry, param_fields, insert_fields, required_fields, error_range_fields, platform_kind, param_kind};

use crate::fields::{address, address_or_0, byte_or_0, short_or_1, word, word_or_0};
use igvm_headers::{Header, ParamKind, PlatformKind};
use json_forms::has_only;
use serde_json::Value;

/// An entry of `platforms`.
#[tactic(auto, unfolding(crate::specs::ListForms::platform_entry))]
pub(crate) fn platform_entry(json: &Value) -> Option<Header>
    ensures { result ≡ platform_entry (view json.now) }
{
    if !has_only(json, &["kind", "mask", "vtl", "version", "shared_gpa"]) {
        return None;
    }
    let kind = platform_kind_at(json)?;
    let mask = word(json, "mask")?;
    let highest_vtl = byte_or_0(json, "vtl")?;
    let version = short_or_1(json, "version")?;
    let shared_gpa = address_or_0(json, "shared_gpa")?;
    Some(Header::Platform {
        mask,
        highest_vtl,
        kind,
        version,
        shared_gpa,
    })
}

fn platform_kind_at(json: &Value) -> Option<PlatformKind>
    ensures { result ≡ required platform_kind (codes "kind") (view json.now) }
{
    PlatformKind::from_name(json.get("kind")?.as_str()?)
}

/// An entry of `policies`.
#[tactic(auto, unfolding(crate::specs::ListForms::policy_entry))]
pub(crate) fn policy_entry(json: &Value) -> Option<Header>
    ensures { result ≡ policy_entry (view json.now) }
{
    if !has_only(json, &["mask", "policy"]) {
        return None;
    }
    let mask = word(json, "mask")?;
    let policy = address(json, "policy")?;
    Some(Header::Policy { policy, mask })
}

/// The header of a `param`.
#[tactic(auto, unfolding(crate::specs::ListForms::param_fields))]
pub(crate) fn param_fields(json: &Value) -> Option<Header>
    ensures { result ≡ param_fields (view json.now) }
{
    let kind = param_kind_at(json)?;
    let area = word(json, "area")?;
    let byte_offset = word(json, "offset")?;
    Some(Header::Param {
        kind,
        area,
        byte_offset,
    })
}

fn param_kind_at(json: &Value) -> Option<ParamKind>
    ensures { result ≡ required param_kind (codes "kind") (view json.now) }
{
    ParamKind::from_name(json.get("kind")?.as_str()?)
}

/// The header of an `insert`.
#[tactic(auto, unfolding(crate::specs::ListForms::insert_fields))]
pub(crate) fn insert_fields(json: &Value) -> Option<Header>
    ensures { result ≡ insert_fields (view json.now) }
{
    let gpa = address(json, "gpa")?;
    let mask = word(json, "mask")?;
    let area = word(json, "area")?;
    Some(Header::Insert { gpa, mask, area })
}

/// The header of a `required`.
#[tactic(auto, unfolding(crate::specs::ListForms::required_fields))]
pub(crate) fn required_fields(json: &Value) -> Option<Header>
    ensures { result ≡ required_fields (view json.now) }
{
    let gpa = address(json, "gpa")?;
    let mask = word(json, "mask")?;
    let bytes = word(json, "bytes")?;
    let flags = word_or_0(json, "flags")?;
    Some(Header::Required {
        gpa,
        mask,
        bytes,
        flags,
    })
}

/// The header of an `error_range`.
#[tactic(auto, unfolding(crate::specs::ListForms::error_range_fields))]
pub(crate) fn error_range_fields(json: &Value) -> Option<Header>
    ensures { result ≡ error_range_fields (view json.now) }
{
    let gpa = address(json, "gpa")?;
    let mask = word(json, "mask")?;
    let bytes = word(json, "bytes")?;
    Some(Header::ErrorRange { gpa, mask, bytes })
}
