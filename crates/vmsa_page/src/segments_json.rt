//! The segments of a VMSA in JSON.
ghost use Rattle.std.specs.Prelude.{◌≡◌, IfSome, IfOk, IfErr, Ok, Err};
ghost use Rattle.std.specs.List.{AllByRecursion};
ghost use Rattle.json_forms.specs.Forms.{optional, short, word};
ghost use Rattle.serde_json.specs.View.{view};
ghost use Rattle.vmsa_page.specs.Fields.{segments};
ghost use Rattle.vmsa_page.specs.Vmsas.{IsSegment};
ghost use Rattle.vmsa_page.specs.Texts.{zero_segment};
ghost use Rattle.vmsa_page.specs.Sources.{all_at, segment_form};

use crate::fields::field_name;
use crate::numbers_json::address_at;
use crate::refusal::VmsaRefusal;
use crate::segment::Segment;
use json_forms::{has_only, short, word};
use serde_json::Value;

/// The segments, or the place of the first that fails.
pub(crate) fn segments_in(json: &Value) -> Result<[Segment; 10], VmsaRefusal>
    ensures read { IfOk result (λ found.
        all_at segment_form zero_segment (view json.now) 1 segments ≡ Ok found) }
    ensures fits { IfOk result (λ found. AllByRecursion IsSegment found) }
    ensures refused { IfErr result (λ e.
        all_at segment_form zero_segment (view json.now) 1 segments ≡ Err e) }
{
    let mut found = [Segment::ZERO; 10];
    'steps: for place in 0..10 {
        let Some(segment) = segment_at(json, field_name(place)) else {
            return Err(VmsaRefusal::Field {
                place: place as u32 + 1,
            });
        };
        found[place] = segment;
    }
    Ok(found)
}

/// A segment at a key, or all zeros where it is missing.
fn segment_at(json: &Value, key: &str) -> Option<Segment>
    ensures form { result ≡ optional segment_form zero_segment key.now (view json.now) }
    ensures fits { IfSome result IsSegment }
{
    match json.get(key) {
        Some(found) => segment_form(found),
        None => Some(Segment::ZERO),
    }
}

/// A segment: an object of at most four keys.
#[tactic(auto, unfolding(crate::specs::Sources::segment_form))]
fn segment_form(json: &Value) -> Option<Segment>
    ensures form { result ≡ segment_form (view json.now) }
    ensures fits { IfSome result IsSegment }
{
    if !has_only(json, &["selector", "attributes", "limit", "base"]) {
        return None;
    }
    let selector = short_at(json, "selector")?;
    let attributes = short_at(json, "attributes")?;
    let limit = word_at(json, "limit")?;
    let base = address_at(json, "base")?;
    Some(Segment {
        selector,
        attributes,
        limit,
        base,
    })
}

/// A number of 16 bits at a key, or 0 where it is missing.
fn short_at(json: &Value, key: &str) -> Option<u16>
    ensures { result ≡ optional short 0 key.now (view json.now) }
{
    match json.get(key) {
        Some(found) => short(found),
        None => Some(0),
    }
}

/// A number of 32 bits at a key, or 0 where it is missing.
fn word_at(json: &Value, key: &str) -> Option<u32>
    ensures { result ≡ optional word 0 key.now (view json.now) }
{
    match json.get(key) {
        Some(found) => word(found),
        None => Some(0),
    }
}
