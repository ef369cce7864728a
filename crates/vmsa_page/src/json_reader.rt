//! VMSAs from JSON (RFC 8259). The rules are those of `specs/Sources.antt`, tried in the order of
//! their places.
ghost use Rattle.std.specs.Prelude.{◌≡◌, ◌≢◌, ◌<◌, ◌^◌, All, IfOk, IfErr, Ok, Err};
ghost use Rattle.serde_json.specs.View.{view};
ghost use Rattle.vmsa_page.specs.Vmsas.{IsVmsa};
ghost use Rattle.vmsa_page.specs.Sources.{parts_of, vmsa_from, vmsa_source};

use crate::fields::key_names;
use crate::numbers_json::numbers_in;
use crate::others_json::others_at;
use crate::refusal::VmsaRefusal;
use crate::segments_json::segments_in;
use crate::vmsa::Vmsa;
use json_forms::{JsonRefusal, has_only, json_of};
use serde_json::Value;
use std::alloc::Global;

/// The VMSA that a JSON text describes, or the first refusal of the text. What is missing is 0.
#[tactic(auto, unfolding(crate::specs::Sources::vmsa_source))]
pub fn read_vmsa_json(alloc: Global, bytes: &[u8]) -> Result<Vmsa, VmsaRefusal>
    ensures read { IfOk result (λ vmsa. vmsa_source bytes.now ≡ Ok vmsa) }
    ensures valid { IfOk result IsVmsa }
    ensures refused { IfErr result (λ e. e ≢ VmsaRefusal.Memory
        → vmsa_source bytes.now ≡ Err e) }
{
    match json_of(alloc, bytes) {
        Ok(json) => vmsa_from(alloc, &json),
        Err(JsonRefusal::NotJson) => Err(VmsaRefusal::NotJson),
        Err(JsonRefusal::Memory) => Err(VmsaRefusal::Memory),
    }
}

/// The VMSA that an object describes.
#[tactic(auto, unfolding(crate::specs::Sources::vmsa_from))]
fn vmsa_from(alloc: Global, json: &Value) -> Result<Vmsa, VmsaRefusal>
    ensures read { IfOk result (λ vmsa. vmsa_from (view json.now) ≡ Ok vmsa) }
    ensures valid { IfOk result IsVmsa }
    ensures refused { IfErr result (λ e. e ≢ VmsaRefusal.Memory
        → vmsa_from (view json.now) ≡ Err e) }
{
    if !has_only(json, &key_names()) {
        return Err(VmsaRefusal::Field { place: 0 });
    }
    parts_of(alloc, json)
}

/// The VMSA of the parts in their order.
#[tactic(auto, unfolding(crate::specs::Sources::parts_of))]
fn parts_of(alloc: Global, json: &Value) -> Result<Vmsa, VmsaRefusal>
    ensures read { IfOk result (λ vmsa. parts_of (view json.now) ≡ Ok vmsa) }
    ensures valid { IfOk result IsVmsa }
    ensures refused { IfErr result (λ e. e ≢ VmsaRefusal.Memory
        → parts_of (view json.now) ≡ Err e) }
{
    let segments = segments_in(json)?;
    let numbers = numbers_in(json)?;
    note_numbers(&numbers);
    let other = others_at(alloc, json.get("other"))?;
    Ok(Vmsa::from_parts(segments, numbers, other))
}

/// Numbers of 64 bits are below 2^64: nothing runs.
fn note_numbers(numbers: &[u64])
    ensures { All (λ n. n < 2 ^ 64) numbers.now }
{}
