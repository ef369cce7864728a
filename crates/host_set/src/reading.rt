//! Host descriptions: JSON (RFC 8259) of the form that docs/HOST.md gives.
ghost use Rattle.std.specs.Prelude.{◌≡◌, ◌≢◌, ◌≤◌, length, IfOk, IfErr};
ghost use Rattle.serde_json.specs.View.{view};
ghost use Rattle.host_set.specs.Descriptions.{host_from, host_of, is_description};
ghost use Rattle.host_set.specs.Descriptions.{page_bytes, parts_of};

use crate::fields::bytes_at;
use crate::host::HostSet;
use crate::plan::MemoryPlan;
use crate::plan_json::plan_in;
use crate::refusal::{HostPart, HostRefusal};
use crate::values_json::values_in;
use json_forms::{JsonRefusal, has_only, json_of};
use serde_json::Value;
use std::alloc::Global;

/// The most bytes of secrets, and of CPUID.
const PAGE_LIMIT: usize = 4096;

/// The memory plan and the values of a host description.
#[tactic(auto, unfolding(crate::specs::Descriptions::host_of))]
pub fn read_host(alloc: Global, bytes: &[u8]) -> Result<(MemoryPlan, HostSet), HostRefusal>
    ensures described { IfOk result (λ host. host_of bytes.now ≡ Ok (host.0, host.1)) }
    ensures refused { IfErr result (λ refusal. refusal ≢ HostRefusal.Memory
        → host_of bytes.now ≡ Err refusal) }
{
    match json_of(alloc, bytes) {
        Ok(json) => host_from(alloc, &json),
        Err(JsonRefusal::NotJson) => Err(HostRefusal::NotJson),
        Err(JsonRefusal::Memory) => Err(HostRefusal::Memory),
    }
}

/// The plan and the values that are described.
#[tactic(auto, unfolding(crate::specs::Descriptions::host_from))]
fn host_from(alloc: Global, json: &Value) -> Result<(MemoryPlan, HostSet), HostRefusal>
    ensures described { IfOk result (λ host. host_from (view json.now) ≡ Ok (host.0, host.1)) }
    ensures refused { IfErr result (λ e. e ≢ HostRefusal.Memory
        → host_from (view json.now) ≡ Err e) }
{
    if !is_description(json) {
        return Err(refused(HostPart::Top));
    }
    parts_of(alloc, json)
}

/// An object with `memory`, and no other keys than these four.
fn is_description(json: &Value) -> bool
    ensures { result ≡ is_description (view json.now) }
{
    has_only(json, &["memory", "values", "secrets", "cpuid"]) && json.get("memory").is_some()
}

/// The parts in their order.
fn parts_of(alloc: Global, json: &Value) -> Result<(MemoryPlan, HostSet), HostRefusal>
    ensures described { IfOk result (λ host. parts_of (view json.now) ≡ Ok (host.0, host.1)) }
    ensures refused { IfErr result (λ e. e ≢ HostRefusal.Memory
        → parts_of (view json.now) ≡ Err e) }
{
    let plan = plan_in(alloc, json.get("memory").and_then(Value::as_array))?;
    let mut host = values_in(alloc, json.get("values"))?;
    host.put_secrets(page_bytes(alloc, json, "secrets", HostPart::Secrets)?);
    host.put_cpuid(page_bytes(alloc, json, "cpuid", HostPart::Cpuid)?);
    Ok((plan, host))
}

/// What the pages of secrets, or of CPUID, begin with.
fn page_bytes(
    alloc: Global,
    json: &Value,
    key: &str,
    part: HostPart,
) -> Result<Vec<u8>, HostRefusal>
    ensures read { IfOk result (λ bytes. page_bytes key.now part (view json.now) ≡ Ok bytes.items) }
    ensures refused { IfErr result (λ e. e ≢ HostRefusal.Memory
        → page_bytes key.now part (view json.now) ≡ Err e) }
    ensures few { IfOk result (λ bytes. length bytes.items ≤ 4096) }
{
    bytes_at(alloc, PAGE_LIMIT, refused(part), json.get(key))
}

/// The refusal of a part as a whole.
fn refused(part: HostPart) -> HostRefusal
    ensures { result ≡ HostRefusal.Field part 0 }
{
    HostRefusal::Field { part, item: 0 }
}
