//! The values of parameters of a host description.
ghost use Rattle.std.specs.Prelude.{◌≡◌, ◌≢◌, ◌≤◌, length, map, option_map, IfOk, IfErr};
ghost use Rattle.igvm_headers.specs.ParamKinds.{param_text, param_kinds};
ghost use Rattle.serde_json.specs.View.{view};
ghost use Rattle.host_set.specs.Hosts.{no_values};
ghost use Rattle.host_set.specs.Descriptions.{known_values, param_value, param_values, values_in};

use crate::fields::bytes_at;
use crate::host::HostSet;
use crate::refusal::{HostPart, HostRefusal};
use igvm_headers::{ParamKind, param_name};
use json_forms::has_only;
use serde_json::Value;
use std::alloc::Global;

/// The most bytes of a parameter's value.
const VALUE_LIMIT: usize = 1_048_576;

/// The item of a key that names no parameter.
const NO_PARAM: u32 = 10;

/// A host with the values of what is found, and nothing else.
pub(crate) fn values_in(alloc: Global, found: Option<&Value>) -> Result<HostSet, HostRefusal>
    ensures read { IfOk result (λ host.
        values_in (option_map (λ json. view json.now) found.entry) ≡ Ok host.values) }
    ensures rest { IfOk result (λ host. host ≡ record no_values { values = host.values }) }
    ensures refused { IfErr result (λ e. e ≢ HostRefusal.Memory
        → values_in (option_map (λ json. view json.now) found.entry) ≡ Err e) }
{
    let Some(json) = found else {
        return Ok(HostSet::empty(alloc));
    };
    if !json.is_object() {
        return Err(bad_value(0));
    }
    known_values(alloc, json)
}

/// A host with the values of an object that has no other keys.
fn known_values(alloc: Global, json: &Value) -> Result<HostSet, HostRefusal>
    ensures read { IfOk result (λ host. known_values (view json.now) ≡ Ok host.values) }
    ensures rest { IfOk result (λ host. host ≡ record no_values { values = host.values }) }
    ensures refused { IfErr result (λ e. e ≢ HostRefusal.Memory
        → known_values (view json.now) ≡ Err e) }
{
    let host = param_values(alloc, json)?;
    if !has_only(json, &param_names()) {
        return Err(bad_value(NO_PARAM));
    }
    Ok(host)
}

/// A host with the values of all parameters.
fn param_values(alloc: Global, json: &Value) -> Result<HostSet, HostRefusal>
    ensures read { IfOk result (λ host. param_values (view json.now) ≡ Ok host.values) }
    ensures rest { IfOk result (λ host. host ≡ record no_values { values = host.values }) }
    ensures refused { IfErr result (λ e. e ≢ HostRefusal.Memory
        → param_values (view json.now) ≡ Err e) }
{
    let mut host = HostSet::empty(alloc);
    'steps: for kind in ParamKind::ALL {
        let value = param_value(alloc, json, kind)?;
        host.put(kind, value);
    }
    Ok(host)
}

/// The value of a parameter.
fn param_value(alloc: Global, json: &Value, kind: ParamKind) -> Result<Vec<u8>, HostRefusal>
    ensures read { IfOk result (λ bytes. param_value (view json.now) kind ≡ Ok bytes.items) }
    ensures refused { IfErr result (λ e. e ≢ HostRefusal.Memory
        → param_value (view json.now) kind ≡ Err e) }
    ensures few { IfOk result (λ bytes. length bytes.items ≤ 1048576) }
{
    let refusal = bad_value(kind.number() as u32);
    bytes_at(alloc, VALUE_LIMIT, refusal, json.get(param_name(kind)))
}

/// The refusal of a value.
fn bad_value(item: u32) -> HostRefusal
    ensures { result ≡ HostRefusal.Field HostPart.Values item }
{
    HostRefusal::Field {
        part: HostPart::Values,
        item,
    }
}

/// The names of all parameters, in the order of their numbers.
fn param_names() -> [&'static str; 10]
    ensures { map (λ name. name.now) result ≡ map param_text param_kinds }
{
    [
        param_name(ParamKind::VpCount),
        param_name(ParamKind::Srat),
        param_name(ParamKind::Madt),
        param_name(ParamKind::MmioRanges),
        param_name(ParamKind::MemoryMap),
        param_name(ParamKind::CommandLine),
        param_name(ParamKind::Slit),
        param_name(ParamKind::Pptt),
        param_name(ParamKind::DeviceTree),
        param_name(ParamKind::EnvironmentInfo),
    ]
}
