//! The fields of a host description that hold bytes.
ghost use Rattle.std.specs.Prelude.{◌≡◌, ◌≢◌, ◌≤◌, length, nat_le, option_map, IfOk, IfErr};
ghost use Rattle.std.specs.Prelude.{if◌then◌else◌};
ghost use Rattle.serde_json.specs.View.{view};
ghost use Rattle.host_set.specs.Descriptions.{bytes_at};

use crate::refusal::HostRefusal;
use hex::FromHexError;
use serde_json::Value;
use std::alloc::Global;

/// The bytes of a value, which are none where it is missing, or the refusal that is given.
pub(crate) fn bytes_at(
    alloc: Global,
    limit: usize,
    refusal: HostRefusal,
    found: Option<&Value>,
) -> Result<Vec<u8>, HostRefusal>
    ensures read { IfOk result (λ bytes.
        bytes_at limit refusal (option_map (λ json. view json.now) found.entry) ≡ Ok bytes.items) }
    ensures refused { IfErr result (λ e. e ≢ HostRefusal.Memory
        → bytes_at limit refusal (option_map (λ json. view json.now) found.entry) ≡ Err e) }
    ensures few { IfOk result (λ bytes. length bytes.items ≤ limit) }
{
    let Some(json) = found else {
        return Ok(Vec::new(alloc));
    };
    let Some(text) = json.as_str() else {
        return Err(refusal);
    };
    match hex::decode(alloc, text) {
        Ok(bytes) => within(limit, refusal, bytes),
        Err(FromHexError::OutOfMemory) => Err(HostRefusal::Memory),
        Err(_) => Err(refusal),
    }
}

/// The bytes, where they are no more than the limit.
fn within(limit: usize, refusal: HostRefusal, bytes: Vec<u8>) -> Result<Vec<u8>, HostRefusal>
    ensures { result ≡ (if nat_le (length bytes.items) limit then Ok bytes else Err refusal) }
{
    if bytes.len() <= limit {
        Ok(bytes)
    } else {
        Err(refusal)
    }
}
