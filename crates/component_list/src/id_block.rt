//! The entry `id_block`: an SEV-SNP ID block.
ghost use Rattle.std.specs.Prelude.{◌≡◌, codes, IfOk};
ghost use Rattle.serde_json.specs.View.{view};
ghost use Rattle.json_forms.specs.Forms.{required, optional};
ghost use Rattle.hex.specs.Hex.{decode_sized};
ghost use Rattle.component_list.specs.TextForms.{decoded, hex_bytes};
ghost use Rattle.component_list.specs.ListForms.{entry_form, id_block_keys, id_block_fields, id_block_entry, zeros};

use crate::blob::Blob;
use crate::fields::{byte_or_0, word, word_or_0};
use crate::source::Directive;
use igvm_headers::{Digest, Header, Memory};
use json_forms::has_only;
use serde_json::Value;
use std::alloc::Global;

/// The bytes of an ID block that are carried unread.
const KEYS: usize = 592;

/// The keys that the entry may have.
const NAMES: [&str; 11] = [
    "do",
    "mask",
    "ld",
    "family_id",
    "image_id",
    "version",
    "guest_svn",
    "id_algorithm",
    "author_algorithm",
    "author_enabled",
    "keys",
];

#[tactic(auto, unfolding(crate::specs::ListForms::id_block_entry))]
pub(crate) fn id_block(alloc: Global, json: &Value) -> Result<Option<Directive>, Memory>
    ensures { IfOk result (λ entry. entry
        ≡ entry_form id_block_keys id_block_entry (view json.now)) }
{
    if !has_only(json, &NAMES) {
        return Ok(None);
    }
    let Some(header) = id_block_fields(json) else {
        return Ok(None);
    };
    let Some(tail) = keys_at(alloc, json)? else {
        return Ok(None);
    };
    Ok(Some(Directive::Plain { header, tail }))
}

#[tactic(auto, unfolding(crate::specs::ListForms::id_block_fields))]
fn id_block_fields(json: &Value) -> Option<Header>
    ensures { result ≡ id_block_fields (view json.now) }
{
    let mask = word(json, "mask")?;
    let ld = launch_digest(json)?;
    let family_id = id_at(json, "family_id")?;
    let image_id = id_at(json, "image_id")?;
    let version = word_or_0(json, "version")?;
    let guest_svn = word_or_0(json, "guest_svn")?;
    let id_algorithm = word_or_0(json, "id_algorithm")?;
    let author_algorithm = word_or_0(json, "author_algorithm")?;
    let author_enabled = byte_or_0(json, "author_enabled")?;
    Some(Header::IdBlock {
        mask,
        author_enabled,
        ld,
        family_id,
        image_id,
        version,
        guest_svn,
        id_algorithm,
        author_algorithm,
    })
}

/// The launch digest, which must be there.
fn launch_digest(json: &Value) -> Option<Digest>
    ensures { result ≡ required (hex_bytes 48) (codes "ld") (view json.now) }
{
    let text = json.get("ld")?.as_str()?;
    let mut bytes = [0; 48];
    match hex::decode_to_slice(text, &mut bytes) {
        Ok(()) => Some(Digest::of_bytes(bytes)),
        Err(_) => None,
    }
}

/// An id of 16 bytes, zeros where it is missing.
#[tactic(auto, unfolding(crate::specs::ListForms::zeros))]
fn id_at(json: &Value, key: &str) -> Option<[u8; 16]>
    ensures { result ≡ optional (hex_bytes 16) (zeros 16) key.now (view json.now) }
{
    let Some(found) = json.get(key) else {
        return Some([0; 16]);
    };
    let text = found.as_str()?;
    let mut bytes = [0; 16];
    match hex::decode_to_slice(text, &mut bytes) {
        Ok(()) => Some(bytes),
        Err(_) => None,
    }
}

/// The bytes that are carried unread, zeros where they are missing.
fn keys_at(alloc: Global, json: &Value) -> Result<Option<Blob>, Memory>
    ensures { IfOk result (λ keys. keys
        ≡ optional (hex_bytes 592) (zeros 592) (codes "keys") (view json.now)) }
{
    match json.get("keys") {
        None => Ok(Some(zeros(alloc, KEYS)?)),
        Some(found) => hex_bytes(alloc, found, KEYS),
    }
}

/// So many zeros.
#[tactic(auto, unfolding(crate::specs::ListForms::zeros))]
fn zeros(alloc: Global, size: usize) -> Result<Blob, Memory>
    ensures { IfOk result (λ blob. blob ≡ zeros size) }
{
    let bytes = vec![in alloc; 0; size]?;
    Ok(Blob::of_vec(bytes))
}

/// Exactly so many bytes, of two hexadecimal digits each.
fn hex_bytes(alloc: Global, json: &Value, size: usize) -> Result<Option<Blob>, Memory>
    ensures { IfOk result (λ bytes. bytes ≡ hex_bytes size (view json.now)) }
{
    match json.as_str() {
        None => Ok(None),
        Some(text) => decoded(alloc, text, size),
    }
}

fn decoded(alloc: Global, text: &str, size: usize) -> Result<Option<Blob>, Memory>
    ensures { IfOk result (λ bytes. bytes ≡ decoded (decode_sized text.now size)) }
{
    let mut bytes = vec![in alloc; 0; size]?;
    match hex::decode_to_slice(text, bytes.as_mut_slice()) {
        Ok(()) => Ok(Some(Blob::of_vec(bytes))),
        Err(_) => Ok(None),
    }
}
