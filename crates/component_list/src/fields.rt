//! The values at the keys of an entry.
ghost use Rattle.std.specs.Prelude.{◌≡◌, false};
ghost use Rattle.serde_json.specs.View.{view};
ghost use Rattle.serde_json.specs.Find.{as_bool};
ghost use Rattle.igvm_headers.specs.declared.page_kind.PageKind.TheVariants.{Normal};
ghost use Rattle.json_forms.specs.Forms.{address, byte, short, word, required, optional};
ghost use Rattle.component_list.specs.ListForms.{page_kind};

use igvm_headers::PageKind;
use serde_json::Value;

/// A number of 32 bits that must be there.
pub(crate) fn word(json: &Value, key: &str) -> Option<u32>
    ensures { result ≡ required word key.now (view json.now) }
{
    json_forms::word(json.get(key)?)
}

/// A number of 32 bits, 0 where it is missing.
pub(crate) fn word_or_0(json: &Value, key: &str) -> Option<u32>
    ensures { result ≡ optional word 0 key.now (view json.now) }
{
    match json.get(key) {
        None => Some(0),
        Some(found) => json_forms::word(found),
    }
}

/// A number of 16 bits that must be there.
pub(crate) fn short(json: &Value, key: &str) -> Option<u16>
    ensures { result ≡ required short key.now (view json.now) }
{
    json_forms::short(json.get(key)?)
}

/// A number of 16 bits, 1 where it is missing.
pub(crate) fn short_or_1(json: &Value, key: &str) -> Option<u16>
    ensures { result ≡ optional short 1 key.now (view json.now) }
{
    match json.get(key) {
        None => Some(1),
        Some(found) => json_forms::short(found),
    }
}

/// A number of 8 bits, 0 where it is missing.
pub(crate) fn byte_or_0(json: &Value, key: &str) -> Option<u8>
    ensures { result ≡ optional byte 0 key.now (view json.now) }
{
    match json.get(key) {
        None => Some(0),
        Some(found) => json_forms::byte(found),
    }
}

/// An address that must be there.
pub(crate) fn address(json: &Value, key: &str) -> Option<u64>
    ensures { result ≡ required address key.now (view json.now) }
{
    json_forms::address(json.get(key)?)
}

/// An address, 0 where it is missing.
pub(crate) fn address_or_0(json: &Value, key: &str) -> Option<u64>
    ensures { result ≡ optional address 0 key.now (view json.now) }
{
    match json.get(key) {
        None => Some(0),
        Some(found) => json_forms::address(found),
    }
}

/// A truth value, false where it is missing.
pub(crate) fn truth(json: &Value, key: &str) -> Option<bool>
    ensures { result ≡ optional as_bool false key.now (view json.now) }
{
    match json.get(key) {
        None => Some(false),
        Some(found) => found.as_bool(),
    }
}

/// A page kind, normal where it is missing.
pub(crate) fn page_kind(json: &Value, key: &str) -> Option<PageKind>
    ensures { result ≡ optional page_kind Normal key.now (view json.now) }
{
    match json.get(key) {
        None => Some(PageKind::Normal),
        Some(found) => PageKind::from_name(found.as_str()?),
    }
}
