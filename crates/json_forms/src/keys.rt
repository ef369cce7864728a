//! Objects whose keys are known.
ghost use Rattle.std.specs.Prelude.{◌≡◌, map, bytes_eq};
ghost use Rattle.std.specs.List.{list_any};
ghost use Rattle.serde_json.specs.View.{view, members_view};
ghost use Rattle.json_forms.specs.Forms.{are_among, has_only};

use serde_json::{Map, Value};

/// It is an object, and each of its keys is one of these names. A name need not be a key.
pub fn has_only(json: &Value, names: &[&str]) -> bool
    ensures { result ≡ has_only (map (λ name. name.now) names.now) (view json.now) }
{
    match json.as_object() {
        Some(members) => are_among(members, names),
        None => false,
    }
}

/// Each key is one of these names.
fn are_among(members: &Map<String, Value>, names: &[&str]) -> bool
    ensures { result
        ≡ are_among (map (λ name. name.now) names.now) (members_view members.now.entries) }
{
    'steps: for (key, _) in members {
        if !is_among(key.as_str(), names) {
            return false;
        }
    }
    true
}

/// The key is one of these names.
fn is_among(key: &str, names: &[&str]) -> bool
    ensures { result ≡ list_any (λ name. bytes_eq name.now key.now) names.now }
{
    names.iter().any(|name| *name == key)
}
