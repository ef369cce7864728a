//! JSON (RFC 8259) that is printed and read again, as the contract of a function that does nothing.
ghost use Rattle.std.specs.Prelude.{◌≡◌, Some};
ghost use Rattle.serde_json.specs.Data.{Data};
ghost use Rattle.serde_json.specs.Written.{compact_text};
ghost use Rattle.json_forms.specs.Texts.{json_of};
ghost use Rattle.json_forms.specs.Plain.{IsPlain};

/// The compact text of plain data is read as that data. Plain data are UTF-8 texts, whole numbers
/// of 64 bits without a sign, true, false, null, arrays, and objects whose keys rise, at most 127
/// deep.
pub fn plain_reads_back()
    ensures { (json : Data) → IsPlain json → json_of (compact_text json) ≡ Some json }
{}
