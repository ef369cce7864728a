//! What holds of every list of calls, each law as the contract of a function that does nothing.
ghost use Rattle.std.specs.Prelude.{◌≡◌, ◌+◌, ◌*◌, ◌<◌, ◌≤◌, ◌++◌, ◌↔◌, ℕ, List, [], ◌∷◌, Option, Some, None, false, length, slice_index, sum_by};
ghost use Rattle.std.specs.Option.{option_map};
ghost use Rattle.igvm_headers.specs.Numbers.{slice};
ghost use Rattle.igvm_image.specs.Data.{Data};
ghost use Rattle.param_areas.specs.AreaBytes.{Space, IsNew, IsOpen, bytes_of, size_of_all, with_area, with_change, with_taken, with_value};
ghost use Rattle.param_areas.specs.AreaHistory.{Told, Shows, content_bytes, declared, told_at, told_byte, told_change, told_size, told_taken, told_value};
ghost use Rattle.param_areas.specs.Calls.{Call, AreInOrder, told_by, told_call, byte_under, content_of, settings_of, told_of};

/// After any calls, each byte of an area is that of the last value set that covers it, else the
/// declared content's.
pub fn last_value_stands()
    ensures byte { (calls : List Call) (area place : ℕ) → AreInOrder [] calls
        → told_byte (told_by calls) area place
        ≡ byte_under (content_of area calls) (settings_of area calls) place }
    ensures told { (calls : List Call) (area : ℕ) → AreInOrder [] calls
        → told_at (told_by calls) area ≡ option_map (told_of area calls) (content_of area calls) }
    ensures step { (calls : List Call) (c : Call)
        → told_by (calls ++ c ∷ []) ≡ told_call (told_by calls) c }
{}

/// What areas were told says which are new and which open, their sizes, how many they are, and the bytes of their
/// pages. Areas that take one more call were told that, too.
pub fn told_is_shown()
    ensures open { (space : Space) (told : List Told) (area : ℕ) → Shows space told
        → IsOpen space.areas area ↔ (option_map (λ t. t.taken) (told_at told area) ≡ Some false) }
    ensures size { (space : Space) (told : List Told) (area : ℕ) → Shows space told
        → length (bytes_of space.areas area) ≡ told_size (told_at told area) }
    ensures new { (space : Space) (told : List Told) (area : ℕ) → Shows space told
        → told_at told area ≡ None → IsNew space.areas area }
    ensures count { (space : Space) (told : List Told) → Shows space told
        → length space.areas ≡ length told }
    ensures all { (space : Space) (told : List Told) → Shows space told
        → size_of_all space.areas ≡ sum_by (λ t. told_size (Some t)) told }
    ensures page { (space : Space) (told : List Told) (area k j : ℕ) → Shows space told
        → 4096 * k + 4096 ≤ length (bytes_of space.areas area) → j < 4096
        → slice_index (slice (bytes_of space.areas area) (4096 * k) 4096) j ≡ told_byte told area (4096 * k + j) }
    ensures declare { (space : Space) (told : List Told) (area : ℕ) (content : Data) → Shows space told
        → Shows (with_area space area (content_bytes content)) (told ++ declared area content ∷ []) }
    ensures set { (space : Space) (told : List Told) (area place : ℕ) (value : List ℕ) → Shows space told
        → place + length value ≤ length (bytes_of space.areas area)
        → Shows (with_change (with_value place value) area space) (told_change (told_value place value) area told) }
    ensures take { (space : Space) (told : List Told) (area : ℕ) → Shows space told
        → Shows (with_change with_taken area space) (told_change told_taken area told) }
{}
