//! What holds of records, entries and tags: each law is a function that does nothing.
ghost use Rattle.std.specs.Prelude.{◌≡◌, ◌≢◌, ◌↔◌, ◌⊎◌, ℕ, List, ◌++◌, map, length, slice_get};
ghost use Rattle.std.specs.List.{All};
ghost use Rattle.std.specs.Option.{option_map};
ghost use Rattle.snp_chain.specs.Chain.{PageRecord};
ghost use Rattle.launch_platform.specs.Machine.{Entry, State, LaunchRecord, Info, Bytes, infos, streams};
ghost use Rattle.launch_platform.specs.Commands.{Place, Add, CanAdd, CanExtend, TagFits, after_command, change_at};

use igvm_headers::{PlatformKind, Tag};

/// What is measured on a platform by two lists of records in a row is what is measured by each, in
/// a row; and what was measured as records of its kind is all measured.
pub fn records_join()
    ensures infos { (first second : List LaunchRecord)
        → infos (first ++ second) ≡ infos first ++ infos second }
    ensures streams { (first second : List LaunchRecord)
        → streams (first ++ second) ≡ streams first ++ streams second }
    ensures pages { (pages : List PageRecord) → infos (map (λ page. Info page) pages) ≡ pages }
    ensures rows { (rows : List (List ℕ)) → streams (map (λ bytes. Bytes bytes) rows) ≡ rows }
{}

/// Changing an entry changes that one: it is the old one changed, where there is one, all others
/// are as they were, and there are as many.
pub fn entry_changes()
    ensures changed { (entries : List Entry) (slot : ℕ) (change : Entry → Entry)
        → slice_get (change_at slot change entries) slot
        ≡ option_map change (slice_get entries slot) }
    ensures others { (entries : List Entry) (slot : ℕ) (change : Entry → Entry) (other : ℕ)
        → other ≢ slot → slice_get (change_at slot change entries) other ≡ slice_get entries other }
    ensures size { (entries : List Entry) (slot : ℕ) (change : Entry → Entry)
        → length (change_at slot change entries) ≡ length entries }
{}

/// A page that was just placed can be added by a tag that its platform takes for it; and one that
/// was then added as `Normal` can be extended.
pub fn pages_enter()
    ensures added { (s : State) (gpa : ℕ) (page : List ℕ) (tag : Tag) → TagFits s.kind tag page
        → CanAdd (length s.entries) tag (after_command (Place gpa page) s) }
    ensures extended { (s : State) (gpa : ℕ) (page : List ℕ) → CanExtend (length s.entries)
        (after_command (Add (length s.entries) Tag.Normal) (after_command (Place gpa page) s)) }
{}

/// SEV-SNP takes `Zero` exactly for a page whose every byte is 0, and any other tag for every page.
/// TDX takes `Normal` and `Unmeasured` alone.
pub fn tags_fit()
    ensures zero { (page : List ℕ) → length page ≡ 4096
        → TagFits PlatformKind.SevSnp Tag.Zero page ↔ All (λ byte. byte ≡ 0) page }
    ensures snp { (tag : Tag) (page : List ℕ) → tag ≢ Tag.Zero
        → TagFits PlatformKind.SevSnp tag page }
    ensures tdx { (tag : Tag) (page : List ℕ)
        → TagFits PlatformKind.Tdx tag page ↔ ((tag ≡ Tag.Normal) ⊎ (tag ≡ Tag.Unmeasured)) }
{}
