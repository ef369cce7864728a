//! What holds of every file, beyond what one call answers: each law is a function that does nothing.
ghost use Rattle.std.specs.Prelude.{◌≡◌, ◌↔◌, ℕ, ◌<◌, List, ◌++◌, length, take, Some, true};
ghost use Rattle.std.specs.List.{slice_get, AllByRecursion};
ghost use Rattle.igvm_headers.specs.SpellingConditions.{NumbersFit};
ghost use Rattle.igvm_image.specs.Areas.{areas_of};
ghost use Rattle.igvm_image.specs.PagesFit.{PagesFit, AreBytes};
ghost use Rattle.igvm_headers.specs.Fixed.{fixed_fields, fixed_size};
ghost use Rattle.igvm_headers.specs.declared.header.Header.{Header};
ghost use Rattle.platform_masks.specs.Platforms.{platforms_of};
ghost use Rattle.igvm_image.specs.HeaderRules.{seen_of, breaks_order, breaks_mask, breaks_area_limit, breaks_area_repeated, breaks_area_unknown, breaks_wrap, breaks_pages};
ghost use Rattle.igvm_image.specs.RulesInWords.{FollowsLater, LacksOwnBit, DeclaresTooMany, DeclaresAgain, NamesUndeclared, InsertsPastEnd, PlacesTooMany};
ghost use Rattle.igvm_image.specs.Pieces.{Piece, pieces, cut};
ghost use Rattle.igvm_image.specs.SectionSplit.{Split};
ghost use Rattle.igvm_image.specs.FileFault.{fault_of};
ghost use Rattle.igvm_image.specs.Headers.{PlacedHeader, IsAccepted, pieces_of, placed_headers, headers_of};
ghost use Rattle.igvm_image.specs.HeadersOfFile.{Spells, IsHeaderOf, cut_fault};
ghost use Rattle.igvm_image.specs.FirstFault.{KeepsFileRules, KeepsHeaderRules, IsFirstFault};
ghost use Rattle.igvm_headers.specs.declared.fault.ReadFault.{ReadFault};

/// A section is headers in a row and a rest in exactly one way, the one that the reader finds.
pub fn one_split()
    ensures found { (s : List ℕ) → Split s (pieces s) (cut s) }
    ensures one { (s rest : List ℕ) (ps : List Piece) → Split s ps rest
        → (ps ≡ pieces s) × (rest ≡ cut s) }
{}

/// Every piece of an accepted file is a header, numbered from 0, at its place, with its data.
pub fn headers_are_the_pieces()
    ensures as_many { (file : List ℕ) → IsAccepted file
        → length (placed_headers file) ≡ length (pieces_of file) }
    ensures each { (file : List ℕ) (k : ℕ) (p : Piece) → IsAccepted file
        → slice_get (pieces_of file) k ≡ Some p → (header : Header) × Spells file k p header }
{}

/// Each header of an accepted file has the form of its type, has its own data, and breaks no rule behind
/// the headers before it; and one of them is a platform.
pub fn accepted_headers()
    ensures each { (file : List ℕ) (k : ℕ) (placed : PlacedHeader) → IsAccepted file
        → slice_get (placed_headers file) k ≡ Some placed → IsHeaderOf file k placed }
    ensures platform { (file : List ℕ) → IsAccepted file
        → 0 < length (platforms_of (headers_of file)) }
{}

/// When a header breaks each of the rules that ask of the headers before it: what holds of that list, in words that
/// the reader's summary of it does not share. The other three rules ask of the header alone.
pub fn rules_in_words()
    ensures order { (before : List Header) (header : Header)
        → ((breaks_order (seen_of before) header ≡ true) ↔ FollowsLater before header) }
    ensures mask { (before : List Header) (header : Header)
        → ((breaks_mask (seen_of before) header ≡ true) ↔ LacksOwnBit before header) }
    ensures area_limit { (before : List Header) (header : Header)
        → ((breaks_area_limit (seen_of before) header ≡ true) ↔ DeclaresTooMany before header) }
    ensures area_repeated { (before : List Header) (header : Header)
        → ((breaks_area_repeated (seen_of before) header ≡ true) ↔ DeclaresAgain before header) }
    ensures area_unknown { (before : List Header) (header : Header)
        → ((breaks_area_unknown (seen_of before) header ≡ true) ↔ NamesUndeclared before header) }
    ensures wrap { (before : List Header) (header : Header)
        → ((breaks_wrap (seen_of before) header ≡ true) ↔ InsertsPastEnd before header) }
    ensures pages { (before : List Header) (header : Header)
        → ((breaks_pages (seen_of before) header ≡ true) ↔ PlacesTooMany before header) }
{}

/// The fault of a file that keeps the rules on the whole file: that of the first header that breaks a rule,
/// else what is left behind the headers, else the lack of a platform. There is none exactly where all is kept.
pub fn first_fault()
    ensures fault { (file : List ℕ) (e : ReadFault) → KeepsFileRules file
        → ((fault_of file ≡ Some e) ↔ IsFirstFault file e) }
    ensures none { (file : List ℕ) → KeepsFileRules file
        → (IsAccepted file ↔ ((headers : List Header) × KeepsHeaderRules file headers)) }
{}

/// An accepted file that is cut below its total size is refused, as too short where the fixed header is cut.
pub fn truncation()
    ensures { (file : List ℕ) (n : ℕ) → IsAccepted file → n < (fixed_fields file).total
        → fault_of (take n file) ≡ Some (cut_fault (fixed_size (fixed_fields file).version) n) }
{}

/// Bytes behind an accepted file change neither that nor its headers and their data.
pub fn trailing_bytes()
    ensures accepted { (file more : List ℕ) → IsAccepted file → IsAccepted (file ++ more) }
    ensures headers { (file more : List ℕ) → IsAccepted file
        → placed_headers (file ++ more) ≡ placed_headers file }
{}

/// The headers of an accepted file place their pages within the address space, and the numbers of a file of
/// bytes fit their fields.
pub fn pages_fit()
    ensures fit { (file : List ℕ) → IsAccepted file
        → AllByRecursion (λ p. PagesFit (areas_of (headers_of file)) p.header) (placed_headers file) }
    ensures numbers { (file : List ℕ) → AreBytes file
        → AllByRecursion (λ p. NumbersFit p.header) (placed_headers file) }
{
    igvm_headers::read_is_spellable();
}
