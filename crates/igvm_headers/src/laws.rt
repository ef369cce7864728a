//! What holds of every header that is spelled: each law is a function that does nothing.
ghost use Rattle.std.specs.Prelude.{◌≡◌, ◌↔◌, ◌+◌, ◌/◌, ◌*◌, ◌^◌, ◌<◌, ℕ, List, ◌++◌, length, drop, replicate, IsTrue, Ok};
ghost use Rattle.igvm_headers.specs.Numbers.{number_at, slice};
ghost use Rattle.igvm_headers.specs.HeaderFacts.{header_type, content_size, header_tail, data_offset, with_offset};
ghost use Rattle.igvm_headers.specs.HeaderForm.{header_form};
ghost use Rattle.igvm_headers.specs.Spelling.{header_fields, header_content, padding_size, spelled};
ghost use Rattle.igvm_headers.specs.SpellingConditions.{NumbersFit, TailFits, LargeIsNormal, KindIsCarried, IsSpellable, IsRead, AreBytes, ListsAreBytes};
ghost use Rattle.igvm_headers.specs.declared.header.Header.{Header};

use crate::Header;

/// The numbers of a header fit their fields, since they are of these types.
pub fn numbers_fit(h: Header)
    ensures { NumbersFit h }
{
    if let Header::IdBlock {
        ld,
        family_id,
        image_id,
        ..
    } = h
    {
        let _lengths = (ld.bytes().len(), family_id.len(), image_id.len());
    }
}

/// Headers are equal, as `==` answers, exactly where they are one.
pub fn equal_headers_are_one()
    ensures { (a b : Header) → IsTrue (⟦<Header as PartialEq>⟧.eq a b) ↔ (a ≡ b) }
{}

/// Where a header's data stand changes nothing else of it: at another file offset, of 32 bits, its
/// numbers fit and it can be spelled as before, with fields as long. The last offset counts, and a
/// header with its own offset is itself.
pub fn offset_keeps()
    ensures size { (at : ℕ) (h : Header)
        → length (header_fields (with_offset at h)) ≡ length (header_fields h) }
    ensures numbers { (at : ℕ) (h : Header) → at < 2 ^ 32
        → NumbersFit h → NumbersFit (with_offset at h) }
    ensures spellable { (at : ℕ) (h : Header) (tail : List ℕ) → at < 2 ^ 32
        → IsSpellable h tail → IsSpellable (with_offset at h) tail }
    ensures lists { (at : ℕ) (h : Header) → ListsAreBytes h → ListsAreBytes (with_offset at h) }
    ensures last { (first second : ℕ) (h : Header)
        → with_offset second (with_offset first h) ≡ with_offset second h }
    ensures own { (h : Header) → with_offset (data_offset h) h ≡ h }
{}

/// A header's fields are bytes, and so is what is spelled with a tail of bytes: only the lists of an
/// ID block might hold other numbers.
pub fn fields_are_bytes()
    ensures fields { (h : Header) → ListsAreBytes h → AreBytes (header_fields h) }
    ensures spelled { (h : Header) (tail : List ℕ) → ListsAreBytes h → AreBytes tail
        → AreBytes (spelled h tail) }
{}

/// What is spelled is read again as the same header with the same tail. How long its content is
/// depends on the record alone and not on its numbers: that of a context has 20 bytes.
pub fn spelled_is_read()
    ensures header { (h : Header) (tail : List ℕ) → IsSpellable h tail
        → header_form (header_type h) (header_content h tail) ≡ Ok h }
    ensures tail { (h : Header) (tail : List ℕ) → IsSpellable h tail
        → header_tail h (header_content h tail) ≡ tail }
    ensures size { (h : Header) (tail : List ℕ) → IsSpellable h tail
        → length (header_content h tail) ≡ content_size h }
{}

/// Where a section begins with what is spelled, it begins with the header's type, the length of its
/// content and its content. Zeros follow, fewer than 8, up to a multiple of 8, and then what stands
/// behind.
pub fn spelled_is_a_piece()
    ensures kind { (h : Header) (tail rest : List ℕ) → IsSpellable h tail
        → number_at 4 0 (spelled h tail ++ rest) ≡ header_type h }
    ensures size { (h : Header) (tail rest : List ℕ) → IsSpellable h tail
        → number_at 4 4 (spelled h tail ++ rest) ≡ length (header_content h tail) }
    ensures content { (h : Header) (tail rest : List ℕ)
        → slice (spelled h tail ++ rest) 8 (length (header_content h tail))
        ≡ header_content h tail }
    ensures padding { (h : Header) (tail : List ℕ)
        → drop (8 + length (header_content h tail)) (spelled h tail)
        ≡ replicate (padding_size (length (header_content h tail))) 0 }
    ensures least { (n : ℕ) → padding_size n < 8 }
    ensures padded { (h : Header) (tail : List ℕ)
        → length (spelled h tail) ≡ (8 + length (header_content h tail) + 7) / 8 * 8 }
    ensures behind { (h : Header) (tail rest : List ℕ)
        → drop ((8 + length (header_content h tail) + 7) / 8 * 8) (spelled h tail ++ rest) ≡ rest }
{}

/// What is read can be spelled: a header that was read from bytes, with what it carries unread of
/// them, meets what `encode_header` asks for, and its type is the one that was read.
pub fn read_is_spellable()
    ensures kind { (kind : ℕ) (content : List ℕ) (h : Header) → IsRead kind content h
        → header_type h ≡ kind }
    ensures spellable { (kind : ℕ) (content : List ℕ) (h : Header) → IsRead kind content h
        → IsSpellable h (header_tail h content) }
{}

/// What holds of a header that is read from any content, of bytes or not: its tail is of its size, a
/// page of 2 MB is a normal one, and what is carried is of a type that is carried.
pub fn what_is_read()
    ensures tail { (kind : ℕ) (content : List ℕ) (h : Header) → header_form kind content ≡ Ok h
        → TailFits h (header_tail h content) }
    ensures large { (kind : ℕ) (content : List ℕ) (h : Header) → header_form kind content ≡ Ok h
        → LargeIsNormal h }
    ensures carried { (kind : ℕ) (content : List ℕ) (h : Header) → header_form kind content ≡ Ok h
        → KindIsCarried h }
{}
