//! What holds of every file, beyond what one call answers: each law is a function that does nothing.
ghost use Rattle.std.specs.Prelude.{◌≡◌, ◌↔◌, ◌<◌, ◌+◌, ◌-◌, ℕ, List, None, Some, true, length, slice_index};
ghost use Rattle.elf_pages.specs.declared.segment.Segment.{Segment};
ghost use Rattle.elf_pages.specs.declared.fault.ElfFault.{ElfFault};
ghost use Rattle.elf_pages.specs.AcceptedFile.{KeepsSegmentRules};
ghost use Rattle.elf_pages.specs.Faults.{elf_fault, file_fault, headers_fault};
ghost use Rattle.elf_pages.specs.FileHeader.{header_count};
ghost use Rattle.elf_pages.specs.FirstHeader.{IsFirstHeader};
ghost use Rattle.elf_pages.specs.GuestBytes.{byte_of, elf_byte};
ghost use Rattle.elf_pages.specs.PageFacts.{IsFilled, IsPage};
ghost use Rattle.elf_pages.specs.Pages.{is_filled, page_address, pages_of};
ghost use Rattle.elf_pages.specs.SegmentFacts.{IsInFile, ShareByte, segment_number};
ghost use Rattle.elf_pages.specs.Segments.{overlaps, segments_of};

/// A file is accepted exactly where it keeps the rules on the file header and those on its loadable segments.
pub fn accepted_files()
    ensures { (file : List ℕ) → (elf_fault file ≡ None)
        ↔ ((file_fault file ≡ None) × KeepsSegmentRules file) }
{}

/// Two segments overlap exactly where some byte is of both.
pub fn overlap_is_a_shared_byte()
    ensures { (s t : Segment) → 0 < s.memory_bytes → 0 < t.memory_bytes
        → (overlaps s t ≡ true) ↔ ShareByte s t }
{}

/// The pages are those that hold a byte of some loadable segment, in rising order.
pub fn pages_are_those_touched()
    ensures rising { (file : List ℕ) (j k : ℕ) → j < k → k < length (pages_of file)
        → page_address file j < page_address file k }
    ensures each { (file : List ℕ) (k : ℕ) → k < length (pages_of file)
        → IsPage file (page_address file k) }
    ensures all { (file : List ℕ) (gpa : ℕ) → elf_fault file ≡ None → IsPage file gpa
        → (k : ℕ) × (k < length (pages_of file)) × (page_address file k ≡ gpa) }
{}

/// A page is filled exactly where it holds a byte that some loadable segment has in the file.
pub fn filled_pages()
    ensures { (file : List ℕ) (gpa : ℕ)
        → (is_filled (segments_of file) gpa ≡ true) ↔ IsFilled file gpa }
{}

/// A byte that some loadable segment has in the file is that byte, whichever segment is asked; each other
/// byte is 0.
pub fn bytes_are_the_segments()
    ensures held { (file : List ℕ) (n x : ℕ) → elf_fault file ≡ None → n < length (segments_of file)
        → IsInFile x (segment_number file n)
        → elf_byte file x ≡ byte_of file (segment_number file n) x }
    ensures zero { (file : List ℕ) (x : ℕ)
        → ((n : ℕ) → n < length (segments_of file) → IsInFile x (segment_number file n) → ⊥)
        → elf_byte file x ≡ 0 }
{}

/// The fault of the program headers is that of the first that breaks a rule.
pub fn first_header_decides()
    ensures first { (file : List ℕ) (e : ElfFault) → headers_fault file (header_count file) ≡ Some e
        → (k : ℕ) × IsFirstHeader file k e }
    ensures only { (file : List ℕ) (e : ElfFault) (k : ℕ) → IsFirstHeader file k e
        → headers_fault file (header_count file) ≡ Some e }
    ensures file { (file : List ℕ) (e : ElfFault) → file_fault file ≡ None
        → headers_fault file (header_count file) ≡ Some e → elf_fault file ≡ Some e }
{}
