//! What the rows and the first misfit are, beyond what one call answers: each law is a function that
//! does nothing.
ghost use Rattle.std.specs.Prelude.{◌≡◌, ◌↔◌, ◌<◌, ◌+◌, ◌*◌, ◌==◌, ℕ, List, [], Some, None, true, false, length, sum_by};
ghost use Rattle.std.specs.List.{list_any, flat_map};
ghost use Rattle.igvm_headers.specs.HeaderFacts.{gpa_of};
ghost use Rattle.igvm_headers.specs.declared.header.Header.{Header};
ghost use Rattle.igvm_image.specs.Areas.{placed_pages};
ghost use Rattle.igvm_image.specs.Headers.{PlacedHeader};
ghost use Rattle.igvm_image.specs.declared.area_table.AreaEntry.{AreaEntry};
ghost use Rattle.directive_rules.specs.PageAddresses.{addresses};
ghost use Rattle.directive_rules.specs.MisfitRows.{Setting, before_of, row};
ghost use Rattle.directive_rules.specs.FirstMisfit.{misfit_after};
ghost use Rattle.directive_rules.specs.MisfitsInWords.{IsFirst, NoneFails, IsRepeated};
ghost use Rattle.directive_rules.specs.declared.misfit.Misfit.{Misfit};

/// The misfit of headers that count for a platform is that of the first that has a row, and its first
/// row.
pub fn first_of_misfits()
    ensures first { (s : Setting) (placed : List PlacedHeader) (m : Misfit)
        → ((misfit_after s [] placed ≡ Some m) ↔ IsFirst s [] placed m) }
    ensures none { (s : Setting) (placed : List PlacedHeader)
        → ((misfit_after s [] placed ≡ None) ↔ NoneFails s [] placed) }
{}

/// A header shares a page with those before it exactly where one of its pages and one of an earlier
/// header's have one address.
pub fn repeated_pages()
    ensures { (areas : List AreaEntry) (before : List Header) (header : Header)
        → (((before_of areas before header).shares ≡ true) ↔ IsRepeated areas before header) }
{}

/// A header that fits places no page at an address at which an earlier one places one.
pub fn fitting_pages_are_new()
    ensures { (s : Setting) (before : List Header) (header : Header) (k : ℕ)
        → row s before header ≡ None → k < placed_pages s.areas header
        → list_any (λ x. x == gpa_of header + 4096 * k) (flat_map (addresses s.areas) before)
        ≡ false }
{}

/// Headers place as many pages as they have addresses.
pub fn pages_are_counted()
    ensures { (areas : List AreaEntry) (headers : List Header)
        → length (flat_map (addresses areas) headers) ≡ sum_by (placed_pages areas) headers }
{}
