//! What holds of several calls together: a law is a function that does nothing.
ghost use Rattle.std.specs.Prelude.{◌≡◌, ◌<◌, ℕ, suc, List, Some, Ok};
ghost use Rattle.std.specs.List.{slice_get};
ghost use Rattle.igvm_headers.specs.HeaderFacts.{data_pages};
ghost use Rattle.igvm_headers.specs.declared.fault.ReadWhat.{ReadWhat};
ghost use Rattle.igvm_headers.specs.declared.header.Header.{Header};
ghost use Rattle.igvm_image.specs.Data.{data_of, data_page};
ghost use Rattle.igvm_image.specs.Headers.{PlacedHeader, placed_headers};
ghost use Rattle.igvm_c.specs.declared.pages.PagesFields.{PagesFields};
ghost use Rattle.igvm_c.specs.Headers.{header_at};
ghost use Rattle.igvm_c.specs.Pages.{page_in, pages_of};
ghost use Rattle.igvm_c.specs.Rules.{rule_number};
ghost use Rattle.igvm_c.specs.Texts.{rule_text};
ghost use Rattle.igvm_c.specs.Walk.{stop};
ghost use Rattle.rule_texts.specs.RuleTexts.{rule_words};

/// The words for the number of a fault's rule are those of this rule.
pub fn words_of_rules()
    ensures { (what : ReadWhat) → rule_text (rule_number what) ≡ rule_words what }
{}

/// A host that asks for the header at 0, and then for the one that each names as the next until that is 0, sees
/// all headers of a file, each once and in order: the header at 0 is the first; at the offset of header k stands header
/// k, which has number k and names the offset of the one behind it; and that is 0 for the last one alone.
pub fn walk()
    ensures first { (file : List ℕ) (h : PlacedHeader) → slice_get (placed_headers file) 0 ≡ Some h
        → header_at file 0 ≡ header_at file h.at }
    ensures each { (file : List ℕ) (k : ℕ) (h : PlacedHeader) → slice_get (placed_headers file) k ≡ Some h
        → header_at file h.at ≡ Ok (stop file k h) }
    ensures number { (file : List ℕ) (k : ℕ) (h : PlacedHeader) → slice_get (placed_headers file) k ≡ Some h
        → h.index ≡ k }
    ensures more { (file : List ℕ) (k : ℕ) (h : PlacedHeader) → slice_get (placed_headers file) (suc k) ≡ Some h
        → 0 < h.at }
{}

/// The pages of a page header and of a context hold what the file has at the offset and of the size that
/// `igvm_pages` names, followed by zeros.
pub fn stored_bytes()
    ensures { (file : List ℕ) (header : Header) (run : PagesFields) (k : ℕ) → pages_of file header ≡ Ok run
        → k < data_pages header → data_page (data_of file header) k ≡ page_in file run k }
{}
