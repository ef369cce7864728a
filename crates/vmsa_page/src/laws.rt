//! What a page, its VMSA and its text are to each other, as contracts of functions that do nothing.
ghost use Rattle.std.specs.Prelude.{◌≡◌, ◌<◌, ◌≤◌, ◌-◌, ◌++◌, replicate, ℕ, List, All, length, Ok};
ghost use Rattle.json_forms.specs.Plain.{IsPlain};
ghost use Rattle.vmsa_page.specs.Vmsas.{VmsaParts, IsVmsa};
ghost use Rattle.vmsa_page.specs.Pages.{page_of, vmsa_of};
ghost use Rattle.vmsa_page.specs.Texts.{vmsa_data, vmsa_json};
ghost use Rattle.vmsa_page.specs.Sources.{vmsa_source};

/// The page of a VMSA is read as that VMSA.
pub fn vmsa_reads_back()
    ensures { (vmsa : VmsaParts) → IsVmsa vmsa → vmsa_of (page_of vmsa) ≡ vmsa }
{}

/// What is read of a page is a VMSA, whose page is that page. Where the page ends early, zeros
/// follow it.
pub fn page_reads_back()
    ensures valid { (page : List ℕ) → length page ≤ 4096 → All (λ byte. byte < 256) page
        → IsVmsa (vmsa_of page) }
    ensures whole { (page : List ℕ) → length page ≡ 4096 → All (λ byte. byte < 256) page
        → page_of (vmsa_of page) ≡ page }
    ensures short { (page : List ℕ) → length page ≤ 4096 → All (λ byte. byte < 256) page
        → page_of (vmsa_of page) ≡ page ++ replicate (4096 - length page) 0 }
{}

/// The text of a VMSA is read as that VMSA. It is of plain data, so the keys of its objects rise.
pub fn text_reads_back()
    ensures plain { (vmsa : VmsaParts) → IsVmsa vmsa → IsPlain (vmsa_data vmsa) }
    ensures read { (vmsa : VmsaParts) → IsVmsa vmsa → vmsa_source (vmsa_json vmsa) ≡ Ok vmsa }
{
    // A law: nothing runs.
    json_forms::plain_reads_back();
}

/// The text of a page is short: at most 131,072 bytes.
pub fn text_is_short()
    ensures { (page : List ℕ) → length page ≤ 4096 → All (λ byte. byte < 256) page
        → length (vmsa_json (vmsa_of page)) ≤ 131072 }
{}
