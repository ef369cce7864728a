//! What holds of all that is promised of the further commands: laws, functions that do nothing.
ghost use Rattle.std.specs.Prelude.{◌≡◌, ◌≤◌, ◌<◌, ◌-◌, ◌^◌, ◌++◌, ℕ, List, All, Option, Some, length, replicate};
ghost use Rattle.std.specs.FinMap as map;
ghost use Rattle.igvm_outside.specs.Files.{Files};
ghost use Rattle.image_builder.specs.Layout.{layout};
ghost use Rattle.elf_list.specs.ElfParts.{with_elf_pages};
ghost use Rattle.igvm_words.specs.Words.{PlatformChoice};
ghost use Rattle.further_words.specs.FurtherWords.{SevLoadWords, ElfWords};
ghost use Rattle.vmsa_page.specs.Pages.{vmsa_of};
ghost use Rattle.vmsa_page.specs.Texts.{vmsa_json};
ghost use Rattle.igvm_jobs.specs.declared.status.Status as status;
ghost use Rattle.igvm_jobs.specs.declared.status.Status.TheVariants as is;
ghost use Rattle.igvm_jobs.specs.Clauses.{KeepsPromises, Gains, IsPut};
ghost use Rattle.igvm_jobs.specs.Outcome.{done, done_writing};
ghost use Rattle.igvm_jobs.specs.Texts.{built_text};
ghost use Rattle.igvm_tool.specs.SevMeasureJob.{sev_measure_task};
ghost use Rattle.igvm_tool.specs.SevLoadJob.{sev_load_task};
ghost use Rattle.igvm_tool.specs.SevClauses.{KeepsSevPromises};
ghost use Rattle.igvm_tool.specs.VmsaJobs.{vmsa_build_task, vmsa_print_task};
ghost use Rattle.igvm_tool.specs.BuildElfJob.{build_elf_task};
ghost use Rattle.igvm_tool.specs.FurtherAnswers.{SevMeasureAnswers, SevLoadAnswers, SevLoadIsTold, VmsaBuildAnswers, VmsaPrintAnswers, IsElfBuilt, ElfAnswers};
ghost use Rattle.igvm_tool.specs.ElfInGuest.{AlwaysPlacesElf};

use igvm_outside::{Shelf, Sink};
use launch_platform::Launch;
use sev_platform::SevLaunch;

/// Whatever is told, `sev-measure` answers for some bytes of FILE, as many as it gave.
pub fn sev_measure_answers<S: Shelf, O: Sink, E: Sink, L: Launch>()
    ensures { (file : List ℕ) (wanted : PlatformChoice) (status : status.Status)
        (shelf shelf' : S) (out out' : O) (err err' : E) (machine machine' : L)
        → KeepsPromises S.Shelf O.Sink E.Sink L.Launch (sev_measure_task file wanted) status
        shelf shelf' out out' err err' machine machine'
        → SevMeasureAnswers wanted status (S.given shelf')
        (λ text. Gains O.Sink text out out') (λ text. IsPut E.Sink text err err') }
{}

/// Whatever is told, `sev-load` answers for some bytes of FILE and, where these lead on to it, some text
/// of HOST, as many as were given last.
pub fn sev_load_answers<S: Shelf, O: Sink, E: Sink, M: SevLaunch>()
    ensures { (words : SevLoadWords) (status : status.Status)
        (shelf shelf' : S) (out out' : O) (err err' : E) (sev sev' : M)
        → KeepsSevPromises S.Shelf O.Sink E.Sink M.SevLaunch (sev_load_task words) status
        shelf shelf' out out' err err' sev sev'
        → SevLoadAnswers words.wanted status (S.given shelf')
        (λ text. Gains O.Sink text out out') (λ text. IsPut E.Sink text err err') }
{}

/// After a `sev-load` that is done the machine is done, and what was put is what it says of itself.
pub fn sev_load_is_told<S: Shelf, O: Sink, E: Sink, M: SevLaunch>()
    ensures { (words : SevLoadWords)
        (shelf shelf' : S) (out out' : O) (err err' : E) (sev sev' : M)
        → KeepsSevPromises S.Shelf O.Sink E.Sink M.SevLaunch (sev_load_task words) is.Done
        shelf shelf' out out' err err' sev sev'
        → SevLoadIsTold O.Sink M.SevLaunch out out' sev' }
{}

/// Whatever is told, `vmsa-build` writes the page of the VMSA that some text describes, as long as JSON
/// gave, or says in one of its texts why not.
pub fn vmsa_build_answers<S: Shelf, O: Sink, E: Sink, L: Launch>()
    ensures { (json target : List ℕ) (status : status.Status)
        (shelf shelf' : S) (out out' : O) (err err' : E) (machine machine' : L)
        → KeepsPromises S.Shelf O.Sink E.Sink L.Launch (vmsa_build_task json target) status
        shelf shelf' out out' err err' machine machine'
        → VmsaBuildAnswers target status (S.given shelf') (S.told shelf) (S.told shelf')
        (λ text. Gains O.Sink text out out') (λ text. IsPut E.Sink text err err') }
{}

/// Whatever is told, `vmsa-print` puts the text of some page, as long as FILE gave, or says that it gave
/// too much.
pub fn vmsa_print_answers<S: Shelf, O: Sink, E: Sink, L: Launch>()
    ensures { (file : List ℕ) (status : status.Status)
        (shelf shelf' : S) (out out' : O) (err err' : E) (machine machine' : L)
        → KeepsPromises S.Shelf O.Sink E.Sink L.Launch (vmsa_print_task file) status
        shelf shelf' out out' err err' machine machine'
        → VmsaPrintAnswers status (S.given shelf')
        (λ text. Gains O.Sink text out out') (λ text. IsPut E.Sink text err err') }
{}

/// Building what was printed of a page gives that page, followed by zeros up to 4,096 bytes.
pub fn printed_vmsa_is_built()
    ensures printed { (files : Files) (file page : List ℕ) → map.get files file ≡ Some page
        → length page ≤ 4096
        → (vmsa_print_task file).outcome files ≡ done (vmsa_json (vmsa_of page)) }
    ensures built { (files : Files) (json target page : List ℕ)
        → length page ≤ 4096 → All (λ byte. byte < 256) page
        → map.get files json ≡ Some (vmsa_json (vmsa_of page))
        → (vmsa_build_task json target).outcome files
        ≡ done_writing target (page ++ replicate (4096 - length page) 0) (built_text 4096) }
{
    // Laws: nothing runs.
    vmsa_page::page_reads_back();
    vmsa_page::text_reads_back();
    vmsa_page::text_is_short();
}

/// Whatever is told, `build-elf` writes the image of some list with the pages of some ELF file, as long
/// as ELF gave, or says in one of its texts why not.
pub fn elf_answers<S: Shelf, O: Sink, E: Sink, L: Launch>()
    ensures { (words : ElfWords) (status : status.Status)
        (shelf shelf' : S) (out out' : O) (err err' : E) (machine machine' : L)
        → KeepsPromises S.Shelf O.Sink E.Sink L.Launch (build_elf_task words) status
        shelf shelf' out out' err err' machine machine'
        → ElfAnswers words status (S.given shelf') (S.told shelf) (S.told shelf')
        (λ text. Gains O.Sink text out out') (λ text. IsPut E.Sink text err err') }
{}

/// Where `build-elf` is done, the image that it wrote has the ELF file in guest memory: on each platform
/// that the mask names, and on each host that the image fits, a load places the file's bytes at the
/// addresses of its pages, and no others there.
pub fn built_elf_is_in_the_guest<O: Sink>()
    ensures { (words : ElfWords) (given : ℕ) (told told' : Option Files) (out out' : O) → words.mask < 2 ^ 32
        → (built : IsElfBuilt words given told told' (λ text. Gains O.Sink text out out'))
        → AlwaysPlacesElf (layout (with_elf_pages built.parts built.file words.mask)) words.mask
        built.file }
{
    // Laws: nothing runs.
    image_builder::layout_has_its_size();
    elf_list::list_with_elf_pages_is_a_list();
    elf_list::elf_bytes_are_placed();
}
