//! What holds of every list with the pages of a file, each law as the contract of a function that does
//! nothing.
ghost use Rattle.std.specs.Prelude.{◌≡◌, ◌≤◌, ◌<◌, ◌+◌, ◌^◌, ℕ, List, None, Some, true, length};
ghost use Rattle.host_set.specs.Hosts.{HostValues};
ghost use Rattle.host_set.specs.declared.range.PlanRange.{PlanRange};
ghost use Rattle.igvm_headers.specs.SpellingConditions.{AreBytes};
ghost use Rattle.igvm_headers.specs.declared.options.Options.{Options};
ghost use Rattle.platform_masks.specs.Masks.{shares_bit};
ghost use Rattle.platform_masks.specs.declared.platform.Platform.{Platform};
ghost use Rattle.directive_rules.specs.FirstMisfit.{first_misfit};
ghost use Rattle.elf_pages.specs.Faults.{elf_fault};
ghost use Rattle.elf_pages.specs.GuestBytes.{elf_byte};
ghost use Rattle.elf_pages.specs.Pages.{page_address, pages_of};
ghost use Rattle.component_list.specs.Lists.{ImageParts, IsList};
ghost use Rattle.image_builder.specs.Layout.{layout, layout_size};
ghost use Rattle.image_loader.specs.Loads.{load_of};
ghost use Rattle.elf_list.specs.ElfParts.{pages_named, with_elf_pages};
ghost use Rattle.elf_list.specs.GuestMemory.{IsGuestByte};

use component_list::first_fault_of_a_list;
use elf_pages::{accepted_files, bytes_are_the_segments, filled_pages, pages_are_those_touched};
use image_builder::built_is_read_back;

/// A list with the pages of an accepted file is a list, where the pages and the components aren't too many.
pub fn list_with_elf_pages_is_a_list()
    ensures { (list : ImageParts) (file : List ℕ) (mask : ℕ) → IsList list → elf_fault file ≡ None
        → AreBytes file → mask < 2 ^ 32
        → pages_named list.parts + length (pages_of file) ≤ 4194304
        → length list.parts + length (pages_of file) < 2 ^ 32 → IsList (with_elf_pages list file mask) }
{
    // Laws: nothing runs.
    first_fault_of_a_list();
    accepted_files();
    pages_are_those_touched();
}

/// On each platform that the mask names, an image that has an ELF file's pages places them: the byte of
/// guest memory at each of their addresses is the file's; and where the image fits a host, no other page
/// has that address.
pub fn elf_bytes_are_placed()
    ensures placed { (list : ImageParts) (file : List ℕ) (mask : ℕ) (platform : Platform)
        (options : Options) (host : HostValues) (k i : ℕ) → IsList (with_elf_pages list file mask)
        → layout_size (with_elf_pages list file mask) ≤ 536870912
        → shares_bit (Some mask) platform.mask ≡ true → k < length (pages_of file) → i < 4096
        → IsGuestByte (load_of (layout (with_elf_pages list file mask)) platform options host)
        (page_address file k + i) (elf_byte file (page_address file k + i)) }
    ensures alone { (list : ImageParts) (file : List ℕ) (mask : ℕ) (platform : Platform)
        (options : Options) (host : HostValues) (plan : List PlanRange) (k i byte : ℕ)
        → IsList (with_elf_pages list file mask)
        → layout_size (with_elf_pages list file mask) ≤ 536870912
        → shares_bit (Some mask) platform.mask ≡ true → k < length (pages_of file) → i < 4096
        → first_misfit (layout (with_elf_pages list file mask)) platform plan host ≡ None
        → IsGuestByte (load_of (layout (with_elf_pages list file mask)) platform options host)
        (page_address file k + i) byte
        → byte ≡ elf_byte file (page_address file k + i) }
{
    // Laws: nothing runs.
    built_is_read_back();
    igvm_image::laws::accepted_headers();
    directive_rules::laws::fitting_pages_are_new();
    pages_are_those_touched();
    filled_pages();
    bytes_are_the_segments();
}
