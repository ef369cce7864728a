//! The platforms of an image: how many, each by its number, and the first of a kind.
ghost use Rattle.std.specs.Prelude.{◌≡◌, ◌==◌, find};
ghost use Rattle.igvm_headers.specs.PlatformKinds.{kind_number};
ghost use Rattle.igvm_c.specs.Files.{file_refusal};
ghost use Rattle.igvm_c.specs.Platforms.{count_of, first_of, first_of_kind, kind_of, platform_numbered, platform_of, told_platform};
ghost use Rattle.igvm_c.specs.Refusals.{held, status_of, unless};

use crate::file::open;
use crate::platform::{PlatformFields, told_platform};
use crate::refusal::Refusal;
use igvm_headers::PlatformKind;
use igvm_image::ImageView;
use platform_masks::Platform;

/// How many platforms an image has: at least 1, at most 32.
#[unsafe(no_mangle)]
pub extern "C" fn igvm_platform_count(file: &[u8], count: &mut u32) -> u32
    ensures status { result ≡ status_of (count_of file.now) }
    ensures count { count.new ≡ held (λ n. n) (count_of file.now) count.old }
{
    match open(file) {
        Ok(view) => {
            *count = view.platforms().count();
            0
        }
        Err(refusal) => refusal.status(),
    }
}

/// The fields of an image's platform of this number.
#[unsafe(no_mangle)]
pub extern "C" fn igvm_platform(file: &[u8], number: u32, platform: &mut PlatformFields) -> u32
    ensures status { result ≡ status_of (platform_of file.now number) }
    ensures fields { platform.new ≡ held told_platform (platform_of file.now number) platform.old }
{
    match platform_in(file, number) {
        Ok(found) => {
            *platform = told_platform(found);
            0
        }
        Err(refusal) => refusal.status(),
    }
}

/// The number of the first platform of a kind.
#[unsafe(no_mangle)]
pub extern "C" fn igvm_first_platform(file: &[u8], kind: u32, number: &mut u32) -> u32
    ensures status { result ≡ status_of (first_of file.now kind) }
    ensures number { number.new ≡ held (λ n. n) (first_of file.now kind) number.old }
{
    match first_in(file, kind) {
        Ok(first) => {
            *number = first;
            0
        }
        Err(refusal) => refusal.status(),
    }
}

/// The platform of a number in a file.
fn platform_in(file: &[u8], number: u32) -> Result<Platform, Refusal>
    ensures { result ≡ platform_of file.now number }
{
    let view = open(file)?;
    by_number(&view, number)
}

/// The platform of a number in an image.
pub(crate) fn by_number(view: &ImageView<'_>, number: u32) -> Result<Platform, Refusal>
    ensures { result ≡ platform_numbered view.now number }
{
    view.platforms()
        .by_number(number)
        .ok_or(Refusal::NoPlatform)
}

/// The number of the first platform of the kind of a number in a file.
fn first_in(file: &[u8], kind: u32) -> Result<u32, Refusal>
    ensures { result ≡ first_of file.now kind }
{
    let kind = kind_of(kind)?;
    first_of_kind(file, kind)
}

/// The number of the first platform of a kind in a file.
fn first_of_kind(file: &[u8], kind: PlatformKind) -> Result<u32, Refusal>
    ensures { result ≡ unless (file_refusal file.now) (first_of_kind file.now kind) }
{
    let view = open(file)?;
    first_in_image(&view, kind)
}

/// The number of the first platform of a kind in an image.
#[tactic(auto, unfolding(crate::specs::Platforms::first_of_kind))]
fn first_in_image(view: &ImageView<'_>, kind: PlatformKind) -> Result<u32, Refusal>
    ensures { result ≡ first_of_kind view.now kind }
{
    view.platforms().first_of(kind).ok_or(Refusal::NoPlatform)
}

/// The kind of a number.
fn kind_of(number: u32) -> Result<PlatformKind, Refusal>
    ensures { result ≡ kind_of number }
{
    numbered(&PlatformKind::ALL, number).ok_or(Refusal::Unknown)
}

fn numbered(kinds: &[PlatformKind], number: u32) -> Option<PlatformKind>
    ensures { result ≡ find (λ kind. kind_number kind == number) kinds.now }
{
    kinds
        .iter()
        .copied()
        .find(|kind| kind.number() as u32 == number)
}
