//! The bytes of an image that count, fed to one hash where they lie (AMD SEV API, LAUNCH_UPDATE_DATA,
//! LAUNCH_UPDATE_VMSA and LAUNCH_MEASURE).
ghost use Rattle.std.specs.Prelude.{◌≡◌, ◌<◌, ◌≤◌, ◌++◌, ℕ, List, replicate};
ghost use Rattle.sha2.specs.Hashers.{Holds256};
ghost use Rattle.igvm_image.specs.PlacedView.{placed_view};
ghost use Rattle.igvm_measure.specs.Runs.{HasItsPages};
ghost use Rattle.sev_chain.specs.SevBytes.{all_pages, hashed_pages, hashed_context, header_bytes, sev_digest};

use crate::digest::Digest32;
use igvm_headers::{Header, PageKind, PageView, PlatformKind};
use igvm_image::{DataView, ImageView, Placed};
use platform_masks::{Platform, applies};
use sha2::{Digest as _, Sha256};

// What follows the bytes that are lent of a page, up to its end.
static ZEROS: [u8; 4096] = [0; 4096];

/// SHA-256 of the bytes of an image that count for a platform.
pub(crate) fn sev_digest(view: &ImageView<'_>, platform: Platform) -> Digest32
    ensures { result ≡ sev_digest view.now platform }
{
    let mut hasher = Sha256::new();
    'headers: for placed in view.headers() {
        if applies(&placed.header, platform.mask) {
            add_header(&mut hasher, platform.kind, &placed);
        }
    }
    Digest32::of_bytes(hasher.finalize())
}

/// Adds what a header gives on platforms of a kind.
#[tactic(auto, unfolding(crate::specs::SevBytes::header_bytes))]
fn add_header(hasher: &mut Sha256, platform: PlatformKind, placed: &Placed<'_>)
    requires { HasItsPages (placed_view placed.now) }
    ensures { (m : List ℕ) → Holds256 hasher.old m
        → Holds256 hasher.new (m ++ header_bytes platform (placed_view placed.now)) }
{
    match placed.header {
        Header::Page {
            unmeasured,
            kind,
            ..
        } => add_normal(hasher, unmeasured, kind, &placed.content),
        Header::Context { .. } => add_context(hasher, platform, &placed.content),
        _ => {}
    }
}

/// Adds the data of a page, where it is a normal one without the unmeasured flag.
fn add_normal(hasher: &mut Sha256, unmeasured: bool, kind: PageKind, content: &DataView<'_>)
    ensures { (m : List ℕ) → Holds256 hasher.old m
        → Holds256 hasher.new (m ++ hashed_pages unmeasured kind content.now) }
{
    if !unmeasured && kind == PageKind::Normal {
        add_pages(hasher, content);
    }
}

/// Adds the data of a context, on SEV-ES.
fn add_context(hasher: &mut Sha256, platform: PlatformKind, content: &DataView<'_>)
    requires { 0 < content.now.pages }
    ensures { (m : List ℕ) → Holds256 hasher.old m
        → Holds256 hasher.new (m ++ hashed_context platform content.now) }
{
    match platform {
        PlatformKind::SevEs => add_page(hasher, content.page(0)),
        _ => {}
    }
}

/// Adds all pages of a header's data.
fn add_pages(hasher: &mut Sha256, content: &DataView<'_>)
    ensures { (m : List ℕ) → Holds256 hasher.old m
        → Holds256 hasher.new (m ++ all_pages content.now) }
{
    'pages: for k in 0..content.pages() {
        add_page(hasher, content.page(k));
    }
}

/// Adds the 4,096 bytes of a page.
fn add_page(hasher: &mut Sha256, page: PageView<'_>)
    ensures { (m : List ℕ) → Holds256 hasher.old m → Holds256 hasher.new (m ++ page.entry) }
{
    let lent = page.lent();
    add_bytes(hasher, lent);
    add_bytes(hasher, zeros(4096 - lent.len()));
}

/// Adds bytes, if there are any: a call with nothing to add has its cost, too.
fn add_bytes(hasher: &mut Sha256, bytes: &[u8])
    ensures { (m : List ℕ) → Holds256 hasher.old m → Holds256 hasher.new (m ++ bytes.now) }
{
    if !bytes.is_empty() {
        hasher.update(bytes);
    }
}

/// So many zeros, of a page at most.
fn zeros(count: usize) -> &'static [u8]
    requires { count ≤ 4096 }
    ensures { result.now ≡ replicate count 0 }
{
    &ZEROS[..count]
}
