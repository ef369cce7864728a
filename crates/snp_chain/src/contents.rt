//! What stands for a page's bytes (SEV-SNP Firmware ABI, PAGE_INFO, CONTENTS).
ghost use Rattle.std.specs.Prelude.{◌≡◌, ◌≤◌, replicate};
ghost use Rattle.sha2.specs.Sha512.{sha384};

use igvm_headers::{Digest, PageView};
use sha2::{Digest as _, Sha384};

// What follows a page's bytes, up to its end.
static ZEROS: [u8; 4096] = [0; 4096];

/// The digest of a page's 4,096 bytes.
#[tactic(auto, unfolding(igvm_headers::specs::Pages::padded_page))]
pub fn contents_of(page: PageView) -> Digest
    ensures { result ≡ sha384 page.entry }
{
    let lent = page.lent();
    let mut hasher = Sha384::new();
    hasher.update(lent);
    hasher.update(zeros(4096 - lent.len()));
    Digest::of_bytes(hasher.finalize())
}

/// So many zeros, of a page at most.
fn zeros(count: usize) -> &'static [u8]
    requires { count ≤ 4096 }
    ensures { result.now ≡ replicate count 0 }
{
    &ZEROS[..count]
}
