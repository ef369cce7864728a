//! What stands for a page's bytes in its record (SEV-SNP Firmware ABI, PAGE_INFO, CONTENTS).
ghost use Rattle.std.specs.Prelude.{◌≡◌, replicate};
ghost use Rattle.sha2.specs.Sha512.{sha384};
ghost use Rattle.igvm_measure.specs.Records.{contents_of as contents_of_bytes};

use igvm_headers::{Digest, PageView};
use snp_chain::contents_of;

/// The digests of pages. That of a page of zeros is taken once, and serves each page without data.
#[derive(Drop)]
pub(crate) struct PageDigests {
    zero: Digest,
    ghost zeros: { zero ≡ sha384 (replicate 4096 0) },
}

impl PageDigests {
    /// Takes the digest of a page of zeros.
    pub(crate) fn new() -> PageDigests {
        PageDigests {
            zero: contents_of(PageView::zero()),
        }
    }

    /// The digest of a page's bytes, and 48 zeros where they aren't measured. They are hashed where they
    /// lie.
    pub(crate) fn contents(&self, bytes: Option<PageView<'_>>) -> Digest
        ensures { result ≡ contents_of_bytes bytes.entry }
    {
        match bytes {
            Some(page) => self.digest_of_page(page),
            None => Digest::of_bytes([0; 48]),
        }
    }

    /// The digest of a page, which is not taken again where none of its bytes is lent.
    #[tactic(auto, using(crate::proofs::PageBytes::empty_page))]
    fn digest_of_page(&self, page: PageView<'_>) -> Digest
        ensures { result ≡ sha384 page.entry }
    {
        if page.lent().is_empty() {
            self.zero
        } else {
            contents_of(page)
        }
    }
}
