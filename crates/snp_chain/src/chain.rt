//! The chain of page records (SEV-SNP Firmware ABI, SNP_LAUNCH_UPDATE, PAGE_INFO).
ghost use Rattle.std.specs.Prelude.{◌≡◌, ◌++◌, [], ◌∷◌, List, replicate};
ghost use Rattle.snp_chain.specs.Chain.{PageRecord, Holds, digest_after, page_of};

use crate::SnpPage;
use crate::page::number_of;
use igvm_headers::Digest;
use sha2::{Digest as _, Sha384};
use std::marker::Model;

/// The launch digest so far. Contracts see its 48 bytes.
#[derive(Drop)]
pub struct SnpChain {
    digest: [u8; 48],
}

impl Model for SnpChain {
    ghost use Rattle.std.specs.Prelude.{List, ℕ};

    ghost Value = { List ℕ };

    ghost view = { λ c. c.digest };
}

impl SnpChain {
    /// The chain of no pages.
    #[tactic(auto, unfolding(crate::specs::Chain::snp))]
    pub fn new() -> SnpChain
        ensures { Holds result [] }
    {
        SnpChain { digest: [0; 48] }
    }

    /// Adds a page at a guest physical address. Its contents are their digest, or 48 zeros for a kind
    /// whose bytes are not measured.
    #[tactic(auto, using(std::proofs::lemmas::List::Sums::fold_push), unfolding(crate::specs::Chain::snp))]
    pub fn update(&mut self, kind: SnpPage, gpa: u64, contents: &Digest)
        ensures step { self.new ≡ digest_after self.old (page_of kind gpa contents.now) }
        ensures chain { (pages : List PageRecord)
            → Holds self.old pages
            → Holds self.new (pages ++ page_of kind gpa contents.now ∷ []) }
    {
        let mut hasher = Sha384::new();
        hasher.update(&self.digest);
        hasher.update(contents.bytes());
        hasher.update(&[0x70, 0, number_of(kind), 0, 0, 0, 0, 0]);
        hasher.update(&gpa.to_le_bytes());
        self.digest = hasher.finalize();
    }

    /// The digest of the pages so far.
    pub fn digest(&self) -> Digest
        ensures { result ≡ self.now }
    {
        Digest::of_bytes(self.digest)
    }
}
