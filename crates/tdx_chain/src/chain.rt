//! The stream of records (Intel TDX Module Base Architecture Specification, MRTD:
//! TDH.MEM.PAGE.ADD and TDH.MR.EXTEND).
ghost use Rattle.std.specs.Prelude.{◌≡◌, ◌%◌, ◌*◌, ◌<◌, ◌≤◌, ℕ, ◌++◌, [], ◌∷◌, List, length};
ghost use Rattle.sha2.specs.Hashers.{Holds384};
ghost use Rattle.igvm_headers.specs.Numbers.{slice};
ghost use Rattle.igvm_headers.specs.Pages.{padded_page};
ghost use Rattle.tdx_chain.specs.Stream.{page_add_record, extend_records, tdx};
ghost use Rattle.tdx_chain.specs.Held.{Holds};

use crate::chunks::{lent_chunk, zeros};
use crate::front::{extend_front, page_add_front, set_address};
use igvm_headers::{Digest, PageView};
use sha2::{Digest as _, Sha384};

/// The measurement so far: a hasher of the records that came.
#[derive(Drop)]
pub struct TdxChain {
    hasher: Sha384,
}

impl TdxChain {
    /// The chain of no records.
    pub fn new() -> TdxChain
        ensures { Holds result [] }
    {
        TdxChain {
            hasher: Sha384::new(),
        }
    }

    /// Adds a page's place: one record of 128 bytes.
    #[tactic(auto, using(crate::proofs::Records::concat_one))]
    pub fn page_add(&mut self, gpa: u64)
        ensures { (records : List (List ℕ))
            → Holds self.old records
            → Holds self.new (records ++ page_add_record gpa ∷ []) }
    {
        self.hasher.update(&page_add_front(gpa));
    }

    /// Adds the bytes of the page at an address: a record of 384 bytes for each of its 16 chunks. They
    /// are hashed where they lie.
    pub fn extend(&mut self, gpa: u64, page: PageView<'_>)
        requires { gpa % 4096 ≡ 0 }
        ensures { (records : List (List ℕ))
            → Holds self.old records
            → Holds self.new (records ++ extend_records gpa page.entry) }
    {
        let lent = page.lent();
        let mut front = extend_front(gpa);
        'chunks: for k in 0..16 {
            set_address(&mut front, gpa + 256 * k as u64);
            self.hasher.update(&front);
            add_chunk(&mut self.hasher, lent, k);
        }
    }

    /// The measurement: the digest of all records joined.
    #[tactic(auto, unfolding(crate::specs::Stream::tdx))]
    pub fn finish(self) -> Digest
        ensures { (records : List (List ℕ)) → Holds self records → result ≡ tdx records }
    {
        Digest::of_bytes(self.hasher.finalize())
    }
}

/// Adds chunk `k` of a page of which these bytes are lent.
#[tactic(auto, using(crate::proofs::PageChunks::chunk_padded))]
fn add_chunk(hasher: &mut Sha384, lent: &[u8], k: usize)
    requires size { length lent.now ≤ 4096 }
    requires within { k < 16 }
    ensures { (m : List ℕ)
        → Holds384 hasher.old m
        → Holds384 hasher.new (m ++ slice (padded_page lent.now) (256 * k) 256) }
{
    let chunk = lent_chunk(lent, k);
    hasher.update(chunk);
    // Most chunks are whole, and a call with nothing to add has its cost, too.
    if chunk.len() < 256 {
        hasher.update(zeros(256 - chunk.len()));
    }
}
