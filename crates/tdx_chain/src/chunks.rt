//! The chunks of a page, lent from where it lies.
ghost use Rattle.std.specs.Prelude.{◌≡◌, ◌≤◌, ◌<◌, ◌-◌, ◌*◌, ◌++◌, length, take, drop, replicate};
ghost use Rattle.igvm_headers.specs.Numbers.{slice};

// What follows a page's bytes, up to the end of a chunk.
static ZEROS: [u8; 256] = [0; 256];

/// What chunk `k` has of the bytes that are lent of a page: none behind their end.
#[tactic(auto, using(crate::proofs::PageChunks::lent_slice))]
pub(crate) fn lent_chunk(lent: &[u8], k: usize) -> &[u8]
    requires { k < 16 }
    ensures value { result.now ≡ slice lent.now (256 * k) 256 }
    ensures within { length result.now ≤ 256 }
{
    let start = (256 * k).min(lent.len());
    let end = (start + 256).min(lent.len());
    &lent[start..end]
}

/// So many zeros, of a chunk at most.
pub(crate) fn zeros(count: usize) -> &'static [u8]
    requires { count ≤ 256 }
    ensures { result.now ≡ replicate count 0 }
{
    &ZEROS[..count]
}
