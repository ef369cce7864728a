//! The first 128 bytes of a record (Intel TDX Module Base Architecture Specification,
//! TDH.MEM.PAGE.ADD and TDH.MR.EXTEND).
ghost use Rattle.std.specs.Prelude.{◌≡◌, ℕ, List, length};
ghost use Rattle.tdx_chain.specs.Stream.{record_front, page_add, mr_extend};

/// The front of a page-add record.
pub(crate) fn page_add_front(gpa: u64) -> [u8; 128]
    ensures { result ≡ record_front page_add gpa }
{
    front_of(b"MEM.PAGE.ADD\0\0\0\0", gpa)
}

/// The front of an extend record.
pub(crate) fn extend_front(gpa: u64) -> [u8; 128]
    ensures { result ≡ record_front mr_extend gpa }
{
    front_of(b"MR.EXTEND\0\0\0\0\0\0\0", gpa)
}

/// The front of a record of this name, at an address.
#[tactic(auto, unfolding(crate::specs::Stream::record_front))]
fn front_of(name: &[u8; 16], gpa: u64) -> [u8; 128]
    ensures { result ≡ record_front name.now gpa }
{
    let mut front = [0; 128];
    front[..16].copy_from_slice(name);
    set_address(&mut front, gpa);
    front
}

/// Puts another address into a front: all else stays, so nothing is cleared for each record.
#[tactic(auto, unfolding(crate::specs::Stream::record_front))]
pub(crate) fn set_address(front: &mut [u8; 128], gpa: u64)
    ensures { (name : List ℕ) (before : ℕ)
        → length name ≡ 16
        → front.old ≡ record_front name before
        → front.new ≡ record_front name gpa }
{
    front[16..24].copy_from_slice(&gpa.to_le_bytes());
}
