//! A listing of 42,904 bytes, which takes several puts.
use super::{failing_sink, numbered, run_with, shelf_of, words_of};
use crate::status::Status;
use igvm_outside::MemSink;
use std::alloc::Global;
use std::test::Fail;

/// The fixed header before 1,001 headers, and a TDX platform.
const START: &str = "4947564d0100000018000000983e0000b03e00005299b359\
        010000001000000001000000000301000000000000000000";

const FIRST_LINES: &str = "\
igvm version 1 section 24 16024 total 16048 headers 1001
0 at 24 platform 0 mask 00000001 kind tdx vtl 0 version 1 shared 0000000000000000
";

/// The bytes of a header of type 0x80000399 before and behind its content of 4 bytes.
const HEADER: (&[u8], &[u8]) = (b"\x99\x03\0\x80\x04\0\0\0", b"\0\0\0\0");

fn listing(alloc: Global) -> Result<Vec<u8>, Fail> {
    let mut text = FIRST_LINES.as_bytes().to_vec(alloc)?;
    for number in 1u32..1001 {
        let at = 32 + 16 * number;
        let line = format!(in alloc; "{number} at {at} carried kind 80000399 length 4\n")?;
        text.extend_from_slice(line.as_bytes())?;
    }
    Ok(text)
}

// An output that takes 8,192 bytes a put, and fails at one put or at none.
#[test]
fn puts_many_lines(rt: HostRuntime) -> Result<(), Fail> {
    let words = words_of(rt.alloc(), "print FILE")?;
    let mut shelf = shelf_of(rt.alloc(), &numbered(rt.alloc(), START, HEADER, 1000)?)?;
    let listing = listing(rt.alloc())?;
    assert_eq!(rt; listing.len(), 43346);
    for call in 0u64..6 {
        let out = failing_sink(rt.alloc(), 8192, call)?;
        let ran = run_with(
            rt.alloc(),
            &words,
            &mut shelf,
            out,
            MemSink::new(rt.alloc()),
        );
        let is_whole = ran.out.bytes().len() == listing.len();
        assert!(rt; listing.starts_with(ran.out.bytes()), "call {call}");
        assert_eq!(rt; is_whole, call == 0, "call {call}");
        assert_eq!(rt; ran.status == Status::Done, call == 0, "call {call}");
    }
    Ok(())
}
