//! Shelves and outputs that fail. A shelf gives 16 bytes a call, and an output takes 8.
use super::{failing_sink, must_run, run_with, shelf_of, words_of};
use crate::status::Status;
use igvm_outside::MemSink;
use std::test::Fail;

/// A zero page on SEV-SNP, in 80 bytes.
const IMAGE: &str = "4947564d010000001800000038000000500000005c30ae5e\
        010000001000000001000000000201000000000000000000\
        0203000018000000001000000000000001000000000000000000000000000000";

const LISTING: &str = "\
igvm version 1 section 24 56 total 80 headers 2
0 at 24 platform 0 mask 00000001 kind snp vtl 0 version 1 shared 0000000000000000
1 at 48 page gpa 0000000000001000 mask 00000001 from 0 size 4096 measured normal
";

const DIGEST: &str = "\
    e6e4d78904d9d6b33c0cbfd121998fd2d11744dae606b3ae\
    e35e2a45d6869b60b35c63928a9232bef72d6be386f48ec6\n";

const SHELF: &str = "igvm: outside fault: shelf\n";

const OUTPUT: &str = "igvm: outside fault: output\n";

/// The words, the calls that fail, the status, and what stands on both outputs.
static FAULTS: [(&str, (u64, u64, u64), Status, &str, &str); 11] = [
    ("print FILE", (0, 0, 0), Status::Done, LISTING, ""),
    ("print FILE", (0, 0, 1), Status::Done, LISTING, ""),
    ("print FILE", (0, 2, 0), Status::Outside, "igvm ver", OUTPUT),
    ("print FILE", (0, 2, 1), Status::Outside, "igvm ver", ""),
    ("print FILE", (1, 0, 2), Status::Outside, "", "igvm: ou"),
    (
        "measure FILE --platform 0",
        (0, 0, 0),
        Status::Done,
        DIGEST,
        "",
    ),
    (
        "measure FILE --platform snp",
        (0, 0, 1),
        Status::Done,
        DIGEST,
        "",
    ),
    (
        "measure FILE --platform snp",
        (3, 0, 0),
        Status::Outside,
        "",
        SHELF,
    ),
    (
        "measure FILE --platform snp",
        (3, 1, 2),
        Status::Outside,
        "",
        "igvm: ou",
    ),
    (
        "measure FILE --platform snp",
        (0, 1, 0),
        Status::Outside,
        "",
        OUTPUT,
    ),
    (
        "measure FILE --platform tdx",
        (0, 1, 2),
        Status::Platform,
        "",
        "igvm: no",
    ),
];

#[test]
fn answers_faults(rt: HostRuntime) -> Result<(), Fail> {
    let file = hex::decode(rt.alloc(), IMAGE)?;
    for (text, calls, status, out, err) in &FAULTS {
        let words = words_of(rt.alloc(), text)?;
        let mut shelf = shelf_of(rt.alloc(), &file)?;
        shelf.set_piece(16);
        shelf.fail_call(calls.0)?;
        let failing_out = failing_sink(rt.alloc(), 8, calls.1)?;
        let failing_err = failing_sink(rt.alloc(), 8, calls.2)?;
        let ran = run_with(rt.alloc(), &words, &mut shelf, failing_out, failing_err);
        assert_eq!(rt; ran.status, *status, "{text}");
        assert_eq!(rt; ran.out.bytes(), out.as_bytes(), "{text}");
        assert_eq!(rt; ran.err.bytes(), err.as_bytes(), "{text}");
    }
    Ok(())
}

// The shelf is opened, gives 80 bytes in 5 reads, and is at its end at the next.
#[test]
fn each_call_of_the_shelf_may_fail(rt: HostRuntime) -> Result<(), Fail> {
    let file = hex::decode(rt.alloc(), IMAGE)?;
    for text in ["print FILE", "measure FILE --platform snp"] {
        let words = words_of(rt.alloc(), text)?;
        for call in 1..8 {
            let mut shelf = shelf_of(rt.alloc(), &file)?;
            shelf.set_piece(16);
            shelf.fail_call(call)?;
            must_run(
                &rt,
                text,
                rt.alloc(),
                &words,
                &mut shelf,
                (Status::Outside, "", SHELF),
            );
        }
    }
    Ok(())
}

// A front of the text is put.
#[test]
fn each_put_may_fail(rt: HostRuntime) -> Result<(), Fail> {
    let mut shelf = shelf_of(rt.alloc(), &hex::decode(rt.alloc(), IMAGE)?)?;
    for (job, text, puts) in [
        ("print FILE", LISTING, 27),
        ("measure FILE --platform snp", DIGEST, 13),
    ] {
        let words = words_of(rt.alloc(), job)?;
        for call in 1u64..puts + 1 {
            let out = failing_sink(rt.alloc(), 8, call)?;
            let ran = run_with(
                rt.alloc(),
                &words,
                &mut shelf,
                out,
                MemSink::new(rt.alloc()),
            );
            let is_front = text.as_bytes().starts_with(ran.out.bytes());
            let is_short = ran.out.bytes().len() < text.len();
            assert!(rt; is_front && is_short, "{job}, {call}");
            assert_eq!(rt; ran.status, Status::Outside, "{job}, {call}");
            assert_eq!(rt; ran.err.bytes(), OUTPUT.as_bytes(), "{job}, {call}");
        }
    }
    Ok(())
}
