//! The platform that is chosen by its kind or its number, and what is said where there is none.
use super::{must_run, shelf_of, words_of};
use crate::status::Status;
use std::test::Fail;

/// Two SEV-SNP platforms, and a page of the second.
const TWO: &str = "4947564d01000000180000005000000068000000c3e3189f\
        010000001000000001000000000201000000000000000000\
        010000001000000002000000000201000000000000000000\
        0203000018000000001000000000000002000000000000000000000000000000";

/// A TDX platform.
const ALONE: &str = "4947564d01000000180000001800000030000000250c25a6\
        010000001000000001000000000301000000000000000000";

/// A platform of each kind, and a page of all.
const SIX: &str = "4947564d0100000018000000b0000000c8000000ff61cdb8\
        010000001000000001000000000001000000000000000000\
        010000001000000002000000000101000000000000000000\
        010000001000000004000000000201000000000000000000\
        010000001000000008000000000301000000000000000000\
        010000001000000010000000000401000000000000000000\
        010000001000000020000000000501000000000000000000\
        020300001800000000100000000000003f000000000000000000000000000000";

/// An image, the words, the status, and what stands on both outputs.
static CHOICES: [(&str, &str, Status, &str, &str); 15] = [
    (
        TWO,
        "measure FILE --platform snp",
        Status::Done,
        "\
        000000000000000000000000000000000000000000000000\
        000000000000000000000000000000000000000000000000\n",
        "",
    ),
    (
        TWO,
        "measure FILE --platform 0",
        Status::Done,
        "\
        000000000000000000000000000000000000000000000000\
        000000000000000000000000000000000000000000000000\n",
        "",
    ),
    (
        TWO,
        "measure FILE --platform 1",
        Status::Done,
        "\
        e6e4d78904d9d6b33c0cbfd121998fd2d11744dae606b3ae\
        e35e2a45d6869b60b35c63928a9232bef72d6be386f48ec6\n",
        "",
    ),
    (
        TWO,
        "measure FILE --platform 2",
        Status::Platform,
        "",
        "igvm: no platform 2\n",
    ),
    (
        TWO,
        "measure FILE --platform tdx",
        Status::Platform,
        "",
        "igvm: no platform tdx\n",
    ),
    (
        TWO,
        "measure FILE --platform 4294967295",
        Status::Platform,
        "",
        "igvm: no platform 4294967295\n",
    ),
    (
        ALONE,
        "measure FILE --platform snp",
        Status::Platform,
        "",
        "igvm: no platform snp\n",
    ),
    (
        ALONE,
        "measure FILE --platform 0",
        Status::Done,
        "\
        38b060a751ac96384cd9327eb1b1e36a21fdb71114be0743\
        4c0cc7bf63f6e1da274edebfe76f65fbd51ad2f14898b95b\n",
        "",
    ),
    (
        SIX,
        "measure FILE --platform 0",
        Status::Platform,
        "",
        "igvm: no digest for native\n",
    ),
    (
        SIX,
        "measure FILE --platform 1",
        Status::Platform,
        "",
        "igvm: no digest for vsm\n",
    ),
    (
        SIX,
        "measure FILE --platform 2",
        Status::Done,
        "\
        e6e4d78904d9d6b33c0cbfd121998fd2d11744dae606b3ae\
        e35e2a45d6869b60b35c63928a9232bef72d6be386f48ec6\n",
        "",
    ),
    (
        SIX,
        "measure FILE --platform 3",
        Status::Done,
        "\
        ca76d5541328afef8bc9364261c515aebef90412ebc56ca0\
        c2260ec531a14462cfc0c11de61d84292ddf8ca871da1ff1\n",
        "",
    ),
    (
        SIX,
        "measure FILE --platform 4",
        Status::Platform,
        "",
        "igvm: no digest for sev\n",
    ),
    (
        SIX,
        "measure FILE --platform 5",
        Status::Platform,
        "",
        "igvm: no digest for sev_es\n",
    ),
    (
        SIX,
        "measure FILE --platform 6",
        Status::Platform,
        "",
        "igvm: no platform 6\n",
    ),
];

#[test]
fn chooses_a_platform(rt: HostRuntime) -> Result<(), Fail> {
    for (image, text, status, out, err) in &CHOICES {
        let words = words_of(rt.alloc(), text)?;
        let mut shelf = shelf_of(rt.alloc(), &hex::decode(rt.alloc(), image)?)?;
        must_run(
            &rt,
            text,
            rt.alloc(),
            &words,
            &mut shelf,
            (*status, out, err),
        );
    }
    Ok(())
}
