//! The option `--native-zero`: the file offset decides which pages are zero pages, and on TDX it has no
//! effect.
use super::{must_run, shelf_of, words_of};
use crate::status::Status;
use std::alloc::Global;
use std::test::Fail;

/// What an image is, its headers, how many zeros stand behind them, and its digest with the option.
static EXAMPLES: [(&str, &str, usize, &str); 6] = [
    (
        "a page without data",
        "4947564d010000001800000038000000500000005c30ae5e\
        010000001000000001000000000201000000000000000000\
        0203000018000000001000000000000001000000000000000000000000000000",
        0,
        "\
        4bd4147976a1e7554c1c778a781affc1c672f1965a727ba1\
        6084989b7e356044a28bbe585a2f75dac9356fa5ab78f061\n",
    ),
    (
        "a 2 MB page without data",
        "4947564d010000001800000038000000500000004d24e91b\
        010000001000000001000000000201000000000000000000\
        0203000018000000000020000000000001000000000000000100000000000000",
        0,
        "\
        486f227165b308e323ee24622225b050f2478d61d45cfca4\
        4fb031f4eabdbe6d8400a1afa6b5dfbcfceb70f317a47856\n",
    ),
    (
        "a page of zeros in the file",
        "4947564d0100000018000000380000005010000057d4b469\
        010000001000000001000000000201000000000000000000\
        0203000018000000001000000000000001000000500000000000000000000000",
        4096,
        "\
        e6e4d78904d9d6b33c0cbfd121998fd2d11744dae606b3ae\
        e35e2a45d6869b60b35c63928a9232bef72d6be386f48ec6\n",
    ),
    (
        "an unmeasured page",
        "4947564d0100000018000000380000005000000021378b1c\
        010000001000000001000000000201000000000000000000\
        0203000018000000001000000000000001000000000000000200000000000000",
        0,
        "\
        81475a112c0223cebe1ccb31a0aa2567772871200b33515a\
        3cbbd5ed6a68a8e630902dd83469ea6553554bfb67111fad\n",
    ),
    (
        "a secrets page",
        "4947564d01000000180000003800000050000000395712e6\
        010000001000000001000000000201000000000000000000\
        0203000018000000001000000000000001000000000000000000000001000000",
        0,
        "\
        ede71fa5ddc72c3de70c6ff1149b8ecb6ef08b74b1d3a72c\
        2cece10bd140c06a6181343d33def7db6cc0da1ff9ba4805\n",
    ),
    (
        "a page without data on TDX",
        "4947564d01000000180000003800000050000000a7c6bd19\
        010000001000000001000000000301000000000000000000\
        0203000018000000001000000000000001000000000000000000000000000000",
        0,
        "\
        ca76d5541328afef8bc9364261c515aebef90412ebc56ca0\
        c2260ec531a14462cfc0c11de61d84292ddf8ca871da1ff1\n",
    ),
];

/// An image's headers, with zeros behind them.
fn with_zeros(alloc: Global, headers: &str, zeros: usize) -> Result<Vec<u8>, Fail> {
    let mut file = hex::decode(alloc, headers)?;
    for _ in 0..zeros {
        file.push(0)?;
    }
    Ok(file)
}

#[test]
fn measures_zero_pages(rt: HostRuntime) -> Result<(), Fail> {
    let words = words_of(rt.alloc(), "measure FILE --platform 0 --native-zero")?;
    for (name, headers, zeros, digest) in &EXAMPLES {
        let mut shelf = shelf_of(rt.alloc(), &with_zeros(rt.alloc(), headers, *zeros)?)?;
        must_run(
            &rt,
            name,
            rt.alloc(),
            &words,
            &mut shelf,
            (Status::Done, digest, ""),
        );
    }
    Ok(())
}
