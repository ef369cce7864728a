//! Images whose pages have bytes in the file.
use super::{must_run, shelf_of, words_of};
use crate::status::Status;
use igvm_outside::MadeShelf;
use std::alloc::Global;
use std::test::Fail;

/// The headers of an image for SEV-SNP, TDX and a native machine. Behind them are 36,864 bytes of
/// pages and 4,096 of a context.
const MACHINE: &str = "4947564d010000001800000090020000a8a20000f268b76a\
        010000001000000001000000020201000000000000000000\
        010000001000000002000000000301000000000000000000\
        010000001000000004000000000001000000000000000000\
        010100001000000000000300000000000100000000000000\
        010300001000000000100000000000000000000000000000\
        010300001000000000100000000000000100000000000000\
        0c030000080000000000000000000000\
        07030000080000000000000000080000\
        0e030000080000000100000000000000\
        0503000018000000000000000000000007000000000000010000000000000000\
        0203000018000000000001000000000007000000a80200000000000000000000\
        0203000018000000001001000000000007000000a81200000000000000000000\
        0203000018000000002001000000000007000000a82200000000000000000000\
        0203000018000000003001000000000007000000a83200000000000000000000\
        0203000018000000004001000000000007000000a84200000000000000000000\
        0203000018000000005001000000000007000000a85200000000000000000000\
        0203000018000000006001000000000007000000a86200000000000000000000\
        0203000018000000007001000000000007000000a87200000000000000000000\
        0203000018000000008001000000000007000000a88200000000000000000000\
        020300001800000000e009000000000001000000000000000000000001000000\
        020300001800000000f009000000000001000000000000000000000002000000\
        030300001000000000a00100000000000700000000000000\
        030300001000000000b00100000000000700000001000000\
        040300001400000000f0ffffffff000001000000a89200000000000000000000";

const LISTING: &str = "\
igvm version 1 section 24 656 total 41640 headers 24
0 at 24 platform 0 mask 00000001 kind snp vtl 2 version 1 shared 0000000000000000
1 at 48 platform 1 mask 00000002 kind tdx vtl 0 version 1 shared 0000000000000000
2 at 72 platform 2 mask 00000004 kind native vtl 0 version 1 shared 0000000000000000
3 at 96 policy mask 00000001 value 0000000000030000
4 at 120 area 0 bytes 4096 from 0
5 at 144 area 1 bytes 4096 from 0
6 at 168 param memory_map area 0 offset 0
7 at 184 param vp_count area 0 offset 2048
8 at 200 param command_line area 1 offset 0
9 at 216 required gpa 0000000000000000 mask 00000007 bytes 16777216 flags 00000000
10 at 248 page gpa 0000000000010000 mask 00000007 from 680 size 4096 measured normal
11 at 280 page gpa 0000000000011000 mask 00000007 from 4776 size 4096 measured normal
12 at 312 page gpa 0000000000012000 mask 00000007 from 8872 size 4096 measured normal
13 at 344 page gpa 0000000000013000 mask 00000007 from 12968 size 4096 measured normal
14 at 376 page gpa 0000000000014000 mask 00000007 from 17064 size 4096 measured normal
15 at 408 page gpa 0000000000015000 mask 00000007 from 21160 size 4096 measured normal
16 at 440 page gpa 0000000000016000 mask 00000007 from 25256 size 4096 measured normal
17 at 472 page gpa 0000000000017000 mask 00000007 from 29352 size 4096 measured normal
18 at 504 page gpa 0000000000018000 mask 00000007 from 33448 size 4096 measured normal
19 at 536 page gpa 000000000009e000 mask 00000001 from 0 size 4096 measured secrets
20 at 568 page gpa 000000000009f000 mask 00000001 from 0 size 4096 measured cpuid
21 at 600 insert gpa 000000000001a000 mask 00000007 area 0
22 at 624 insert gpa 000000000001b000 mask 00000007 area 1
23 at 648 context gpa 0000fffffffff000 mask 00000001 from 37544 vp 0
";

/// The bytes of the pages are the numbers 0 to 4,607 in 8 bytes each.
pub fn machine(alloc: Global) -> Result<Vec<u8>, Fail> {
    let mut file = hex::decode(alloc, MACHINE)?;
    for number in 0u64..4608 {
        file.extend_from_slice(&number.to_le_bytes())?;
    }
    file.resize(39_192, 0x5A)?;
    file.resize(41_640, 0)?;
    Ok(file)
}

#[test]
fn an_image_for_three_machines(rt: HostRuntime) -> Result<(), Fail> {
    let inner = shelf_of(rt.alloc(), &machine(rt.alloc())?)?;
    let mut shelf = MadeShelf::new(inner);
    for (text, status, out, err) in [
        ("print FILE", Status::Done, LISTING, ""),
        (
            "measure FILE --platform snp",
            Status::Done,
            "\
        f44bcabc429e93acfb438c150f57ae2ca0f6a9b4ca00947e\
        0d086b9d188d67abb08d321e57342e2c59e6bf6b80d0f09c\n",
            "",
        ),
        (
            "measure FILE --platform tdx",
            Status::Done,
            "\
        394de9dd4cc3985558958133d6c96ad1ce3ab8f3cad9ca8f\
        64ff64d238621776e3b01051867dae6e2181843c51792dfa\n",
            "",
        ),
        (
            "measure FILE --platform 2",
            Status::Platform,
            "",
            "igvm: no digest for native\n",
        ),
    ] {
        let words = words_of(rt.alloc(), text)?;
        must_run(
            &rt,
            text,
            rt.alloc(),
            &words,
            &mut shelf,
            (status, out, err),
        );
    }
    Ok(())
}

/// What an image is, its headers, and its digest. Its page has the bytes behind them.
static PAGES: [(&str, &str, &str); 4] = [
    (
        "a page on SEV-SNP",
        "4947564d0100000018000000380000005010000057d4b469\
        010000001000000001000000000201000000000000000000\
        0203000018000000001000000000000001000000500000000000000000000000",
        "\
        365a6280e51ac5d469aa1e2eeb474525be558ad6e9c85e87\
        cd8ae86f47a75f5d0b8b428d8d2857b75b80b8b7fe8e8f72\n",
    ),
    (
        "an unmeasured page on SEV-SNP",
        "4947564d010000001800000038000000501000002ad3912b\
        010000001000000001000000000201000000000000000000\
        0203000018000000001000000000000001000000500000000200000000000000",
        "\
        81475a112c0223cebe1ccb31a0aa2567772871200b33515a\
        3cbbd5ed6a68a8e630902dd83469ea6553554bfb67111fad\n",
    ),
    (
        "a page on TDX",
        "4947564d01000000180000003800000050100000ac22a72e\
        010000001000000001000000000301000000000000000000\
        0203000018000000001000000000000001000000500000000000000000000000",
        "\
        d4077ec125768765fe86c934568014956ba100933d8943a6\
        19370261fe041c2fb98346cff9df6c9acbd101241f0e668c\n",
    ),
    (
        "an unmeasured page on TDX",
        "4947564d01000000180000003800000050100000d125826c\
        010000001000000001000000000301000000000000000000\
        0203000018000000001000000000000001000000500000000200000000000000",
        "\
        fcdabf6fdf38b87d2e3a89b1ab68c242abb261dffa70ef6f\
        1dc2220c2752d2729cdf1be92afc2e0e4297f04e2b629552\n",
    ),
];

/// The bytes of the page are 0 to 250, again and again.
fn with_a_page(alloc: Global, headers: &str) -> Result<Vec<u8>, Fail> {
    let mut file = hex::decode(alloc, headers)?;
    for place in 0u16..4096 {
        file.push((place % 251) as u8)?;
    }
    Ok(file)
}

#[test]
fn pages_with_bytes(rt: HostRuntime) -> Result<(), Fail> {
    let words = words_of(rt.alloc(), "measure FILE --platform 0")?;
    for (name, headers, digest) in &PAGES {
        let mut shelf = shelf_of(rt.alloc(), &with_a_page(rt.alloc(), headers)?)?;
        must_run(
            &rt,
            name,
            rt.alloc(),
            &words,
            &mut shelf,
            (Status::Done, digest, ""),
        );
    }
    Ok(())
}
