//! Images launched on hosts: what is put, and what is refused. Digests are from Python's `hashlib`.
use super::load_images::{
    AREA, CONTEXT, EMPTY, LONG, NATIVE, PAGE, SECRETS, TDX_PAGE, TDX_SECRETS, TWO,
};
use super::page_bytes::machine;
use super::{must_run, shelf_of, words_of};
use crate::status::Status;
use igvm_outside::{MadeShelf, MemShelf};
use std::alloc::Global;
use std::test::Fail;

/// 256 MB of memory.
pub const MEMORY: &str = r#"{"memory":[{"start":"0x0","bytes":"0x10000000"}]}"#;

/// Two pages of memory.
const LOW: &str = r#"{"memory":[{"start":"0x0","bytes":"0x2000"}]}"#;

/// 256 MB and some values.
pub const VALUES: &str = r#"{"memory":[{"start":"0x0","bytes":"0x10000000"}],
    "values":{"command_line":"61626364","madt":"5859","vp_count":"04000000"},
    "secrets":"01","cpuid":"03"}"#;

/// 256 MB and other values.
const OTHERS: &str = r#"{"memory":[{"start":"0x0","bytes":"0x10000000"}],
    "values":{"command_line":"62"},"secrets":"02","cpuid":"04"}"#;

/// The words behind `--platform`, FILE, HOST, the status, and what stands on both outputs.
static LOADS: [(&str, &str, &str, Status, &str, &str); 22] = [
    (
        "snp",
        EMPTY,
        MEMORY,
        Status::Done,
        "loaded 0 pages, 0 contexts\n\
        digest 000000000000000000000000000000000000000000000000000000000000000000000000000000000000000000000000\n",
        "",
    ),
    (
        "snp",
        PAGE,
        MEMORY,
        Status::Done,
        "loaded 1 pages, 0 contexts\n\
        digest e6e4d78904d9d6b33c0cbfd121998fd2d11744dae606b3aee35e2a45d6869b60b35c63928a9232bef72d6be386f48ec6\n",
        "",
    ),
    (
        "0 --native-zero",
        PAGE,
        MEMORY,
        Status::Done,
        "loaded 1 pages, 0 contexts\n\
        digest 4bd4147976a1e7554c1c778a781affc1c672f1965a727ba16084989b7e356044a28bbe585a2f75dac9356fa5ab78f061\n",
        "",
    ),
    (
        "tdx",
        TDX_PAGE,
        MEMORY,
        Status::Done,
        "loaded 1 pages, 0 contexts\n\
        digest ca76d5541328afef8bc9364261c515aebef90412ebc56ca0c2260ec531a14462cfc0c11de61d84292ddf8ca871da1ff1\n",
        "",
    ),
    (
        "0",
        TWO,
        MEMORY,
        Status::NotFit,
        "does not fit: header 3: repeated\n",
        "",
    ),
    (
        "1",
        TWO,
        MEMORY,
        Status::Done,
        "loaded 1 pages, 0 contexts\n\
        digest e6e4d78904d9d6b33c0cbfd121998fd2d11744dae606b3aee35e2a45d6869b60b35c63928a9232bef72d6be386f48ec6\n",
        "",
    ),
    (
        "snp",
        CONTEXT,
        MEMORY,
        Status::Done,
        "loaded 0 pages, 1 contexts\n\
        digest f4577da9b848673216afc3909e5ea7aa80150dda441526874cd2b0282894709b46484c13a07221aefbedfff667199259\n",
        "",
    ),
    (
        "tdx",
        CONTEXT,
        MEMORY,
        Status::NotFit,
        "does not fit: header 2: context not here\n",
        "",
    ),
    (
        "tdx",
        TDX_SECRETS,
        MEMORY,
        Status::NotFit,
        "does not fit: header 1: type not here\n",
        "",
    ),
    (
        "snp",
        AREA,
        VALUES,
        Status::Done,
        "loaded 1 pages, 0 contexts\n\
        digest b447cc4fc9a763d65d1f5d666b47406ca85098284384a4f725ea6cb23a2dd1ad1ac10fa661abd5ac5f7d7d07a7c6d716\n",
        "",
    ),
    (
        "snp",
        LONG,
        VALUES,
        Status::NotFit,
        "does not fit: header 2: value too long\n",
        "",
    ),
    (
        "snp",
        SECRETS,
        VALUES,
        Status::Done,
        "loaded 4 pages, 0 contexts\n\
        digest 07ac13ed039fd3047e72cf995324fcd9e2601e7e30dd8caddf108ff4b9db58612835602d17f7b8888a7f1a859dd413ce\n",
        "",
    ),
    (
        "snp",
        SECRETS,
        OTHERS,
        Status::Done,
        "loaded 4 pages, 0 contexts\n\
        digest 07ac13ed039fd3047e72cf995324fcd9e2601e7e30dd8caddf108ff4b9db58612835602d17f7b8888a7f1a859dd413ce\n",
        "",
    ),
    (
        "snp",
        AREA,
        LOW,
        Status::NotFit,
        "does not fit: header 4: outside\n",
        "",
    ),
    (
        "tdx",
        PAGE,
        "[",
        Status::Platform,
        "",
        "igvm: no platform tdx\n",
    ),
    (
        "0",
        NATIVE,
        "[",
        Status::Platform,
        "",
        "igvm: no digest for native\n",
    ),
    ("snp", PAGE, "[", Status::Json, "", "igvm: json refused\n"),
    (
        "snp",
        PAGE,
        "{}",
        Status::Json,
        "",
        "igvm: json refused: top 0\n",
    ),
    (
        "snp",
        PAGE,
        r#"{"memory":[{"start":"0x0","bytes":"0x10"}]}"#,
        Status::Json,
        "",
        "igvm: json refused: memory 0\n",
    ),
    (
        "snp",
        PAGE,
        r#"{"memory":[{"start":"0x0","bytes":"0x1000"}],"values":{"madt":"0"}}"#,
        Status::Json,
        "",
        "igvm: json refused: values 2\n",
    ),
    (
        "snp",
        PAGE,
        r#"{"memory":[{"start":"0x0","bytes":"0x1000"}],"secrets":0}"#,
        Status::Json,
        "",
        "igvm: json refused: secrets 0\n",
    ),
    (
        "snp",
        PAGE,
        r#"{"memory":[{"start":"0x0","bytes":"0x1000"}],"cpuid":0}"#,
        Status::Json,
        "",
        "igvm: json refused: cpuid 0\n",
    ),
];

#[test]
fn loads_images(rt: HostRuntime) -> Result<(), Fail> {
    for (asked, image, host, status, out, err) in &LOADS {
        let text = format!(in rt.alloc(); "load FILE HOST --platform {asked}")?;
        let words = words_of(rt.alloc(), text.as_str())?;
        let mut shelf = MemShelf::new(rt.alloc());
        shelf.put_file("FILE", &hex::decode(rt.alloc(), image)?)?;
        shelf.put_file("HOST", host.as_bytes())?;
        let want = (*status, *out, *err);
        must_run(&rt, text.as_str(), rt.alloc(), &words, &mut shelf, want);
    }
    Ok(())
}

/// The words behind `--platform`, and what is put, of the image for three machines.
static MACHINES: [(&str, &str); 2] = [
    (
        "snp",
        "loaded 13 pages, 1 contexts\n\
        digest f44bcabc429e93acfb438c150f57ae2ca0f6a9b4ca00947e0d086b9d188d67abb08d321e57342e2c59e6bf6b80d0f09c\n",
    ),
    (
        "tdx",
        "loaded 11 pages, 0 contexts\n\
        digest 394de9dd4cc3985558958133d6c96ad1ce3ab8f3cad9ca8f64ff64d238621776e3b01051867dae6e2181843c51792dfa\n",
    ),
];

#[test]
fn loads_the_image_for_three_machines(rt: HostRuntime) -> Result<(), Fail> {
    let mut shelf = shelf_of(rt.alloc(), &machine(rt.alloc())?)?;
    shelf.put_file("HOST", MEMORY.as_bytes())?;
    for (asked, loaded) in &MACHINES {
        let text = format!(in rt.alloc(); "load FILE HOST --platform {asked}")?;
        let words = words_of(rt.alloc(), text.as_str())?;
        let want = (Status::Done, *loaded, "");
        must_run(&rt, asked, rt.alloc(), &words, &mut shelf, want);
    }
    Ok(())
}

/// A page at 0x1000 and an ID block, up to the launch digest that it wants, which is the page's.
const WANTS_PLAIN: &str =
    "4947564d0100000018000000f8020000100300001177138701000000100000000100000000020100\
        00000000000000000203000018000000001000000000000001000000000000000000000000000000\
        0b030000b80200000100000000000000";

/// The same, where it wants that of the page as a ZERO page.
const WANTS_ZERO: &str =
    "4947564d0100000018000000f8020000100300001368b7bb01000000100000000100000000020100\
        00000000000000000203000018000000001000000000000001000000000000000000000000000000\
        0b030000b80200000100000000000000";

/// The digest of the page.
const PLAIN: &str =
    "e6e4d78904d9d6b33c0cbfd121998fd2d11744dae606b3aee35e2a45d6869b60b35c63928a9232bef72d6be386f48ec6";

/// Its digest as a ZERO page.
const ZERO: &str =
    "4bd4147976a1e7554c1c778a781affc1c672f1965a727ba16084989b7e356044a28bbe585a2f75dac9356fa5ab78f061";

/// The image up to what its ID block wants, that, the words, the status and what is put.
static JUDGED: [(&str, &str, &str, Status, &str); 4] = [
    (
        WANTS_PLAIN,
        PLAIN,
        "load FILE HOST --platform snp",
        Status::Done,
        "loaded 1 pages, 0 contexts\n\
        digest e6e4d78904d9d6b33c0cbfd121998fd2d11744dae606b3aee35e2a45d6869b60b35c63928a9232bef72d6be386f48ec6\n",
    ),
    (
        WANTS_PLAIN,
        PLAIN,
        "load FILE HOST --platform snp --native-zero",
        Status::NotFit,
        "does not fit: header 2: bad digest wanted \
        e6e4d78904d9d6b33c0cbfd121998fd2d11744dae606b3aee35e2a45d6869b60b35c63928a9232bef72d6be386f48ec6 \
        found 4bd4147976a1e7554c1c778a781affc1c672f1965a727ba16084989b7e356044a28bbe585a2f75dac9356fa5ab78f061\n",
    ),
    (
        WANTS_ZERO,
        ZERO,
        "load FILE HOST --platform snp",
        Status::NotFit,
        "does not fit: header 2: bad digest wanted \
        4bd4147976a1e7554c1c778a781affc1c672f1965a727ba16084989b7e356044a28bbe585a2f75dac9356fa5ab78f061 \
        found e6e4d78904d9d6b33c0cbfd121998fd2d11744dae606b3aee35e2a45d6869b60b35c63928a9232bef72d6be386f48ec6\n",
    ),
    (
        WANTS_ZERO,
        ZERO,
        "load FILE HOST --platform snp --native-zero",
        Status::Done,
        "loaded 1 pages, 0 contexts\n\
        digest 4bd4147976a1e7554c1c778a781affc1c672f1965a727ba16084989b7e356044a28bbe585a2f75dac9356fa5ab78f061\n",
    ),
];

/// The image of an ID block that wants a digest.
fn image_wanting(alloc: Global, front: &str, digest: &str) -> Result<Vec<u8>, Fail> {
    let mut file = hex::decode(alloc, front)?;
    file.extend_from_slice(&hex::decode(alloc, digest)?)?;
    file.resize(784, 0)?;
    Ok(file)
}

#[test]
fn judges_the_id_block(rt: HostRuntime) -> Result<(), Fail> {
    for (front, wanted, text, status, put) in &JUDGED {
        let words = words_of(rt.alloc(), text)?;
        let mut shelf = shelf_of(rt.alloc(), &image_wanting(rt.alloc(), front, wanted)?)?;
        shelf.put_file("HOST", MEMORY.as_bytes())?;
        must_run(
            &rt,
            text,
            rt.alloc(),
            &words,
            &mut shelf,
            (*status, *put, ""),
        );
    }
    Ok(())
}

#[test]
fn refuses_a_long_host(rt: HostRuntime) -> Result<(), Fail> {
    let mut shelf = MemShelf::new(rt.alloc());
    shelf.put_file("FILE", &hex::decode(rt.alloc(), PAGE)?)?;
    let mut shelf = MadeShelf::new(shelf);
    for (host, want) in [
        ("made-16777217", (Status::Limit, "", "igvm: limit: host\n")),
        ("made-1", (Status::Json, "", "igvm: json refused\n")),
    ] {
        let text = format!(in rt.alloc(); "load FILE {host} --platform snp")?;
        let words = words_of(rt.alloc(), text.as_str())?;
        must_run(&rt, host, rt.alloc(), &words, &mut shelf, want);
    }
    Ok(())
}
