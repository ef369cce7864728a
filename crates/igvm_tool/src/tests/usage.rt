//! The words.
use super::{must_run, words_of};
use igvm_jobs::Status;
use igvm_outside::MemShelf;
use igvm_words::Words;
use std::test::Fail;

const USAGE: &str = "\
usage: igvm build LIST OUT
       igvm print FILE
       igvm measure FILE --platform P [--native-zero]
       igvm load FILE HOST --platform P [--native-zero] [--image OUT]
       igvm make N OUT
       igvm sev-measure FILE --platform P
       igvm sev-load FILE HOST --platform P
       igvm vmsa-build JSON OUT
       igvm vmsa-print FILE
       igvm build-elf LIST ELF MASK OUT
       igvm strip FILE OUT --platform P
       igvm join FILE FILE OUT
       igvm seal FILE OUT --platform P [--native-zero]
P is snp, tdx or a platform number
P of sev-measure and sev-load is sev, sev_es or a platform number
";

/// Words that mean no job. The image would be accepted.
static OTHERS: [&str; 16] = [
    "measure FILE",
    "measure --platform snp FILE",
    "measure FILE --platform=snp",
    "measure FILE --platform 01",
    "load FILE HOST --platform snp --image OUT --native-zero",
    "sev-measure FILE --platform snp",
    "sev-measure FILE --platform sev --native-zero",
    "sev-load FILE --platform sev",
    "sev-load FILE HOST --platform tdx",
    "vmsa-build FILE",
    "vmsa-print FILE OUT",
    "build-elf LIST FILE OUT",
    "build-elf LIST FILE 01 OUT",
    "strip FILE OUT --platform sev",
    "join FILE FILE",
    "seal FILE --platform snp --native-zero",
];

const IMAGE: &str = "4947564d01000000180000001800000030000000e5d3ab67\
        010000001000000001000000000201000000000000000000";

const LISTING: &str = "\
igvm version 1 section 24 24 total 48 headers 1
0 at 24 platform 0 mask 00000001 kind snp vtl 0 version 1 shared 0000000000000000
";

#[test]
fn refuses_other_words(rt: HostRuntime) -> Result<(), Fail> {
    let want = (Status::Usage, "", USAGE);
    let mut shelf = MemShelf::new(rt.alloc());
    shelf.put_file("FILE", &hex::decode(rt.alloc(), IMAGE)?)?;
    must_run(
        &rt,
        "no word",
        rt.alloc(),
        &Words::new(rt.alloc()),
        &mut shelf,
        want,
    );
    for text in &OTHERS {
        let words = words_of(rt.alloc(), text)?;
        must_run(&rt, text, rt.alloc(), &words, &mut shelf, want);
    }
    let words = words_of(rt.alloc(), "print FILE")?;
    let want = (Status::Done, LISTING, "");
    must_run(&rt, "print", rt.alloc(), &words, &mut shelf, want);
    Ok(())
}

static CODES: [(Status, u8); 9] = [
    (Status::Done, 0),
    (Status::File, 1),
    (Status::Usage, 2),
    (Status::NotFit, 3),
    (Status::Outside, 4),
    (Status::Memory, 5),
    (Status::Platform, 6),
    (Status::Json, 7),
    (Status::Limit, 8),
];

#[test]
fn statuses_have_their_codes(rt: HostRuntime) {
    for (status, code) in &CODES {
        assert_eq!(rt; status.code(), *code);
    }
}
