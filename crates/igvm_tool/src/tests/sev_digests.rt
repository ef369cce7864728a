//! SEV and SEV-ES digests, as Python's hashlib has them of the bytes that count.
use super::{must_run, words_of};
use igvm_jobs::Status;
use igvm_outside::MemShelf;
use std::test::Fail;

/// One SEV platform, and nothing else.
pub(super) const SEV: &str = "4947564d01000000180000001800000030000000a6191e8f\
        010000001000000001000000000401000000000000000000";

/// A SEV, a SEV-ES and a SEV-SNP platform of masks 1, 2 and 4; a page and a context of zeros, of mask 3.
pub(super) const PAGE_AND_CONTEXT: &str = "4947564d010000001800000088000000a0000000f25bad15\
        010000001000000001000000000401000000000000000000\
        010000001000000002000000000501000000000000000000\
        010000001000000004000000000201000000000000000000\
        0203000018000000001000000000000003000000000000000000000000000000\
        040300001400000000f0ffffffff0000030000000000000000000000\
        00000000";

/// An image, the word of a platform, the status, and both outputs.
static ANSWERS: [(&str, &str, Status, &str, &str); 8] = [
    (
        SEV,
        "sev",
        Status::Done,
        "e3b0c44298fc1c149afbf4c8996fb92427ae41e4649b934ca495991b7852b855\n",
        "",
    ),
    (
        SEV,
        "0",
        Status::Done,
        "e3b0c44298fc1c149afbf4c8996fb92427ae41e4649b934ca495991b7852b855\n",
        "",
    ),
    (
        SEV,
        "sev_es",
        Status::Platform,
        "",
        "igvm: no platform sev_es\n",
    ),
    (SEV, "1", Status::Platform, "", "igvm: no platform 1\n"),
    (
        PAGE_AND_CONTEXT,
        "sev",
        Status::Done,
        "ad7facb2586fc6e966c004d7d1d16b024f5805ff7cb47c7a85dabd8b48892ca7\n",
        "",
    ),
    (
        PAGE_AND_CONTEXT,
        "sev_es",
        Status::Done,
        "9f1dcbc35c350d6027f98be0f5c8b43b42ca52b7604459c0c42be3aa88913d47\n",
        "",
    ),
    (
        PAGE_AND_CONTEXT,
        "2",
        Status::Platform,
        "",
        "igvm: no digest for snp\n",
    ),
    (
        "4947",
        "sev",
        Status::File,
        "",
        "igvm: file refused at 2: too short\n",
    ),
];

#[test]
fn measures_sev_platforms(rt: HostRuntime) -> Result<(), Fail> {
    for (image, platform, status, out, err) in &ANSWERS {
        let mut words = words_of(rt.alloc(), "sev-measure FILE --platform")?;
        words.push(platform)?;
        let mut shelf = MemShelf::new(rt.alloc());
        shelf.put_file("FILE", &hex::decode(rt.alloc(), image)?)?;
        let want = (*status, *out, *err);
        must_run(&rt, platform, rt.alloc(), &words, &mut shelf, want);
    }
    Ok(())
}
