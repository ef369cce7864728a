//! Images launched on hosts as SEV and SEV-ES guests: what is put, what the machine holds then, and each
//! of its commands failing in turn. Digests are from Python's hashlib, checksums from its zlib.
use super::sev_digests::{PAGE_AND_CONTEXT, SEV};
use super::words_of;
use crate::running::run_all;
use igvm_jobs::Status;
use igvm_outside::{MemShelf, MemSink};
use launch_platform::{Launch, MemLaunch, Phase};
use sev_platform::{FailingSevLaunch, SevLaunch, SevMemLaunch};
use std::alloc::Global;
use std::test::Fail;

/// A SEV, a SEV-ES and a SEV-SNP platform of masks 1, 2 and 4. For the first two an area with a command
/// line at its third byte, a page of the bytes from 24 on, the same unmeasured, and the area's page; for
/// SEV-ES a context of the bytes from 48 on. Zeros follow up to 8,192 bytes.
const GUEST: &str = "4947564d0100000018000000e800000000200000c4987caa\
        010000001000000001000000000401000000000000000000\
        010000001000000002000000000501000000000000000000\
        010000001000000004000000000201000000000000000000\
        010300001000000000100000000000000000000000000000\
        0e030000080000000000000002000000\
        0203000018000000001000000000000003000000180000000000000000000000\
        0203000018000000002000000000000003000000180000000200000000000000\
        030300001000000000300000000000000300000000000000\
        040300001400000000f0ffffffff000002000000300000000100000000000000";

/// The same platforms, and a page of secrets.
const SECRETS: &str = "4947564d01000000180000006800000080000000839c5227\
        010000001000000001000000000401000000000000000000\
        010000001000000002000000000501000000000000000000\
        010000001000000004000000000201000000000000000000\
        0203000018000000001000000000000003000000000000000000000001000000";

/// The same platforms, and three pages, the last at the address of the first.
const TWICE: &str = "4947564d0100000018000000a8000000c0000000846919b8\
        010000001000000001000000000401000000000000000000\
        010000001000000002000000000501000000000000000000\
        010000001000000004000000000201000000000000000000\
        0203000018000000001000000000000003000000000000000000000000000000\
        0203000018000000002000000000000003000000000000000000000000000000\
        0203000018000000001000000000000003000000000000000000000000000000";

/// 256 MB and a command line.
const VALUES: &str = r#"{"memory":[{"start":"0x0","bytes":"0x10000000"}],
    "values":{"command_line":"61626364"}}"#;

/// Two pages of memory.
const LOW: &str = r#"{"memory":[{"start":"0x0","bytes":"0x2000"}]}"#;

const ON_SEV: &str = "loaded 3 pages, 0 contexts\n\
    digest 18382d8f47001d04ebdeef3b345ff72cac3c430557232776ef71099a5af2146a\n";

const ON_SEV_ES: &str = "loaded 3 pages, 1 contexts\n\
    digest d1c60bde6703eece2c9e0ca3cae2f29de8bd9f7ad39d32b18d2d18be0695916f\n";

/// An image, the word of a platform, HOST, the status, and both outputs.
static LOADS: [(&str, &str, &str, Status, &str, &str); 17] = [
    (GUEST, "sev", VALUES, Status::Done, ON_SEV, ""),
    (GUEST, "sev_es", VALUES, Status::Done, ON_SEV_ES, ""),
    (GUEST, "0", VALUES, Status::Done, ON_SEV, ""),
    (GUEST, "1", VALUES, Status::Done, ON_SEV_ES, ""),
    (
        SEV,
        "sev",
        LOW,
        Status::Done,
        "loaded 0 pages, 0 contexts\n\
        digest e3b0c44298fc1c149afbf4c8996fb92427ae41e4649b934ca495991b7852b855\n",
        "",
    ),
    (
        PAGE_AND_CONTEXT,
        "sev_es",
        LOW,
        Status::Done,
        "loaded 1 pages, 1 contexts\n\
        digest 9f1dcbc35c350d6027f98be0f5c8b43b42ca52b7604459c0c42be3aa88913d47\n",
        "",
    ),
    (
        PAGE_AND_CONTEXT,
        "sev",
        LOW,
        Status::NotFit,
        "does not fit: header 4: context not here\n",
        "",
    ),
    (
        SECRETS,
        "sev_es",
        LOW,
        Status::NotFit,
        "does not fit: header 3: type not here\n",
        "",
    ),
    (
        TWICE,
        "sev",
        VALUES,
        Status::NotFit,
        "does not fit: header 5: repeated\n",
        "",
    ),
    (
        TWICE,
        "sev_es",
        LOW,
        Status::NotFit,
        "does not fit: header 4: outside\n",
        "",
    ),
    (
        GUEST,
        "2",
        VALUES,
        Status::Platform,
        "",
        "igvm: no digest for snp\n",
    ),
    (
        GUEST,
        "3",
        VALUES,
        Status::Platform,
        "",
        "igvm: no platform 3\n",
    ),
    (
        SEV,
        "sev_es",
        VALUES,
        Status::Platform,
        "",
        "igvm: no platform sev_es\n",
    ),
    (
        "4947",
        "sev",
        VALUES,
        Status::File,
        "",
        "igvm: file refused at 2: too short\n",
    ),
    (GUEST, "sev", "[", Status::Json, "", "igvm: json refused\n"),
    (
        GUEST,
        "sev",
        "[]",
        Status::Json,
        "",
        "igvm: json refused: top 0\n",
    ),
    // FILE is judged before HOST.
    (
        GUEST,
        "2",
        "[",
        Status::Platform,
        "",
        "igvm: no digest for snp\n",
    ),
];

/// What a load left.
#[derive(Drop)]
struct Left {
    status: Status,
    out: MemSink,
    err: MemSink,
    phase: Phase,
    sev: FailingSevLaunch,
}

/// The file of an image: GUEST has zeros behind it.
fn file_of(alloc: Global, image: &str) -> Result<Vec<u8>, Fail> {
    let mut file = hex::decode(alloc, image)?;
    if file.len() == 256 {
        file.resize(8192, 0)?;
    }
    Ok(file)
}

/// A load whose command of this number fails; 0 is none.
fn left_by(
    alloc: Global,
    image: &str,
    platform: &str,
    host: &str,
    failing: u64,
) -> Result<Left, Fail> {
    let mut words = words_of(alloc, "sev-load FILE HOST --platform")?;
    words.push(platform)?;
    let mut shelf = MemShelf::new(alloc);
    shelf.put_file("FILE", file_of(alloc, image)?.as_slice())?;
    shelf.put_file("HOST", host.as_bytes())?;
    let mut out = MemSink::new(alloc);
    let mut err = MemSink::new(alloc);
    let mut machine = MemLaunch::new(alloc);
    let mut calls = Vec::new(alloc);
    calls.push(failing)?;
    let mut sev = FailingSevLaunch::new(SevMemLaunch::new(alloc), calls);
    let status = run_all(
        alloc,
        &words,
        &mut shelf,
        &mut out,
        &mut err,
        &mut machine,
        &mut sev,
    );
    let phase = machine.phase();
    Ok(Left {
        status,
        out,
        err,
        phase,
        sev,
    })
}

#[test]
fn loads_sev_guests(rt: HostRuntime) -> Result<(), Fail> {
    for (image, platform, host, status, out, err) in &LOADS {
        let left = left_by(rt.alloc(), image, platform, host, 0)?;
        assert_eq!(rt; left.status, *status, "{platform}, {out}{err}");
        assert_eq!(rt; left.out.bytes(), out.as_bytes(), "{platform}, {err}");
        assert_eq!(rt; left.err.bytes(), err.as_bytes(), "{platform}, {out}");
        assert_eq!(rt; left.phase, Phase::Idle, "{platform}, {out}{err}");
        let phase = if *status == Status::Done {
            Phase::Done
        } else {
            Phase::Idle
        };
        assert_eq!(rt; left.sev.phase(), phase, "{platform}, {out}{err}");
    }
    Ok(())
}

#[test]
fn the_machine_holds_the_guest(rt: HostRuntime) -> Result<(), Fail> {
    let file = file_of(rt.alloc(), GUEST)?;
    let left = left_by(rt.alloc(), GUEST, "sev_es", VALUES, 0)?;
    let mut area = [0; 4096];
    area[2..6].copy_from_slice(b"abcd");
    let pages = [
        (0x1000, file.as_slice().get(24..4120), true),
        (0x2000, file.as_slice().get(24..4120), false),
        (0x3000, Some(area.as_slice()), false),
    ];
    for (k, (gpa, page, measured)) in pages.iter().enumerate() {
        let entry = left.sev.entry(k as u32).ok_or("no entry")?;
        assert_eq!(rt; entry.gpa, *gpa);
        assert_eq!(rt; Some(entry.page), *page);
        assert_eq!(rt; entry.measured, *measured);
    }
    assert_eq!(rt; left.sev.entries(), 3);
    let context = left.sev.context_at(0).ok_or("no context")?;
    assert_eq!(rt; (context.vp, context.gpa), (1, 0xFFFF_FFFF_F000));
    assert_eq!(rt; Some(context.page), file.as_slice().get(48..4144));
    assert_eq!(rt; left.sev.contexts(), 1);
    Ok(())
}

/// The phase of a machine, how many pages it holds, whether the last is measured, and how many contexts.
type Standing = (Phase, u32, Option<bool>, u32);

fn standing(sev: &FailingSevLaunch) -> Standing {
    let last = sev.entries().checked_sub(1);
    let measured = last.and_then(|k| sev.entry(k)).map(|entry| entry.measured);
    (sev.phase(), sev.entries(), measured, sev.contexts())
}

/// The command that fails, and how the machine stands then.
static STOPS: [(u64, Standing); 7] = [
    (1, (Phase::Idle, 0, None, 0)),
    (2, (Phase::Loading, 0, None, 0)),
    (3, (Phase::Loading, 1, Some(false), 0)),
    (4, (Phase::Loading, 1, Some(true), 0)),
    (5, (Phase::Loading, 2, Some(false), 0)),
    (6, (Phase::Loading, 3, Some(false), 0)),
    (7, (Phase::Loading, 3, Some(false), 1)),
];

#[test]
fn each_command_may_fail(rt: HostRuntime) -> Result<(), Fail> {
    for (call, want) in &STOPS {
        let left = left_by(rt.alloc(), GUEST, "sev_es", VALUES, *call)?;
        assert_eq!(rt; left.status, Status::Outside, "{call}");
        let line = "igvm: outside fault: machine\n";
        assert_eq!(rt; left.err.bytes(), line.as_bytes(), "{call}");
        assert!(rt; left.out.bytes().is_empty(), "{call}");
        assert_eq!(rt; standing(&left.sev), *want, "{call}");
    }
    let left = left_by(rt.alloc(), GUEST, "sev_es", VALUES, 8)?;
    assert_eq!(rt; left.status, Status::Done);
    assert_eq!(rt; standing(&left.sev), (Phase::Done, 3, Some(false), 1));
    Ok(())
}
