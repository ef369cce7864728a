//! Images that are made, and their faults. Their sizes and digests are from a program in Python that lays out the
//! same lists and measures them with hashlib.
use super::load_faults::{Failing, Left, NONE, left_of};
use super::{must_run, words_of};
use crate::status::Status;
use igvm_outside::MemShelf;
use launch_platform::{Launch, Phase};
use std::alloc::Global;
use std::test::Fail;

/// How many pages are asked for, the size of the image, how many pages are loaded, and the digests on
/// SEV-SNP and TDX.
static IMAGES: [(u32, u32, u32, &str, &str); 2] = [
    (
        1,
        8_536,
        4,
        "\
        65aa482110e6a865e18e109bcfd994aa48d215886860ac62\
        bbf129295e3996f3d20211468bfad45888f498e39d8ad3b0",
        "\
        ffa98a4ee05b28c97d0dcf16330e3fd2ea88ad7fecdcf23b\
        5ccca76ae63187b243c7b790c7fd27140984bc9579d4a1a5",
    ),
    (
        4,
        20_920,
        7,
        "\
        82f4b87013574d7b3edc151a65a691f1fd4a5f0bbf7ef85f\
        0408b2fe6165a77706be346df147374b0ea1f2fc9a6b3689",
        "\
        09bfc49db03843f0ed26053aa1461413b977616cdb8ba844\
        80bfb29584beda6c14b26a365acc481567fe30d9e2bcdc41",
    ),
];

/// What is put of the image of some number of pages.
fn made_text(alloc: Global, image: &(u32, u32, u32, &str, &str)) -> Result<String, Fail> {
    let (count, size, loaded, snp, tdx) = image;
    Ok(format!(in alloc;
        "made {count} pages, {size} bytes\nsnp {snp} loaded {loaded} pages, 1 contexts\ntdx {tdx}\n"
    )?)
}

#[test]
fn makes_images(rt: HostRuntime) -> Result<(), Fail> {
    for image in &IMAGES {
        let (count, _, _, snp, tdx) = image;
        let mut shelf = MemShelf::new(rt.alloc());
        let asked = format!(in rt.alloc(); "make {count} OUT")?;
        let text = made_text(rt.alloc(), image)?;
        must_run(
            &rt,
            asked.as_str(),
            rt.alloc(),
            &words_of(rt.alloc(), asked.as_str())?,
            &mut shelf,
            (Status::Done, text.as_str(), ""),
        );
        for (platform, digest) in [("snp", snp), ("tdx", tdx)] {
            let asked = format!(in rt.alloc(); "measure OUT --platform {platform}")?;
            let line = format!(in rt.alloc(); "{digest}\n")?;
            must_run(
                &rt,
                asked.as_str(),
                rt.alloc(),
                &words_of(rt.alloc(), asked.as_str())?,
                &mut shelf,
                (Status::Done, line.as_str(), ""),
            );
        }
    }
    Ok(())
}

/// What is left of `make 1 OUT`, over a shelf without a file.
fn left_by(alloc: Global, failing: Failing) -> Result<Left, Fail> {
    let words = words_of(alloc, "make 1 OUT")?;
    left_of(alloc, &words, MemShelf::new(alloc), failing)
}

// The launch is begun, four pages are placed and added, a context is added, and the launch is ended.
#[test]
fn each_command_may_fail(rt: HostRuntime) -> Result<(), Fail> {
    for call in 1u64..12 {
        let failing = Failing {
            machine: call,
            ..NONE
        };
        let left = left_by(rt.alloc(), failing)?;
        assert_eq!(rt; left.status, Status::Outside, "{call}");
        let machine = "igvm: outside fault: machine\n";
        assert_eq!(rt; left.err.bytes(), machine.as_bytes(), "{call}");
        assert!(rt; left.out.bytes().is_empty(), "{call}");
        let phase = if call == 1 {
            Phase::Idle
        } else {
            Phase::Loading
        };
        assert_eq!(rt; left.machine.phase(), phase, "{call}");
        let entries = u64::min((call - 1) / 2, 4) as u32;
        assert_eq!(rt; left.machine.entries(), entries, "{call}");
        assert_eq!(rt; left.machine.contexts(), u32::from(call == 11), "{call}");
        assert_eq!(rt; left.written.len(), 8_536, "{call}");
    }
    Ok(())
}

// OUT is created, takes 8,536 bytes in nine pieces and is closed.
#[test]
fn each_call_of_the_shelf_may_fail(rt: HostRuntime) -> Result<(), Fail> {
    let whole = left_by(rt.alloc(), NONE)?;
    assert_eq!(rt; whole.status, Status::Done);
    assert_eq!(rt; whole.written.len(), 8_536);
    for call in 1u64..12 {
        let failing = Failing {
            shelf: call,
            ..NONE
        };
        let left = left_by(rt.alloc(), failing)?;
        assert_eq!(rt; left.status, Status::Outside, "{call}");
        let shelf = "igvm: outside fault: shelf\n";
        assert_eq!(rt; left.err.bytes(), shelf.as_bytes(), "{call}");
        assert!(rt; left.out.bytes().is_empty(), "{call}");
        assert_eq!(rt; left.machine.phase(), Phase::Idle, "{call}");
        let front = left.written.as_slice();
        let moved = 1000 * (u64::max(call, 2) - 2) as usize;
        assert_eq!(rt; left.is_written, call > 1, "{call}");
        assert_eq!(rt; front.len(), usize::min(moved, 8_536), "{call}");
        assert!(rt; whole.written.as_slice().starts_with(front), "{call}");
    }
    Ok(())
}

#[test]
fn each_put_may_fail(rt: HostRuntime) -> Result<(), Fail> {
    let text = made_text(rt.alloc(), &IMAGES[0])?;
    let puts = text.len().div_ceil(8) as u64;
    for call in 1..puts + 1 {
        let failing = Failing { out: call, ..NONE };
        let left = left_by(rt.alloc(), failing)?;
        let put = left.out.bytes();
        assert_eq!(rt; left.status, Status::Outside, "{call}");
        assert!(rt; text.as_bytes().starts_with(put), "{call}");
        assert_eq!(rt; put.len() as u64, 8 * (call - 1), "{call}");
        let output = "igvm: outside fault: output\n";
        assert_eq!(rt; left.err.bytes(), output.as_bytes(), "{call}");
        assert_eq!(rt; left.machine.phase(), Phase::Done, "{call}");
        assert_eq!(rt; left.written.len(), 8_536, "{call}");
    }
    Ok(())
}
