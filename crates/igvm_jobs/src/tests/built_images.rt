//! Images that are built of lists. Their bytes are from a program in Python that lays out the same
//! lists, with zlib.
use super::page_bytes::machine;
use super::{failing_sink, must_run, run_with, shelf_of, words_of};
use crate::status::Status;
use igvm_outside::{MadeShelf, MemShelf, read_all};
use std::alloc::Global;
use std::test::Fail;

const PLATFORM: &str = r#"{"platforms":[{"kind":"snp","mask":1}],"directives":[]}"#;

const PLATFORM_IMAGE: &str = "4947564d01000000180000001800000030000000e5d3ab67\
        010000001000000001000000000201000000000000000000";

/// One platform, and the pages of FILE.
const PAGES: &str = r#"{"platforms":[{"kind":"snp","mask":1}],
    "directives":[{"do":"pages","mask":1,"gpa":"0x1000","file":"FILE"}]}"#;

/// The last page below 2^64.
const LAST_PAGE: &str = r#"{"platforms":[{"kind":"snp","mask":1}],
    "directives":[{"do":"zero","mask":1,"gpa":"0xfffffffffffff000","count":1}]}"#;

/// A list, how many bytes 0xAA are in FILE, what is put, and the image: its headers, and where its
/// bytes 0xAA and the zeros behind them end.
static IMAGES: [(&str, usize, &str, &str, (usize, usize)); 5] = [
    (PLATFORM, 0, "built 48 bytes\n", PLATFORM_IMAGE, (48, 48)),
    (
        PAGES,
        8192,
        "built 4208 bytes\n",
        "4947564d010000001800000058000000701000000000bb98\
        010000001000000001000000000201000000000000000000\
        0203000018000000001000000000000001000000700000000000000000000000\
        0203000018000000002000000000000001000000700000000000000000000000",
        (4208, 4208),
    ),
    (
        PAGES,
        4097,
        "built 8304 bytes\n",
        "4947564d0100000018000000580000007020000005cc839c\
        010000001000000001000000000201000000000000000000\
        0203000018000000001000000000000001000000700000000000000000000000\
        0203000018000000002000000000000001000000701000000000000000000000",
        (4209, 8304),
    ),
    (PAGES, 0, "built 48 bytes\n", PLATFORM_IMAGE, (48, 48)),
    (
        LAST_PAGE,
        0,
        "built 80 bytes\n",
        "4947564d0100000018000000380000005000000064b9058c\
        010000001000000001000000000201000000000000000000\
        020300001800000000f0ffffffffffff01000000000000000000000000000000",
        (80, 80),
    ),
];

/// The bytes that hexadecimal digits write, then bytes 0xAA and zeros up to these places.
fn filled(alloc: Global, front: &str, ends: (usize, usize)) -> Result<Vec<u8>, Fail> {
    let mut file = hex::decode(alloc, front)?;
    file.resize(ends.0, 0xAA)?;
    file.resize(ends.1, 0)?;
    Ok(file)
}

#[test]
fn builds_images(rt: HostRuntime) -> Result<(), Fail> {
    let words = words_of(rt.alloc(), "build LIST OUT")?;
    for (list, file, text, headers, ends) in &IMAGES {
        let mut shelf = shelf_of(rt.alloc(), &filled(rt.alloc(), "", (*file, *file))?)?;
        shelf.put_file("LIST", list.as_bytes())?;
        must_run(
            &rt,
            list,
            rt.alloc(),
            &words,
            &mut shelf,
            (Status::Done, text, ""),
        );
        let image = read_all(rt.alloc(), &mut shelf, "OUT", 8304)?;
        let wanted = filled(rt.alloc(), headers, *ends)?;
        assert_eq!(rt; image.as_slice(), wanted.as_slice(), "{list}, {file}");
    }
    Ok(())
}

/// The list of an image for SEV-SNP, TDX and a native machine.
const MACHINE: &str = r#"
{"platforms":[{"kind":"snp","mask":1,"vtl":2},{"kind":"tdx","mask":2},{"kind":"native","mask":4}],
 "policies":[{"mask":1,"policy":"0x30000"}],
 "directives":[
  {"do":"area","index":0,"bytes":4096},
  {"do":"area","index":1,"bytes":4096},
  {"do":"param","kind":"memory_map","area":0,"offset":0},
  {"do":"param","kind":"vp_count","area":0,"offset":2048},
  {"do":"param","kind":"command_line","area":1,"offset":0},
  {"do":"required","mask":7,"gpa":"0x0","bytes":16777216},
  {"do":"pages","mask":7,"gpa":"0x10000","file":"made-36864"},
  {"do":"zero","mask":1,"gpa":"0x9e000","count":1,"kind":"secrets"},
  {"do":"zero","mask":1,"gpa":"0x9f000","count":1,"kind":"cpuid"},
  {"do":"insert","mask":7,"gpa":"0x1a000","area":0},
  {"do":"insert","mask":7,"gpa":"0x1b000","area":1},
  {"do":"context","mask":1,"gpa":"0xfffffffff000","vp":0,"file":"FILE"}]}"#;

#[test]
fn builds_an_image_for_three_machines(rt: HostRuntime) -> Result<(), Fail> {
    let mut context = Vec::new(rt.alloc());
    context.resize(1648, 0x5A)?;
    let mut inner = shelf_of(rt.alloc(), &context)?;
    inner.put_file("LIST", MACHINE.as_bytes())?;
    let mut shelf = MadeShelf::new(inner);
    let words = words_of(rt.alloc(), "build LIST OUT")?;
    let want = (Status::Done, "built 41640 bytes\n", "");
    must_run(&rt, "build", rt.alloc(), &words, &mut shelf, want);
    let image = read_all(rt.alloc(), &mut shelf, "OUT", 41_640)?;
    assert_eq!(rt; image.as_slice(), machine(rt.alloc())?.as_slice());
    Ok(())
}

const SHELF: &str = "igvm: outside fault: shelf\n";

const OUTPUT: &str = "igvm: outside fault: output\n";

/// The calls of the shelf and of both outputs that fail, the status, what stands on both outputs,
/// and how many bytes are in OUT, where it is there. The shelf moves 16 bytes a call: the list is
/// opened and read to its end in calls 1 to 6, and OUT is created, written and closed in 7 to 11.
static FAULTS: [((u64, u64, u64), Status, &str, &str, Option<usize>); 14] = [
    ((0, 0, 1), Status::Done, "built 48 bytes\n", "", Some(48)),
    ((1, 0, 0), Status::Outside, "", SHELF, None),
    ((2, 0, 0), Status::Outside, "", SHELF, None),
    ((3, 0, 0), Status::Outside, "", SHELF, None),
    ((4, 0, 0), Status::Outside, "", SHELF, None),
    ((5, 0, 0), Status::Outside, "", SHELF, None),
    ((6, 0, 0), Status::Outside, "", SHELF, None),
    ((7, 0, 0), Status::Outside, "", SHELF, None),
    ((8, 0, 0), Status::Outside, "", SHELF, Some(0)),
    ((9, 0, 0), Status::Outside, "", SHELF, Some(16)),
    ((10, 0, 2), Status::Outside, "", "igvm: ou", Some(32)),
    ((11, 0, 0), Status::Outside, "", SHELF, Some(48)),
    ((0, 1, 0), Status::Outside, "", OUTPUT, Some(48)),
    ((0, 2, 0), Status::Outside, "built 48", OUTPUT, Some(48)),
];

#[test]
fn leaves_a_front_where_a_call_fails(rt: HostRuntime) -> Result<(), Fail> {
    let image = hex::decode(rt.alloc(), PLATFORM_IMAGE)?;
    let words = words_of(rt.alloc(), "build LIST OUT")?;
    for (calls, status, out, err, kept) in &FAULTS {
        let mut shelf = MemShelf::new(rt.alloc());
        shelf.put_file("LIST", PLATFORM.as_bytes())?;
        shelf.set_piece(16);
        shelf.fail_call(calls.0)?;
        let failing_out = failing_sink(rt.alloc(), 8, calls.1)?;
        let failing_err = failing_sink(rt.alloc(), 8, calls.2)?;
        let ran = run_with(rt.alloc(), &words, &mut shelf, failing_out, failing_err);
        assert_eq!(rt; ran.status, *status, "{calls:?}");
        assert_eq!(rt; ran.out.bytes(), out.as_bytes(), "{calls:?}");
        assert_eq!(rt; ran.err.bytes(), err.as_bytes(), "{calls:?}");
        match read_all(rt.alloc(), &mut shelf, "OUT", 48) {
            Ok(left) => {
                assert_eq!(rt; Some(left.len()), *kept, "{calls:?}");
                assert!(rt; image.as_slice().starts_with(left.as_slice()), "{calls:?}");
            }
            Err(_) => assert_eq!(rt; *kept, None, "{calls:?}"),
        }
    }
    Ok(())
}
