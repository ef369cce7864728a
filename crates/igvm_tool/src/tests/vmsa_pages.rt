//! VMSA pages as texts, both ways. The bytes of pages are from the offsets of AMD's manual, by hand.
use super::{must_run, words_of};
use igvm_jobs::Status;
use igvm_outside::{MemShelf, read_all};
use std::test::Fail;

/// A text, where bytes stand in its page, their hexadecimal digits, and the text that is printed.
static TEXTS: [(&str, usize, &str, &str); 4] = [
    ("{}", 0, "0000000000000000", "{}"),
    (
        r#"{"rip":"0xfff0","cs":{"selector":61440,"attributes":155,"limit":65535,"base":"0xffff0000"}}"#,
        0x10,
        "00f09b00ffff00000000ffff00000000",
        r#"{"cs":{"attributes":155,"base":"0xffff0000","limit":65535,"selector":61440},"rip":"0xfff0"}"#,
    ),
    (
        r#"{"rip":"0xfff0"}"#,
        0x178,
        "f0ff000000000000",
        r#"{"rip":"0xfff0"}"#,
    ),
    (
        r#"{"other":[{"at":784,"byte":33}]}"#,
        784,
        "21",
        r#"{"other":[{"at":784,"byte":33}]}"#,
    ),
];

#[test]
fn builds_and_prints_pages(rt: HostRuntime) -> Result<(), Fail> {
    let build = words_of(rt.alloc(), "vmsa-build JSON OUT")?;
    let print = words_of(rt.alloc(), "vmsa-print OUT")?;
    let built = (Status::Done, "built 4096 bytes\n", "");
    for (text, at, digits, printed) in &TEXTS {
        let mut shelf = MemShelf::new(rt.alloc());
        shelf.put_file("JSON", text.as_bytes())?;
        must_run(&rt, text, rt.alloc(), &build, &mut shelf, built);
        let page = read_all(rt.alloc(), &mut shelf, "OUT", 4096)?;
        let bytes = hex::decode(rt.alloc(), digits)?;
        assert_eq!(rt; page.len(), 4096, "{text}");
        assert!(rt; page.as_slice()[*at..].starts_with(&bytes), "{text}");
        let want = (Status::Done, *printed, "");
        must_run(&rt, text, rt.alloc(), &print, &mut shelf, want);
    }
    Ok(())
}

/// A text, and the line that refuses it.
static REFUSED: [(&str, &str); 4] = [
    ("", "igvm: json refused\n"),
    ("[]", "igvm: json refused: vmsa 0\n"),
    (r#"{"rip":61440}"#, "igvm: json refused: vmsa 18\n"),
    (
        r#"{"other":[{"at":16,"byte":1}]}"#,
        "igvm: json refused: vmsa 24\n",
    ),
];

#[test]
fn refuses_texts(rt: HostRuntime) -> Result<(), Fail> {
    let build = words_of(rt.alloc(), "vmsa-build JSON OUT")?;
    for (text, line) in &REFUSED {
        let mut shelf = MemShelf::new(rt.alloc());
        shelf.put_file("JSON", text.as_bytes())?;
        let want = (Status::Json, "", *line);
        must_run(&rt, text, rt.alloc(), &build, &mut shelf, want);
    }
    Ok(())
}

#[test]
fn takes_pages_of_4096_bytes_at_most(rt: HostRuntime) -> Result<(), Fail> {
    let print = words_of(rt.alloc(), "vmsa-print FILE")?;
    for (size, want) in [
        (0, (Status::Done, "{}", "")),
        (4096, (Status::Done, "{}", "")),
        (4097, (Status::Limit, "", "igvm: limit: vmsa\n")),
    ] {
        let mut page = Vec::new(rt.alloc());
        page.resize(size, 0)?;
        let mut shelf = MemShelf::new(rt.alloc());
        shelf.put_file("FILE", page.as_slice())?;
        must_run(&rt, "print", rt.alloc(), &print, &mut shelf, want);
    }
    Ok(())
}
