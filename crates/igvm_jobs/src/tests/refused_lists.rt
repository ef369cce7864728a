//! Lists of which nothing is built.
use super::{must_run, words_of};
use crate::status::Status;
use igvm_outside::{MadeShelf, MemShelf, ReadRefusal, read_all};
use std::test::Fail;

/// A list, the status, and what is said of it.
static LISTS: [(&str, Status, &str); 17] = [
    ("[", Status::Json, "igvm: json refused\n"),
    ("[]", Status::Json, "igvm: json refused: top 0\n"),
    (
        r#"{"platforms":[{"kind":"snp","mask":1},{"kind":"snp"}],"directives":[]}"#,
        Status::Json,
        "igvm: json refused: platforms 1\n",
    ),
    (
        r#"{"platforms":[],"policies":[{"mask":1,"policy":"0"}],"directives":[]}"#,
        Status::Json,
        "igvm: json refused: policies 0\n",
    ),
    (
        r#"{"platforms":[],"directives":[{"do":"load"}]}"#,
        Status::Json,
        "igvm: json refused: directives 0\n",
    ),
    (
        r#"{"platforms":[],"directives":[]}"#,
        Status::Json,
        "igvm: json refused: platforms 0: no platform\n",
    ),
    (
        r#"{"platforms":[{"kind":"snp","mask":1},{"kind":"snp","mask":1}],"directives":[]}"#,
        Status::Json,
        "igvm: json refused: platforms 1: mask\n",
    ),
    (
        r#"{"platforms":[{"kind":"snp","mask":1}],
        "directives":[{"do":"area","index":0,"bytes":4096,"file":"made-4097"}]}"#,
        Status::Json,
        "igvm: json refused: directives 0: length\n",
    ),
    (
        r#"{"platforms":[{"kind":"snp","mask":1}],
        "directives":[{"do":"zero","mask":1,"gpa":"0xfffffffffffff000","count":2}]}"#,
        Status::Json,
        "igvm: json refused: directives 0: address wraps\n",
    ),
    (
        r#"{"platforms":[{"kind":"snp","mask":1}],"directives":[
        {"do":"zero","mask":1,"gpa":"0x1000","count":1},
        {"do":"zero","mask":1,"gpa":"0x200000","count":8192,"large":true}]}"#,
        Status::Json,
        "igvm: json refused: directives 1: too many pages\n",
    ),
    (
        r#"{"platforms":[{"kind":"snp","mask":1}],"directives":[
        {"do":"zero","mask":1,"gpa":"0x200000","count":1,"kind":"cpuid","large":true}]}"#,
        Status::Json,
        "igvm: json refused: directives 0: data type\n",
    ),
    (
        r#"{"platforms":[{"kind":"snp","mask":1}],"directives":[
        {"do":"zero","mask":1,"gpa":"0x2000","count":2},
        {"do":"context","mask":1,"gpa":"0x1001","vp":0}]}"#,
        Status::Json,
        "igvm: json refused: directives 1: alignment\n",
    ),
    (
        r#"{"platforms":[{"kind":"snp","mask":1}],"directives":[
        {"do":"area","index":7,"bytes":4096},{"do":"area","index":7,"bytes":4096}]}"#,
        Status::Json,
        "igvm: json refused: directives 1: area repeated\n",
    ),
    (
        r#"{"platforms":[{"kind":"snp","mask":1}],
        "directives":[{"do":"param","kind":"slit","area":7,"offset":0}]}"#,
        Status::Json,
        "igvm: json refused: directives 0: area unknown\n",
    ),
    (
        r#"{"platforms":[{"kind":"snp","mask":1}],
        "directives":[{"do":"area","index":7,"bytes":4097}]}"#,
        Status::Json,
        "igvm: json refused: directives 0: area size\n",
    ),
    (
        r#"{"platforms":[{"kind":"snp","mask":1}],
        "directives":[{"do":"pages","mask":1,"gpa":"0x1000","file":"FILE"}]}"#,
        Status::Outside,
        "igvm: outside fault: shelf\n",
    ),
    (
        r#"{"platforms":[{"kind":"snp","mask":1}],
        "directives":[{"do":"area","index":0,"bytes":1073741825,"file":"made-0"}]}"#,
        Status::Limit,
        "igvm: limit: data\n",
    ),
];

#[test]
fn refuses_lists(rt: HostRuntime) -> Result<(), Fail> {
    let words = words_of(rt.alloc(), "build LIST OUT")?;
    for (list, status, text) in &LISTS {
        let mut inner = MemShelf::new(rt.alloc());
        inner.put_file("LIST", list.as_bytes())?;
        let mut shelf = MadeShelf::new(inner);
        let want = (*status, "", *text);
        must_run(&rt, list, rt.alloc(), &words, &mut shelf, want);
        let left = read_all(rt.alloc(), &mut shelf, "OUT", 0).err();
        assert_eq!(rt; left, Some(ReadRefusal::Failed), "{list}");
    }
    Ok(())
}

#[test]
fn refuses_long_and_missing_lists(rt: HostRuntime) -> Result<(), Fail> {
    let json = (Status::Json, "", "igvm: json refused\n");
    let limit = (Status::Limit, "", "igvm: limit: list\n");
    let outside = (Status::Outside, "", "igvm: outside fault: shelf\n");
    for (text, want) in [
        ("build made-16777216 OUT", json),
        ("build made-16777217 OUT", limit),
        ("build LIST OUT", outside),
    ] {
        let words = words_of(rt.alloc(), text)?;
        let mut shelf = MadeShelf::new(MemShelf::new(rt.alloc()));
        must_run(&rt, text, rt.alloc(), &words, &mut shelf, want);
    }
    Ok(())
}

// Lists of files that take seconds to read have tests of their own.
#[test]
fn builds_of_no_long_file(rt: HostRuntime) -> Result<(), Fail> {
    let list = r#"{"platforms":[{"kind":"snp","mask":1}],
        "directives":[{"do":"pages","mask":1,"gpa":"0x1000","file":"made-536870913"}]}"#;
    let mut inner = MemShelf::new(rt.alloc());
    inner.put_file("LIST", list.as_bytes())?;
    let words = words_of(rt.alloc(), "build LIST OUT")?;
    let want = (Status::Limit, "", "igvm: limit: blob\n");
    must_run(
        &rt,
        list,
        rt.alloc(),
        &words,
        &mut MadeShelf::new(inner),
        want,
    );
    Ok(())
}
