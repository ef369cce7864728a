//! Texts, and how their pages are printed.
use super::{page_of, text_of};
use std::test::Fail;

/// The state behind a reset, as a host that launches a guest by SEV-SNP sets it up: RDX with the
/// processor's family, MXCSR and the x87 control word have no names.
const RESET: &str =
    r#"{"cr0":"0x10","cr4":"0x40","cs":{"attributes":155,"base":"0xffff0000","limit":65535,"selector":61440},"dr6":"0xffff0ff0","dr7":"0x400","ds":{"attributes":147,"base":"0x0","limit":65535,"selector":0},"efer":"0x1000","es":{"attributes":147,"base":"0x0","limit":65535,"selector":0},"fs":{"attributes":147,"base":"0x0","limit":65535,"selector":0},"g_pat":"0x7040600070406","gdtr":{"attributes":0,"base":"0x0","limit":65535,"selector":0},"gs":{"attributes":147,"base":"0x0","limit":65535,"selector":0},"idtr":{"attributes":0,"base":"0x0","limit":65535,"selector":0},"ldtr":{"attributes":130,"base":"0x0","limit":65535,"selector":0},"other":[{"at":784,"byte":18},{"at":785,"byte":15},{"at":786,"byte":128},{"at":1032,"byte":128},{"at":1033,"byte":31},{"at":1040,"byte":127},{"at":1041,"byte":3}],"rflags":"0x2","rip":"0xfff0","sev_features":"0x1","ss":{"attributes":147,"base":"0x0","limit":65535,"selector":0},"tr":{"attributes":139,"base":"0x0","limit":65535,"selector":0},"xcr0":"0x1"}"#;

/// A guest that starts in long mode.
const LONG_MODE: &str =
    r#"{"cr0":"0x80010033","cr3":"0x800000100000","cr4":"0x668","cs":{"attributes":2715,"base":"0x0","limit":4294967295,"selector":8},"dr6":"0xffff0ff0","dr7":"0x400","ds":{"attributes":3219,"base":"0x0","limit":4294967295,"selector":16},"efer":"0x1d01","es":{"attributes":3219,"base":"0x0","limit":4294967295,"selector":16},"g_pat":"0x70106","gdtr":{"attributes":0,"base":"0xffffffff80001000","limit":23,"selector":0},"rax":"0xffffffffffffffff","rflags":"0x2","rip":"0xffffffff80000000","rsp":"0xffffffff80010000","sev_features":"0x9","ss":{"attributes":3219,"base":"0x0","limit":4294967295,"selector":16},"xcr0":"0x1"}"#;

#[test]
fn texts_that_print_themselves(rt: HostRuntime) -> Result<(), Fail> {
    for text in [
        RESET,
        LONG_MODE,
        "{}",
        r#"{"other":[{"at":784,"byte":33}]}"#,
        r#"{"other":[{"at":160,"byte":1},{"at":207,"byte":1},{"at":216,"byte":1},{"at":4095,"byte":255}]}"#,
        r#"{"cs":{"attributes":0,"base":"0x0","limit":5,"selector":0}}"#,
        r#"{"tr":{"attributes":0,"base":"0xffffffffffffffff","limit":4294967295,"selector":65535}}"#,
    ] {
        let page = page_of(rt.alloc(), text)?;
        let back = text_of(rt.alloc(), &page)?;
        assert_eq!(rt; back.as_slice(), text.as_bytes(), "{text}");
    }
    Ok(())
}

// A text, and what is printed of its page.
#[test]
fn spellings_that_are_read(rt: HostRuntime) -> Result<(), Fail> {
    for (text, want) in [
        (
            r#" { "rip" : "0x000000000000ABCd" } "#,
            r#"{"rip":"0xabcd"}"#,
        ),
        (
            r#"{"rip":"0x0","cs":{},"ss":{"base":"0x00"},"other":[]}"#,
            "{}",
        ),
        (
            r#"{"cs":{"limit":5}}"#,
            r#"{"cs":{"attributes":0,"base":"0x0","limit":5,"selector":0}}"#,
        ),
        (r#"{"rip":null,"rip":"0x1"}"#, r#"{"rip":"0x1"}"#),
        (
            r#"{"other":[{"byte":1,"at":256},{"at":257,"byte":2,"at":258}]}"#,
            r#"{"other":[{"at":256,"byte":1},{"at":258,"byte":2}]}"#,
        ),
        (
            r#"{"xcr0":"0x1","tr":{"limit":1},"efer":"0x1","es":{"limit":1},"other":[{"at":200,"byte":1}],"rax":"0x1"}"#,
            r#"{"efer":"0x1","es":{"attributes":0,"base":"0x0","limit":1,"selector":0},"other":[{"at":200,"byte":1}],"rax":"0x1","tr":{"attributes":0,"base":"0x0","limit":1,"selector":0},"xcr0":"0x1"}"#,
        ),
    ] {
        let page = page_of(rt.alloc(), text)?;
        let back = text_of(rt.alloc(), &page)?;
        assert_eq!(rt; back.as_slice(), want.as_bytes(), "{text}");
    }
    Ok(())
}
