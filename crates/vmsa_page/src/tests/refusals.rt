//! Texts that are refused, and the place that is named.
use crate::{VmsaRefusal, read_vmsa_json};
use std::alloc::Global;
use std::test::Fail;

/// Why a text is refused.
fn refusal(alloc: Global, text: &str) -> Option<VmsaRefusal> {
    read_vmsa_json(alloc, text.as_bytes()).err()
}

#[test]
fn what_is_no_json(rt: HostRuntime) {
    for text in [
        "",
        "{",
        "{} {}",
        r#"{"rip":"0x0",}"#,
        "{'rip':0}",
        r#"{"rip":1e400,"rip":"0x0"}"#,
        r#"{"eip":"\ud800"}"#,
    ] {
        assert_eq!(rt;
            refusal(rt.alloc(), text),
            Some(VmsaRefusal::NotJson),
            "{text}"
        );
    }
    let latin = read_vmsa_json(rt.alloc(), b"{\"\xe9\":0}").err();
    assert_eq!(rt; latin, Some(VmsaRefusal::NotJson));
}

#[test]
fn each_field_by_its_place(rt: HostRuntime) -> Result<(), Fail> {
    for (name, place) in [
        ("es", 1),
        ("cs", 2),
        ("ss", 3),
        ("ds", 4),
        ("fs", 5),
        ("gs", 6),
        ("gdtr", 7),
        ("ldtr", 8),
        ("idtr", 9),
        ("tr", 10),
        ("efer", 11),
        ("cr4", 12),
        ("cr3", 13),
        ("cr0", 14),
        ("dr7", 15),
        ("dr6", 16),
        ("rflags", 17),
        ("rip", 18),
        ("rsp", 19),
        ("rax", 20),
        ("g_pat", 21),
        ("sev_features", 22),
        ("xcr0", 23),
        ("other", 24),
    ] {
        for json in ["null", "0", "\"\"", "true", "[0]"] {
            let text = format!(in rt.alloc(); "{{\"{name}\":{json}}}")?;
            assert_eq!(rt;
                refusal(rt.alloc(), text.as_str()),
                Some(VmsaRefusal::Field { place }),
                "{text}"
            );
        }
    }
    Ok(())
}

// A text, and the first place of it that fails.
#[test]
fn the_first_place(rt: HostRuntime) {
    for (text, place) in [
        ("[]", 0),
        ("null", 0),
        ("7", 0),
        (r#""rip""#, 0),
        (r#"{"eip":"0x0"}"#, 0),
        (r#"{"RIP":"0x0"}"#, 0),
        (r#"{"":0}"#, 0),
        (r#"{"es":0,"xss":"0x0"}"#, 0),
        (r#"{"cs":{"type":0}}"#, 2),
        (
            r#"{"cs":{"selector":0,"attributes":0,"limit":0,"base":"0x0","dpl":0}}"#,
            2,
        ),
        (r#"{"cs":{"selector":65536}}"#, 2),
        (r#"{"cs":{"selector":-1}}"#, 2),
        (r#"{"cs":{"selector":1.0}}"#, 2),
        (r#"{"cs":{"selector":"0x1"}}"#, 2),
        (r#"{"cs":{"selector":null}}"#, 2),
        (r#"{"cs":{"attributes":65536}}"#, 2),
        (r#"{"cs":{"limit":4294967296}}"#, 2),
        (r#"{"cs":{"base":0}}"#, 2),
        (r#"{"cs":{"base":"0"}}"#, 2),
        (r#"{"rip":65520}"#, 18),
        (r#"{"rip":"fff0"}"#, 18),
        (r#"{"rip":"0x"}"#, 18),
        (r#"{"rip":"0X1"}"#, 18),
        (r#"{"rip":"0xg"}"#, 18),
        (r#"{"rip":"0x00000000000000001"}"#, 18),
        (r#"{"other":{}}"#, 24),
        (r#"{"other":[[]]}"#, 24),
        (r#"{"other":[{}]}"#, 24),
        (r#"{"other":[{"at":784}]}"#, 24),
        (r#"{"other":[{"byte":1}]}"#, 24),
        (r#"{"other":[{"at":784,"byte":1,"bit":0}]}"#, 24),
        (r#"{"other":[{"at":"0x310","byte":1}]}"#, 24),
        (r#"{"other":[{"at":4096,"byte":1}]}"#, 24),
        (r#"{"other":[{"at":65536,"byte":1}]}"#, 24),
        (r#"{"other":[{"at":0,"byte":1}]}"#, 24),
        (r#"{"other":[{"at":16,"byte":1}]}"#, 24),
        (r#"{"other":[{"at":159,"byte":1}]}"#, 24),
        (r#"{"other":[{"at":208,"byte":1}]}"#, 24),
        (r#"{"other":[{"at":1007,"byte":1}]}"#, 24),
        (r#"{"other":[{"at":784,"byte":1},{"at":783,"byte":1}]}"#, 24),
        (r#"{"other":[{"at":784,"byte":1},{"at":784,"byte":1}]}"#, 24),
        (r#"{"other":[{"at":784,"byte":0}]}"#, 24),
        (r#"{"other":[{"at":784,"byte":256}]}"#, 24),
        (r#"{"other":0,"xcr0":0,"tr":0,"es":0}"#, 1),
        (r#"{"other":0,"efer":0,"tr":0}"#, 10),
        (r#"{"xcr0":0,"cr4":0,"efer":0}"#, 11),
        (r#"{"other":0,"xcr0":0}"#, 23),
    ] {
        assert_eq!(rt;
            refusal(rt.alloc(), text),
            Some(VmsaRefusal::Field { place }),
            "{text}"
        );
    }
}
