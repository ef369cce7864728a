//! Texts, and what they are in each form.
use super::*;
use serde_json::Value;
use std::alloc::Global;
use std::test::Fail;

/// The value of a text that is JSON.
fn value_of(alloc: Global, text: &str) -> Result<Value, &'static str> {
    json_of(alloc, text.as_bytes()).ok().ok_or("refused")
}

#[test]
fn reads_addresses(rt: HostRuntime) -> Result<(), Fail> {
    for (text, want) in [
        (r#""0x0""#, Some(0)),
        (r#""0xaBcDeF""#, Some(0xAB_CDEF)),
        (r#""0x0000000000000010""#, Some(16)),
        (r#""0xffffffffffffffff""#, Some(u64::MAX)),
        (r#""0x""#, None),
        (r#""0X0""#, None),
        (r#""00""#, None),
        (r#"" 0x0""#, None),
        (r#""0x0 ""#, None),
        (r#""0x+0""#, None),
        (r#""0xg""#, None),
        (r#""0x00000000000000000""#, None),
        ("0", None),
        ("null", None),
        (r#"["0x0"]"#, None),
    ] {
        let json = value_of(rt.alloc(), text)?;
        assert_eq!(rt; address(&json), want, "{text}");
    }
    Ok(())
}

// A text, and the number that it is of 8, 16 and 32 bits.
#[test]
fn reads_numbers(rt: HostRuntime) -> Result<(), Fail> {
    for (text, of_8, of_16, of_32) in [
        ("0", Some(0), Some(0), Some(0)),
        ("255", Some(255), Some(255), Some(255)),
        ("256", None, Some(256), Some(256)),
        ("65535", None, Some(65_535), Some(65_535)),
        ("65536", None, None, Some(65_536)),
        ("4294967295", None, None, Some(u32::MAX)),
        ("4294967296", None, None, None),
        ("18446744073709551616", None, None, None),
        ("-1", None, None, None),
        ("-0", None, None, None),
        ("1.0", None, None, None),
        ("1e0", None, None, None),
        (r#""1""#, None, None, None),
        ("true", None, None, None),
    ] {
        let json = value_of(rt.alloc(), text)?;
        assert_eq!(rt; byte(&json), of_8, "{text}");
        assert_eq!(rt; short(&json), of_16, "{text}");
        assert_eq!(rt; word(&json), of_32, "{text}");
    }
    Ok(())
}

#[test]
fn knows_keys(rt: HostRuntime) -> Result<(), Fail> {
    for (text, want) in [
        ("{}", true),
        (r#"{"b":null}"#, true),
        (r#"{"b":0,"a":{"c":0},"b":1}"#, true),
        (r#"{"a":0,"c":0}"#, false),
        (r#"{"A":0}"#, false),
        (r#"{"":0}"#, false),
        ("[]", false),
        (r#""a""#, false),
    ] {
        let json = value_of(rt.alloc(), text)?;
        assert_eq!(rt; has_only(&json, &["a", "b"]), want, "{text}");
    }
    Ok(())
}

#[test]
fn refuses_what_is_no_json(rt: HostRuntime) {
    for text in ["", "[", "[] x", "{'a':0}", "1e400", r#""\ud800""#] {
        let refusal = json_of(rt.alloc(), text.as_bytes()).err();
        assert_eq!(rt; refusal, Some(JsonRefusal::NotJson), "{text}");
    }
    let latin = json_of(rt.alloc(), b"\"\xe9\"").err();
    assert_eq!(rt; latin, Some(JsonRefusal::NotJson));
}
