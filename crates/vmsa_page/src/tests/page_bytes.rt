//! Pages whose bytes were worked out by hand, short pages, and pages of many bytes.
use super::{page_of, text_of};
use std::test::Fail;

#[test]
fn reads_a_worked_example(rt: HostRuntime) -> Result<(), Fail> {
    let text =
        r#"{"rip":"0xfff0","cs":{"selector":61440,"attributes":155,"limit":65535,"base":"0xffff0000"}}"#;
    let page = page_of(rt.alloc(), text)?;
    let cs = b"\x00\xf0\x9b\x00\xff\xff\x00\x00\x00\x00\xff\xff\x00\x00\x00\x00".as_slice();
    let rip = b"\xf0\xff\x00\x00\x00\x00\x00\x00".as_slice();
    assert_eq!(rt; &page[0x10..0x20], cs);
    assert_eq!(rt; &page[0x178..0x180], rip);
    let back = text_of(rt.alloc(), &page)?;
    let want =
        r#"{"cs":{"attributes":155,"base":"0xffff0000","limit":65535,"selector":61440},"rip":"0xfff0"}"#;
    assert_eq!(rt; back.as_slice(), want.as_bytes());
    Ok(())
}

#[test]
fn an_empty_object_is_a_page_of_zeros(rt: HostRuntime) -> Result<(), Fail> {
    let page = page_of(rt.alloc(), "{}")?;
    assert!(rt; page.iter().all(|byte| *byte == 0));
    let back = text_of(rt.alloc(), &page)?;
    assert_eq!(rt; back.as_slice(), b"{}".as_slice());
    Ok(())
}

// How many bytes a page has, the last of them, and its text: all others are 0, and zeros follow. The
// third page ends in the middle of `rip`.
#[test]
fn reads_short_pages(rt: HostRuntime) -> Result<(), Fail> {
    for (count, last, want) in [
        (0, 0, "{}"),
        (
            1,
            0x21,
            r#"{"es":{"attributes":0,"base":"0x0","limit":0,"selector":33}}"#,
        ),
        (0x17A, 0x21, r#"{"rip":"0x2100"}"#),
        (0xA1, 0x21, r#"{"other":[{"at":160,"byte":33}]}"#),
        (4096, 0xFF, r#"{"other":[{"at":4095,"byte":255}]}"#),
    ] {
        let mut page = [0; 4096];
        let front = page.get_mut(..count).ok_or("count")?;
        if let Some(byte) = front.last_mut() {
            *byte = last;
        }
        let text = text_of(rt.alloc(), &page[..count])?;
        assert_eq!(rt; text.as_slice(), want.as_bytes());
    }
    Ok(())
}

/// The next number of a linear congruence (Knuth's MMIX).
fn next_number(number: u64) -> u64 {
    number
        .wrapping_mul(6_364_136_223_846_793_005)
        .wrapping_add(1_442_695_040_888_963_407)
}

/// The text of a page is read as that page.
#[test]
fn pages_of_random_bytes_come_back(rt: HostRuntime) -> Result<(), Fail> {
    let mut number = 1;
    for _ in 0..20 {
        let mut page = [0; 4096];
        for byte in page.iter_mut() {
            number = next_number(number);
            *byte = number.to_le_bytes()[7];
        }
        let text = text_of(rt.alloc(), &page)?;
        let text = str::from_utf8(text.as_slice()).ok().ok_or("text")?;
        let back = page_of(rt.alloc(), text)?;
        assert!(rt; back.as_slice() == page.as_slice());
    }
    Ok(())
}
