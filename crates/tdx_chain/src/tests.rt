//! Digests as Python's hashlib has them.
use crate::TdxChain;
use igvm_headers::PageView;

/// A page whose chunks all differ.
fn counted_page() -> [u8; 4096] {
    let mut page = [0; 4096];
    for i in 0..4096 {
        page[i] = ((i * 7 + i / 256) % 251) as u8;
    }
    page
}

#[test]
fn measures_no_record(rt: HostRuntime) {
    let want = b"\
        \x38\xb0\x60\xa7\x51\xac\x96\x38\x4c\xd9\x32\x7e\xb1\xb1\xe3\x6a\x21\xfd\xb7\x11\x14\xbe\x07\x43\
        \x4c\x0c\xc7\xbf\x63\xf6\xe1\xda\x27\x4e\xde\xbf\xe7\x6f\x65\xfb\xd5\x1a\xd2\xf1\x48\x98\xb9\x5b";
    assert_eq!(rt; TdxChain::new().finish().bytes(), want.as_slice());
}

#[test]
fn measures_a_place(rt: HostRuntime) {
    let want = b"\
        \xfc\xda\xbf\x6f\xdf\x38\xb8\x7d\x2e\x3a\x89\xb1\xab\x68\xc2\x42\xab\xb2\x61\xdf\xfa\x70\xef\x6f\
        \x1d\xc2\x22\x0c\x27\x52\xd2\x72\x9c\xdf\x1b\xe9\x2a\xfc\x2e\x0e\x42\x97\xf0\x4e\x2b\x62\x95\x52";
    let mut chain = TdxChain::new();
    chain.page_add(0x1000);
    assert_eq!(rt; chain.finish().bytes(), want.as_slice());
}

#[test]
fn measures_one_page(rt: HostRuntime) {
    let counted = counted_page();
    for (gpa, lent, want) in [
        (
            0x1000,
            0,
            b"\
        \xca\x76\xd5\x54\x13\x28\xaf\xef\x8b\xc9\x36\x42\x61\xc5\x15\xae\xbe\xf9\x04\x12\xeb\xc5\x6c\xa0\
        \xc2\x26\x0e\xc5\x31\xa1\x44\x62\xcf\xc0\xc1\x1d\xe6\x1d\x84\x29\x2d\xdf\x8c\xa8\x71\xda\x1f\xf1",
        ),
        (
            0x1234_5678_9000,
            4096,
            b"\
        \xda\xb1\xab\x73\x81\x1b\xff\xc0\x21\x10\x5a\xc3\x10\xff\xa3\x34\xa3\x2f\x56\xdb\x1a\x2a\x8f\x2f\
        \x5f\x58\x7a\x7e\xda\xaa\xe7\x23\xa5\xe4\x02\xa5\xf3\x9d\xdd\x2f\xaf\x49\xd6\x93\xbb\xdd\xf3\x86",
        ),
        (
            0xFFFF_FFFF_FFFF_F000,
            300,
            b"\
        \xbb\xe3\xbe\x85\x9b\x17\x3e\xc3\x5b\x08\xef\x02\xbf\x70\x13\x82\xe4\x72\x2e\x3e\x8e\xe9\xbc\x4e\
        \xb0\xd6\xd3\xfc\xd3\xba\x68\x42\x8c\x48\x22\xc7\x10\xe0\x22\x6f\xb6\x08\x56\xda\xe9\xc8\x4e\x81",
        ),
    ] {
        let mut chain = TdxChain::new();
        chain.page_add(gpa);
        chain.extend(gpa, PageView::of_bytes(&counted[..lent]));
        assert_eq!(rt; chain.finish().bytes(), want.as_slice(), "at {gpa}");
    }
}

#[test]
fn measures_pages_in_a_row(rt: HostRuntime) {
    let counted = counted_page();
    let want = b"\
        \x5f\x12\xdc\xdc\xaf\xd1\x58\xf1\x5a\xdf\xb2\x76\x6c\x5d\xfa\x13\xdc\xaf\xce\xfc\x9c\xd3\x35\x70\
        \x10\xa7\x8a\xc2\xa4\xe5\xcf\x47\xde\x3d\x88\xaf\x8d\x78\x32\x2f\x43\xc8\xc8\x60\xb6\x94\xad\x49";
    let mut chain = TdxChain::new();
    chain.page_add(0x1000);
    chain.extend(0x1000, PageView::of_bytes(&counted));
    chain.page_add(0x2000);
    chain.page_add(0x3000);
    chain.extend(0x3000, PageView::of_bytes(b"igvm"));
    assert_eq!(rt; chain.finish().bytes(), want.as_slice());
}
