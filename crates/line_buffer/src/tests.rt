//! A line that has a part of each form.
use super::LineBuffer;
use igvm_outside::MemSink;
use std::test::Fail;

const LINE: &[u8] =
    b"kind snp count 18446744073709551615 bytes 00ff7a mask 80000001 gpa 00000000fee01000\n";

#[test]
fn puts_a_line(rt: HostRuntime) -> Result<(), Fail> {
    let mut text = LineBuffer::new();
    text.word("kind ", "snp");
    text.number(" count ", u64::MAX);
    text.digits(" bytes ", b"\x00\xff\x7a");
    text.eight_digits(" mask ", 0x8000_0001);
    text.sixteen_digits(" gpa ", 0xfee0_1000);
    text.push(b"\n");
    assert_eq!(rt; text.bytes(), LINE);

    let mut out = MemSink::new(rt.alloc());
    out.set_piece(8);
    assert_eq!(rt; text.make_room(&mut out), Ok(()));
    assert_eq!(rt; out.bytes(), b"".as_slice());
    assert_eq!(rt; text.put(&mut out), Ok(()));
    assert_eq!(rt; out.bytes(), LINE);
    assert_eq!(rt; text.bytes(), b"".as_slice());
    Ok(())
}
