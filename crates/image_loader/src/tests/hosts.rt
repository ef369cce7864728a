//! One image on several hosts: one digest, and one place in the guest for each page.
use super::digests::{SNP_KINDS, SNP_MANY, TDX_MANY};
use super::host::{Host, MEMORY, Row, is_padded, rows_of};
use super::images::*;
use crate::LoadAnswer;
use crate::laws::one_digest;
use host_set::PlanRange;
use igvm_headers::{Digest, Tag};
use launch_platform::Launch;
use std::test::Fail;

/// A range that ends where the last page of `MANY` does.
const TIGHT: PlanRange = PlanRange {
    start: 0,
    bytes: 0xA000,
};

/// One that touches the next.
const LOW: PlanRange = PlanRange {
    start: 0,
    bytes: 0x2000,
};

/// The next.
const HIGH: PlanRange = PlanRange {
    start: 0x2000,
    bytes: 0x10000,
};

/// The pages of `MANY` on SEV-SNP.
const SNP_ROWS: &[Row] = &[
    (0x1000, Some(Tag::Normal), false),
    (0x2000, Some(Tag::Unmeasured), false),
    (0x3000, Some(Tag::Normal), false),
    (0x5000, Some(Tag::Secrets), false),
    (0x6000, Some(Tag::Cpuid), false),
    (0x7000, Some(Tag::Cpuid), false),
    (0x8000, Some(Tag::Unmeasured), false),
    (0x9000, Some(Tag::Unmeasured), false),
];

/// Those on TDX.
const TDX_ROWS: &[Row] = &[
    (0x1000, Some(Tag::Normal), true),
    (0x2000, Some(Tag::Unmeasured), false),
    (0x4000, Some(Tag::Normal), true),
    (0x8000, Some(Tag::Unmeasured), false),
    (0x9000, Some(Tag::Unmeasured), false),
];

#[test]
fn plans_and_values_change_no_digest(rt: HostRuntime) -> Result<(), Fail> {
    one_digest();
    let file = image(rt.alloc(), MANY, &pattern(rt.alloc())?)?;
    for ranges in [[MEMORY].as_slice(), &[TIGHT], &[LOW, HIGH]] {
        for (secrets, cpuid, command_line) in [
            (NONE, NONE, NONE),
            (b"\x01\x02", b"\x03", b"console=ttyS0"),
            (b"\x03", b"\x04\x05", b"quiet"),
        ] {
            let host = Host::with_values(&rt, rt.alloc(), ranges, secrets, cpuid, command_line)?;
            let outcome = host.load(&rt, &file, 0)?;
            let digest = Digest::of_bytes(SNP_MANY);
            assert_eq!(rt; outcome.answer, Ok(Ok(LoadAnswer::Loaded(digest))));
            assert_eq!(rt; rows_of(rt.alloc(), &outcome.machine)?.as_slice(), SNP_ROWS);
            assert_eq!(rt; outcome.machine.contexts(), 1);
            let context = outcome.machine.context_at(0).ok_or("no context")?;
            assert!(rt; context.vp == 3 && context.gpa == 0xFFFF_FFFF_F000);
            assert!(rt; is_second_page(context.page));

            let outcome = host.load(&rt, &file, 1)?;
            let digest = Digest::of_bytes(TDX_MANY);
            assert_eq!(rt; outcome.answer, Ok(Ok(LoadAnswer::Loaded(digest))));
            assert_eq!(rt; rows_of(rt.alloc(), &outcome.machine)?.as_slice(), TDX_ROWS);
            assert_eq!(rt; outcome.machine.contexts(), 0);
        }
    }
    Ok(())
}

#[test]
fn pages_are_of_the_host(rt: HostRuntime) -> Result<(), Fail> {
    let file = image(rt.alloc(), KINDS, NONE)?;
    for (secrets, cpuid, command_line) in [
        (NONE, NONE, NONE),
        (b"\x01", b"\x03", b"a"),
        (b"\x02", b"\x04", b"b"),
    ] {
        let ranges = &[MEMORY];
        let host = Host::with_values(&rt, rt.alloc(), ranges, secrets, cpuid, command_line)?;
        let outcome = host.load(&rt, &file, 0)?;
        let digest = Digest::of_bytes(SNP_KINDS);
        assert_eq!(rt; outcome.answer, Ok(Ok(LoadAnswer::Loaded(digest))));
        let machine = outcome.machine;
        assert!(rt; machine.entries() == 4 && machine.contexts() == 0);
        for (k, gpa, front) in [
            (0, 0x1000, NONE),
            (1, 0x2000, secrets),
            (2, 0x3000, cpuid),
            (3, 0x4000, command_line),
        ] {
            let entry = machine.entry(k).ok_or("no entry")?;
            assert!(rt;
                entry.gpa == gpa && is_padded(entry.page, front),
                "page {k}"
            );
        }
    }
    Ok(())
}
