//! Images with an ID block, which wants a digest that is theirs, or another.
use super::digests::{SNP_PAGE, SNP_ZERO};
use super::host::{Host, MEMORY};
use super::images::*;
use crate::LoadAnswer;
use directive_rules::{Misfit, Why};
use igvm_headers::{Digest, Options, Tag};
use launch_platform::{Launch, Phase};
use std::test::Fail;

#[test]
fn loads_only_what_is_wanted(rt: HostRuntime) -> Result<(), Fail> {
    let host = Host::new(rt.alloc(), &[MEMORY])?;
    let mut changed = SNP_PAGE;
    changed[47] ^= 1;
    for (wanted, native_zero, found, tag) in [
        (SNP_PAGE, false, SNP_PAGE, Tag::Normal),
        (changed, false, SNP_PAGE, Tag::Normal),
        (SNP_ZERO, false, SNP_PAGE, Tag::Normal),
        (SNP_ZERO, true, SNP_ZERO, Tag::Zero),
        (SNP_PAGE, true, SNP_ZERO, Tag::Zero),
    ] {
        let headers = [SNP, PAGE, ID_BLOCK, &wanted, ID_BLOCK_REST].concat(rt.alloc())?;
        let file = image(rt.alloc(), &headers, NONE)?;
        let outcome = host.load_with(&rt, &file, 0, Options { native_zero })?;
        let is_loaded = wanted == found;
        let wanted = Digest::of_bytes(wanted);
        let found = Digest::of_bytes(found);
        let why = Why::BadDigest { wanted, found };
        let (answer, phase) = if is_loaded {
            (LoadAnswer::Loaded(found), Phase::Done)
        } else {
            let misfit = Misfit { index: 2, why };
            (LoadAnswer::DoesNotFit(misfit), Phase::Refused)
        };
        assert_eq!(rt; outcome.answer, Ok(Ok(answer)));
        let machine = outcome.machine;
        assert!(rt; machine.phase() == phase && machine.digest() == Some(found));
        assert_eq!(rt; machine.entries(), 1);
        let entry = machine.entry(0).ok_or("no entry")?;
        assert!(rt; entry.gpa == 0x1000 && entry.tag == Some(tag));
    }
    Ok(())
}
