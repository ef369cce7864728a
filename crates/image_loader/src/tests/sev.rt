//! Images judged for SEV and SEV-ES, whose machines are of another make than `Launch`.
use super::host::{Host, MEMORY};
use super::images::*;
use crate::{PrepareRefusal, judge};
use directive_rules::{CheckRefusal, Misfit, Why};
use igvm_headers::{Options, PlatformKind};
use igvm_image::open_image;
use std::test::Fail;

#[test]
fn judges_for_sev(rt: HostRuntime) -> Result<(), Fail> {
    let host = Host::new(rt.alloc(), &[MEMORY])?;
    for (header, number, want) in [
        (PAGE, 0, Ok((1, 0))),
        (LARGE, 0, Ok((512, 0))),
        (UNMEASURED, 1, Ok((1, 0))),
        (CONTEXT, 1, Ok((0, 1))),
        (CONTEXT, 0, Err(Why::ContextNotHere)),
        (SECRETS, 1, Err(Why::TypeNotHere)),
    ] {
        let headers = [SEV, SEV_ES, header].concat(rt.alloc())?;
        let file = image(rt.alloc(), &headers, &page_of(rt.alloc(), 0)?)?;
        assert!(rt; file.len() <= 536_870_912);
        let view = open_image(&file).expect(&rt, "a file that breaks no rule");
        let platform = view.platforms().by_number(number).ok_or("no platform")?;
        let options = Options::plain();
        match judge(
            host.alloc,
            &view,
            platform,
            options,
            &host.plan,
            &host.values,
        ) {
            Ok(judged) => {
                assert_eq!(rt; judged.platform(), platform);
                assert_eq!(rt; Ok((judged.pages(), judged.contexts())), want);
            }
            Err(refusal) => {
                let why = want.err().ok_or("a misfit")?;
                assert_eq!(rt; refusal, CheckRefusal::Misfit(Misfit { index: 2, why }));
            }
        }
    }
    Ok(())
}

#[test]
fn prepares_nothing_for_sev(rt: HostRuntime) -> Result<(), Fail> {
    let host = Host::new(rt.alloc(), &[MEMORY])?;
    let file = image(rt.alloc(), &[SEV, SEV_ES].concat(rt.alloc())?, NONE)?;
    for (number, kind) in [(0, PlatformKind::Sev), (1, PlatformKind::SevEs)] {
        let outcome = host.load(&rt, &file, number)?;
        assert_eq!(rt; outcome.answer, Err(PrepareRefusal::NoDigest { kind }));
    }
    Ok(())
}
