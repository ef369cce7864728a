//! Words and the further jobs that they mean, as the README of this crate lists them.
use crate::{FurtherJob, further_of};
use igvm_headers::{Memory, PlatformKind};
use igvm_words::{PlatformChoice, Words};
use std::alloc::Global;
use std::test::Fail;

/// Words that stand between single spaces.
fn words_of(alloc: Global, text: &str) -> Result<Words, Memory> {
    let mut words = Words::new(alloc);
    for word in text.split(' ') {
        words.push(word)?;
    }
    Ok(words)
}

/// What a further job holds, each field that it lacks being empty.
#[derive(Clone, Copy, Debug, PartialEq)]
struct Asked<'a> {
    command: &'a str,
    /// JSON, FILE or LIST.
    source: &'a str,
    /// The second FILE.
    second: &'a str,
    elf: &'a str,
    /// HOST.
    host: &'a str,
    /// The kind of the platform.
    kind: Option<PlatformKind>,
    /// The number of the platform, or MASK.
    number: Option<u32>,
    native_zero: bool,
    /// OUT.
    target: &'a str,
}

const NOTHING: Asked<'static> = Asked {
    command: "",
    source: "",
    second: "",
    elf: "",
    host: "",
    kind: None,
    number: None,
    native_zero: false,
    target: "",
};

fn asked_by<'a>(job: &FurtherJob<'a>) -> Asked<'a> {
    match *job {
        FurtherJob::SevMeasure { file, wanted } => Asked {
            command: "sev-measure",
            source: file,
            kind: kind_of(wanted),
            number: number_of(wanted),
            ..NOTHING
        },
        FurtherJob::SevLoad(words) => Asked {
            command: "sev-load",
            source: words.file,
            host: words.host,
            kind: kind_of(words.wanted),
            number: number_of(words.wanted),
            ..NOTHING
        },
        FurtherJob::VmsaBuild { json, target } => Asked {
            command: "vmsa-build",
            source: json,
            target,
            ..NOTHING
        },
        FurtherJob::VmsaPrint { file } => Asked {
            command: "vmsa-print",
            source: file,
            ..NOTHING
        },
        FurtherJob::BuildElf(words) => Asked {
            command: "build-elf",
            source: words.list,
            elf: words.elf,
            number: Some(words.mask),
            target: words.target,
            ..NOTHING
        },
        FurtherJob::Strip(words) => Asked {
            command: "strip",
            source: words.file,
            kind: kind_of(words.wanted),
            number: number_of(words.wanted),
            target: words.target,
            ..NOTHING
        },
        FurtherJob::Join(words) => Asked {
            command: "join",
            source: words.first,
            second: words.second,
            target: words.target,
            ..NOTHING
        },
        FurtherJob::Seal(words) => Asked {
            command: "seal",
            source: words.file,
            kind: kind_of(words.wanted),
            number: number_of(words.wanted),
            native_zero: words.options.native_zero,
            target: words.target,
            ..NOTHING
        },
    }
}

fn kind_of(wanted: PlatformChoice) -> Option<PlatformKind> {
    match wanted {
        PlatformChoice::First(kind) => Some(kind),
        PlatformChoice::Numbered(_) => None,
    }
}

fn number_of(wanted: PlatformChoice) -> Option<u32> {
    match wanted {
        PlatformChoice::First(_) => None,
        PlatformChoice::Numbered(number) => Some(number),
    }
}

/// Words that mean a further job.
static JOBS: [(&str, Asked<'static>); 27] = [
    (
        "sev-measure FILE --platform sev",
        Asked {
            command: "sev-measure",
            source: "FILE",
            kind: Some(PlatformKind::Sev),
            ..NOTHING
        },
    ),
    (
        "sev-measure ./-x --platform sev_es",
        Asked {
            command: "sev-measure",
            source: "./-x",
            kind: Some(PlatformKind::SevEs),
            ..NOTHING
        },
    ),
    (
        "sev-measure FILE --platform 0",
        Asked {
            command: "sev-measure",
            source: "FILE",
            number: Some(0),
            ..NOTHING
        },
    ),
    (
        "sev-measure FILE --platform 4294967295",
        Asked {
            command: "sev-measure",
            source: "FILE",
            number: Some(4294967295),
            ..NOTHING
        },
    ),
    (
        "sev-load FILE HOST --platform sev",
        Asked {
            command: "sev-load",
            source: "FILE",
            host: "HOST",
            kind: Some(PlatformKind::Sev),
            ..NOTHING
        },
    ),
    (
        "sev-load ./-x FILE --platform sev_es",
        Asked {
            command: "sev-load",
            source: "./-x",
            host: "FILE",
            kind: Some(PlatformKind::SevEs),
            ..NOTHING
        },
    ),
    (
        "sev-load FILE FILE --platform 7",
        Asked {
            command: "sev-load",
            source: "FILE",
            host: "FILE",
            number: Some(7),
            ..NOTHING
        },
    ),
    (
        "vmsa-build JSON OUT",
        Asked {
            command: "vmsa-build",
            source: "JSON",
            target: "OUT",
            ..NOTHING
        },
    ),
    (
        "vmsa-build ./-x ./-x",
        Asked {
            command: "vmsa-build",
            source: "./-x",
            target: "./-x",
            ..NOTHING
        },
    ),
    (
        "vmsa-print FILE",
        Asked {
            command: "vmsa-print",
            source: "FILE",
            ..NOTHING
        },
    ),
    (
        "vmsa-print vmsa-print",
        Asked {
            command: "vmsa-print",
            source: "vmsa-print",
            ..NOTHING
        },
    ),
    (
        "build-elf LIST ELF 1 OUT",
        Asked {
            command: "build-elf",
            source: "LIST",
            elf: "ELF",
            number: Some(1),
            target: "OUT",
            ..NOTHING
        },
    ),
    (
        "build-elf LIST ELF 0 OUT",
        Asked {
            command: "build-elf",
            source: "LIST",
            elf: "ELF",
            number: Some(0),
            target: "OUT",
            ..NOTHING
        },
    ),
    (
        "build-elf LIST ELF 4294967295 OUT",
        Asked {
            command: "build-elf",
            source: "LIST",
            elf: "ELF",
            number: Some(4294967295),
            target: "OUT",
            ..NOTHING
        },
    ),
    (
        "build-elf 7 8 9 10",
        Asked {
            command: "build-elf",
            source: "7",
            elf: "8",
            number: Some(9),
            target: "10",
            ..NOTHING
        },
    ),
    (
        "strip FILE OUT --platform snp",
        Asked {
            command: "strip",
            source: "FILE",
            kind: Some(PlatformKind::SevSnp),
            target: "OUT",
            ..NOTHING
        },
    ),
    (
        "strip ./-x FILE --platform tdx",
        Asked {
            command: "strip",
            source: "./-x",
            kind: Some(PlatformKind::Tdx),
            target: "FILE",
            ..NOTHING
        },
    ),
    (
        "strip FILE FILE --platform 0",
        Asked {
            command: "strip",
            source: "FILE",
            number: Some(0),
            target: "FILE",
            ..NOTHING
        },
    ),
    (
        "strip snp 7 --platform 4294967295",
        Asked {
            command: "strip",
            source: "snp",
            number: Some(4294967295),
            target: "7",
            ..NOTHING
        },
    ),
    (
        "join FILE ELF OUT",
        Asked {
            command: "join",
            source: "FILE",
            second: "ELF",
            target: "OUT",
            ..NOTHING
        },
    ),
    (
        "join OUT FILE FILE",
        Asked {
            command: "join",
            source: "OUT",
            second: "FILE",
            target: "FILE",
            ..NOTHING
        },
    ),
    (
        "join ./-x join 1",
        Asked {
            command: "join",
            source: "./-x",
            second: "join",
            target: "1",
            ..NOTHING
        },
    ),
    (
        "seal FILE OUT --platform snp",
        Asked {
            command: "seal",
            source: "FILE",
            kind: Some(PlatformKind::SevSnp),
            target: "OUT",
            ..NOTHING
        },
    ),
    (
        "seal FILE OUT --platform snp --native-zero",
        Asked {
            command: "seal",
            source: "FILE",
            kind: Some(PlatformKind::SevSnp),
            native_zero: true,
            target: "OUT",
            ..NOTHING
        },
    ),
    (
        "seal ./-x FILE --platform tdx",
        Asked {
            command: "seal",
            source: "./-x",
            kind: Some(PlatformKind::Tdx),
            target: "FILE",
            ..NOTHING
        },
    ),
    (
        "seal FILE ./-x --platform 0 --native-zero",
        Asked {
            command: "seal",
            source: "FILE",
            number: Some(0),
            native_zero: true,
            target: "./-x",
            ..NOTHING
        },
    ),
    (
        "seal FILE FILE --platform 4294967295",
        Asked {
            command: "seal",
            source: "FILE",
            number: Some(4294967295),
            target: "FILE",
            ..NOTHING
        },
    ),
];

#[test]
fn means_the_further_jobs(rt: HostRuntime) -> Result<(), Fail> {
    for (text, want) in &JOBS {
        let words = words_of(rt.alloc(), text)?;
        let got = match further_of(&words) {
            Some(job) => asked_by(&job),
            None => NOTHING,
        };
        assert_eq!(rt; got, *want, "{text}");
    }
    Ok(())
}

/// Words that mean no further job.
static OTHERS: [&str; 155] = [
    "build LIST OUT",
    "sev-measure",
    "sev-measure FILE",
    "sev-measure FILE --platform",
    "sev-measure FILE sev",
    "sev-measure --platform sev",
    "sev-measure --platform sev FILE",
    "sev-measure -FILE --platform sev",
    "sev-measure  --platform sev",
    "sev-measure FILE --platform=sev",
    "sev-measure FILE --Platform sev",
    "sev-measure FILE --platform snp",
    "sev-measure FILE --platform tdx",
    "sev-measure FILE --platform SEV",
    "sev-measure FILE --platform sev-es",
    "sev-measure FILE --platform sev_e",
    "sev-measure FILE --platform 00",
    "sev-measure FILE --platform 4294967296",
    "sev-measure FILE --platform sev --native-zero",
    "sev_measure FILE --platform sev",
    "sev-load",
    "sev-load FILE HOST",
    "sev-load FILE HOST --platform",
    "sev-load FILE --platform sev",
    "sev-load FILE --platform sev HOST",
    "sev-load --platform sev FILE HOST",
    "sev-load -FILE HOST --platform sev",
    "sev-load FILE -HOST --platform sev",
    "sev-load  HOST --platform sev",
    "sev-load FILE  --platform sev",
    "sev-load FILE HOST --platform snp",
    "sev-load FILE HOST --platform 00",
    "sev-load FILE HOST --Platform sev",
    "sev-load FILE HOST --platform sev --native-zero",
    "sev-load FILE HOST --platform sev --image OUT",
    "sev_load FILE HOST --platform sev",
    "sev-loa FILE HOST --platform sev",
    "vmsa-build",
    "vmsa-build JSON",
    "vmsa-build JSON OUT OUT",
    "vmsa-build -JSON OUT",
    "vmsa-build JSON -OUT",
    "vmsa-build  OUT",
    "vmsa-build JSON ",
    "vmsa-build JSON --native-zero",
    "VMSA-BUILD JSON OUT",
    "vmsa_build JSON OUT",
    "vmsabuild JSON OUT",
    "vmsa-buil JSON OUT",
    "vmsa-builds JSON OUT",
    "vmsa build JSON OUT",
    "JSON vmsa-build OUT",
    "vmsa-print",
    "vmsa-print FILE FILE",
    "vmsa-print -FILE",
    "vmsa-print -",
    "vmsa-print ",
    "Vmsa-print FILE",
    "build-elf",
    "build-elf LIST ELF 1",
    "build-elf LIST ELF OUT",
    "build-elf LIST ELF 1 OUT OUT",
    "build-elf -LIST ELF 1 OUT",
    "build-elf LIST -ELF 1 OUT",
    "build-elf LIST ELF 1 -OUT",
    "build-elf  ELF 1 OUT",
    "build-elf LIST  1 OUT",
    "build-elf LIST ELF 1 ",
    "build-elf LIST ELF OUT 1",
    "build-elf LIST ELF 4294967296 OUT",
    "build-elf LIST ELF 00 OUT",
    "build-elf LIST ELF 01 OUT",
    "build-elf LIST ELF +1 OUT",
    "build-elf LIST ELF -1 OUT",
    "build-elf LIST ELF 0x1 OUT",
    "build-elf LIST ELF  OUT",
    "build LIST ELF 1 OUT",
    "strip",
    "strip FILE",
    "strip FILE OUT",
    "strip FILE OUT --platform",
    "strip FILE OUT snp",
    "strip FILE --platform snp",
    "strip FILE --platform snp OUT",
    "strip --platform snp FILE OUT",
    "strip -FILE OUT --platform snp",
    "strip FILE -OUT --platform snp",
    "strip  OUT --platform snp",
    "strip FILE  --platform snp",
    "strip FILE OUT --platform ",
    "strip FILE OUT --platform=snp",
    "strip FILE OUT --Platform snp",
    "strip FILE OUT -platform snp",
    "strip FILE OUT --platform sev",
    "strip FILE OUT --platform sev_es",
    "strip FILE OUT --platform SNP",
    "strip FILE OUT --platform 00",
    "strip FILE OUT --platform -1",
    "strip FILE OUT --platform 4294967296",
    "strip FILE OUT --platform snp --native-zero",
    "strip FILE OUT --platform snp OUT",
    "STRIP FILE OUT --platform snp",
    "strips FILE OUT --platform snp",
    "stri FILE OUT --platform snp",
    "join",
    "join FILE",
    "join FILE FILE",
    "join FILE FILE FILE OUT",
    "join FILE FILE OUT --native-zero",
    "join FILE FILE OUT --platform snp",
    "join -FILE FILE OUT",
    "join FILE -FILE OUT",
    "join FILE FILE -OUT",
    "join FILE FILE -",
    "join  FILE OUT",
    "join FILE  OUT",
    "join FILE FILE ",
    "Join FILE FILE OUT",
    "JOIN FILE FILE OUT",
    "joins FILE FILE OUT",
    "joi FILE FILE OUT",
    "FILE join FILE OUT",
    "seal",
    "seal FILE",
    "seal FILE OUT",
    "seal FILE OUT --platform",
    "seal FILE OUT --native-zero",
    "seal FILE OUT snp",
    "seal FILE --platform snp",
    "seal FILE --platform snp OUT",
    "seal FILE OUT --native-zero --platform snp",
    "seal --platform snp FILE OUT",
    "seal -FILE OUT --platform snp",
    "seal FILE -OUT --platform snp",
    "seal  OUT --platform snp",
    "seal FILE  --platform snp",
    "seal FILE OUT --platform ",
    "seal FILE OUT --Platform snp",
    "seal FILE OUT --platform sev",
    "seal FILE OUT --platform sev_es",
    "seal FILE OUT --platform SNP",
    "seal FILE OUT --platform 00",
    "seal FILE OUT --platform 4294967296",
    "seal FILE OUT --platform snp --Native-Zero",
    "seal FILE OUT --platform snp --native_zero",
    "seal FILE OUT --platform snp --native-zero --native-zero",
    "seal FILE OUT --platform snp --native-zero OUT",
    "seal FILE OUT --platform snp --image OUT",
    "seal FILE OUT --platform snp ",
    "Seal FILE OUT --platform snp",
    "SEAL FILE OUT --platform snp",
    "seals FILE OUT --platform snp",
    "sea FILE OUT --platform snp",
    "",
    " ",
];

#[test]
fn means_no_job_by_other_words(rt: HostRuntime) -> Result<(), Fail> {
    assert!(rt; further_of(&Words::new(rt.alloc())).is_none(), "no word");
    for text in &OTHERS {
        let words = words_of(rt.alloc(), text)?;
        assert!(rt; further_of(&words).is_none(), "{text}");
    }
    Ok(())
}
