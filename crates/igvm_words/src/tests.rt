//! Words and the jobs that they mean, as docs/PROGRAM.md lists them.
use crate::{Job, PlatformChoice, Words, job_of};
use igvm_headers::{Memory, PlatformKind};
use std::alloc::Global;
use std::test::Fail;

/// Words that stand between single spaces.
fn words_of(alloc: Global, text: &str) -> Result<Words, Memory> {
    let mut words = Words::new(alloc);
    for word in text.split(' ') {
        words.push(word)?;
    }
    Ok(words)
}

/// What a job holds, each field that it lacks being empty.
#[derive(Clone, Copy, Debug, PartialEq)]
struct Asked<'a> {
    command: &'a str,
    /// LIST or FILE.
    source: &'a str,
    /// OUT of a build or of an image that is made, HOST of a load.
    second: &'a str,
    kind: Option<PlatformKind>,
    /// The number of the platform, or of the pages.
    number: Option<u32>,
    native_zero: bool,
    image: Option<&'a str>,
}

const NOTHING: Asked<'static> = Asked {
    command: "",
    source: "",
    second: "",
    kind: None,
    number: None,
    native_zero: false,
    image: None,
};

fn asked_by<'a>(job: &Job<'a>) -> Asked<'a> {
    match *job {
        Job::Build { list, target } => Asked {
            command: "build",
            source: list,
            second: target,
            ..NOTHING
        },
        Job::Print { file } => Asked {
            command: "print",
            source: file,
            ..NOTHING
        },
        Job::Measure(words) => Asked {
            command: "measure",
            source: words.file,
            kind: kind_of(words.wanted),
            number: number_of(words.wanted),
            native_zero: words.options.native_zero,
            ..NOTHING
        },
        Job::Load(words) => Asked {
            command: "load",
            source: words.file,
            second: words.host,
            kind: kind_of(words.wanted),
            number: number_of(words.wanted),
            native_zero: words.options.native_zero,
            image: words.image,
        },
        Job::Make { count, target } => Asked {
            command: "make",
            second: target,
            number: Some(count),
            ..NOTHING
        },
    }
}

fn kind_of(wanted: PlatformChoice) -> Option<PlatformKind> {
    match wanted {
        PlatformChoice::First(kind) => Some(kind),
        PlatformChoice::Numbered(_) => None,
    }
}

fn number_of(wanted: PlatformChoice) -> Option<u32> {
    match wanted {
        PlatformChoice::First(_) => None,
        PlatformChoice::Numbered(number) => Some(number),
    }
}

/// Words that mean a job.
static JOBS: [(&str, Asked<'static>); 14] = [
    (
        "build LIST OUT",
        Asked {
            command: "build",
            source: "LIST",
            second: "OUT",
            ..NOTHING
        },
    ),
    (
        "build ./-x ./-x",
        Asked {
            command: "build",
            source: "./-x",
            second: "./-x",
            ..NOTHING
        },
    ),
    (
        "print FILE",
        Asked {
            command: "print",
            source: "FILE",
            ..NOTHING
        },
    ),
    (
        "measure FILE --platform snp",
        Asked {
            command: "measure",
            source: "FILE",
            kind: Some(PlatformKind::SevSnp),
            ..NOTHING
        },
    ),
    (
        "measure FILE --platform tdx --native-zero",
        Asked {
            command: "measure",
            source: "FILE",
            kind: Some(PlatformKind::Tdx),
            native_zero: true,
            ..NOTHING
        },
    ),
    (
        "measure FILE --platform 0",
        Asked {
            command: "measure",
            source: "FILE",
            number: Some(0),
            ..NOTHING
        },
    ),
    (
        "measure FILE --platform 4294967295 --native-zero",
        Asked {
            command: "measure",
            source: "FILE",
            number: Some(4294967295),
            native_zero: true,
            ..NOTHING
        },
    ),
    (
        "load FILE HOST --platform snp",
        Asked {
            command: "load",
            source: "FILE",
            second: "HOST",
            kind: Some(PlatformKind::SevSnp),
            ..NOTHING
        },
    ),
    (
        "load FILE HOST --platform tdx --native-zero",
        Asked {
            command: "load",
            source: "FILE",
            second: "HOST",
            kind: Some(PlatformKind::Tdx),
            native_zero: true,
            ..NOTHING
        },
    ),
    (
        "load FILE HOST --platform 1 --image OUT",
        Asked {
            command: "load",
            source: "FILE",
            second: "HOST",
            number: Some(1),
            image: Some("OUT"),
            ..NOTHING
        },
    ),
    (
        "load FILE HOST --platform 10 --native-zero --image OUT",
        Asked {
            command: "load",
            source: "FILE",
            second: "HOST",
            number: Some(10),
            native_zero: true,
            image: Some("OUT"),
            ..NOTHING
        },
    ),
    (
        "load load load --platform snp --image load",
        Asked {
            command: "load",
            source: "load",
            second: "load",
            kind: Some(PlatformKind::SevSnp),
            image: Some("load"),
            ..NOTHING
        },
    ),
    (
        "make 1 OUT",
        Asked {
            command: "make",
            second: "OUT",
            number: Some(1),
            ..NOTHING
        },
    ),
    (
        "make 100000 OUT",
        Asked {
            command: "make",
            second: "OUT",
            number: Some(100000),
            ..NOTHING
        },
    ),
];

#[test]
fn means_the_jobs_of_the_page(rt: HostRuntime) -> Result<(), Fail> {
    for (text, want) in &JOBS {
        let words = words_of(rt.alloc(), text)?;
        let got = match job_of(&words) {
            Some(job) => asked_by(&job),
            None => NOTHING,
        };
        assert_eq!(rt; got, *want, "{text}");
    }
    Ok(())
}

/// Words that mean no job.
static OTHERS: [&str; 68] = [
    "build",
    "build LIST",
    "build -x OUT",
    "build LIST -x",
    "build LIST OUT OUT",
    "measure FILE",
    "measure --platform snp FILE",
    "measure FILE --platform=snp",
    "measure FILE --platform 01",
    "measure FILE --platform 00",
    "measure FILE --platform +1",
    "measure FILE --platform -1",
    "measure FILE --platform 4294967296",
    "measure FILE --platform ",
    "measure FILE --platform SNP",
    "measure FILE --platform sev",
    "measure FILE --platform 0x1",
    "measure FILE --platform 1 ",
    "measure  --platform snp",
    "measure -FILE --platform snp",
    "Measure FILE --platform snp",
    "measure FILE --platform snp snp",
    "measure FILE -platform snp",
    "measure FILE --native-zero",
    "measure --native-zero FILE --platform snp",
    "measure FILE --native-zero --platform snp",
    "measure FILE --platform snp --native-zero --native-zero",
    "measure FILE --platform snp --native-zero 1",
    "measure FILE --platform snp -native-zero",
    "measure FILE --platform snp --image OUT",
    "load",
    "load FILE",
    "load FILE HOST",
    "load FILE HOST --platform",
    "load FILE HOST --platform snp --image",
    "load FILE HOST --platform snp --image -x",
    "load FILE HOST --platform snp --image OUT --native-zero",
    "load FILE HOST --platform snp --image OUT OUT",
    "load -FILE HOST --platform snp",
    "load FILE -HOST --platform snp",
    "load FILE --platform snp HOST",
    "load FILE HOST --platform=snp",
    "load FILE HOST --platform snp --image=OUT",
    "load FILE HOST --platform snp --native-zero --native-zero",
    "load FILE HOST --platform 01",
    "make",
    "make 4",
    "make 0 OUT",
    "make 100001 OUT",
    "make 04 OUT",
    "make +4 OUT",
    "make 4 -OUT",
    "make 4 OUT OUT",
    "make OUT 4",
    "make 4294967297 OUT",
    "print FILE --native-zero",
    "print",
    "print FILE FILE",
    "print -FILE",
    "print -",
    "print --",
    "print ",
    "PRINT FILE",
    "FILE print",
    "--help",
    "-h",
    "",
    " ",
];

#[test]
fn means_no_job_by_other_words(rt: HostRuntime) -> Result<(), Fail> {
    assert!(rt; job_of(&Words::new(rt.alloc())).is_none(), "no word");
    for text in &OTHERS {
        let words = words_of(rt.alloc(), text)?;
        assert!(rt; job_of(&words).is_none(), "{text}");
    }
    Ok(())
}

#[test]
fn keeps_words(rt: HostRuntime) -> Result<(), Fail> {
    let mut words = Words::new(rt.alloc());
    assert!(rt; words.as_slice().is_empty());
    words.push("print")?;
    words.push("")?;
    let [first, second] = words.as_slice() else {
        assert!(rt; false, "two words");
        return Ok(());
    };
    assert_eq!(rt; first.as_str(), "print");
    assert_eq!(rt; second.as_str(), "");
    Ok(())
}
