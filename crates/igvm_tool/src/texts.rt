//! How the program is used: docs/PROGRAM.md.

/// How the program is used.
pub const USAGE: &str = "\
usage: igvm build LIST OUT
       igvm print FILE
       igvm measure FILE --platform P [--native-zero]
       igvm load FILE HOST --platform P [--native-zero] [--image OUT]
       igvm make N OUT
       igvm sev-measure FILE --platform P
       igvm sev-load FILE HOST --platform P
       igvm vmsa-build JSON OUT
       igvm vmsa-print FILE
       igvm build-elf LIST ELF MASK OUT
       igvm strip FILE OUT --platform P
       igvm join FILE FILE OUT
       igvm seal FILE OUT --platform P [--native-zero]
P is snp, tdx or a platform number
P of sev-measure and sev-load is sev, sev_es or a platform number
";
