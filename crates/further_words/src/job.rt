//! The further job that the words ask for.
ghost use Rattle.std.specs.Prelude.{◌≡◌, IfSome};
ghost use Rattle.std.specs.Option.{option_map};
ghost use Rattle.igvm_words.specs.JobView.{words_view};
ghost use Rattle.further_words.specs.FurtherWords.{further_of, sev_measure_job, sev_load_job, vmsa_build_job, vmsa_print_job, build_elf_job, strip_job, join_job, seal_job};
ghost use Rattle.further_words.specs.WordsOfFurther.{IsFurther};
ghost use Rattle.further_words.specs.FurtherView.{further_view};

use crate::sev_choice::sev_choice_of;
use igvm_headers::Options;
use igvm_words::{
    PlatformChoice, Words, choice_of, is_file_name, is_text, measure_options, number_of,
};

/// What the program is asked to do by a further command.
#[derive(Clone, Copy)]
pub enum FurtherJob<'a> {
    /// `sev-measure FILE --platform P`
    SevMeasure {
        file: &'a str,
        wanted: PlatformChoice,
    },
    /// `sev-load FILE HOST --platform P`
    SevLoad(SevLoadWords<'a>),
    /// `vmsa-build JSON OUT`
    VmsaBuild {
        json: &'a str,
        target: &'a str,
    },
    /// `vmsa-print FILE`
    VmsaPrint {
        file: &'a str,
    },
    /// `build-elf LIST ELF MASK OUT`
    BuildElf(ElfWords<'a>),
    /// `strip FILE OUT --platform P`
    Strip(StripWords<'a>),
    /// `join FILE FILE OUT`
    Join(JoinWords<'a>),
    /// `seal FILE OUT --platform P [--native-zero]`
    Seal(SealWords<'a>),
}

/// What is loaded for which SEV or SEV-ES platform, and on which host.
#[derive(Clone, Copy)]
pub struct SevLoadWords<'a> {
    /// The name of the image file.
    pub file: &'a str,
    /// The name of the host description.
    pub host: &'a str,
    /// The platform that is asked for.
    pub wanted: PlatformChoice,
}

/// What an image with the pages of an ELF file is built of.
#[derive(Clone, Copy)]
pub struct ElfWords<'a> {
    /// The name of the component list.
    pub list: &'a str,
    /// The ELF file's name.
    pub elf: &'a str,
    /// The mask of the platforms that the pages are for.
    pub mask: u32,
    /// The name of the image file.
    pub target: &'a str,
}

/// Which platform an image is stripped to.
#[derive(Clone, Copy)]
pub struct StripWords<'a> {
    /// The name of the image file.
    pub file: &'a str,
    /// The name of the image that comes out.
    pub target: &'a str,
    /// The platform that is asked for.
    pub wanted: PlatformChoice,
}

/// Which images are joined.
#[derive(Clone, Copy)]
pub struct JoinWords<'a> {
    /// The name of the image file whose platforms come first.
    pub first: &'a str,
    /// The name of the image file whose platforms come behind them.
    pub second: &'a str,
    /// The name of the image that comes out.
    pub target: &'a str,
}

/// For which platform an image is sealed.
#[derive(Clone, Copy)]
pub struct SealWords<'a> {
    /// The name of the image file.
    pub file: &'a str,
    /// The name of the image that comes out.
    pub target: &'a str,
    /// The platform that is asked for.
    pub wanted: PlatformChoice,
    /// How its digest is taken.
    pub options: Options,
}

/// The further job that these words mean, if they mean one: `None` where they are those of another
/// command, or of none.
pub fn further_of(words: &Words) -> Option<FurtherJob<'_>>
    ensures meant { option_map further_view result ≡ further_of words.now }
    ensures possible { IfSome result (λ job. IsFurther (further_view job)) }
{
    let [command, rest @ ..] = words.as_slice() else {
        return None;
    };
    let command = command.as_str();
    if is_text(command, "sev-measure") {
        return sev_measure_job(rest);
    }
    if is_text(command, "sev-load") {
        return sev_load_job(rest);
    }
    if is_text(command, "vmsa-build") {
        return vmsa_build_job(rest);
    }
    if is_text(command, "vmsa-print") {
        return vmsa_print_job(rest);
    }
    if is_text(command, "build-elf") {
        return build_elf_job(rest);
    }
    if is_text(command, "strip") {
        return strip_job(rest);
    }
    if is_text(command, "join") {
        return join_job(rest);
    }
    if is_text(command, "seal") {
        return seal_job(rest);
    }
    None
}

/// `FILE --platform P`, and no option.
fn sev_measure_job(words: &[String]) -> Option<FurtherJob<'_>>
    ensures meant { option_map further_view result ≡ sev_measure_job (words_view words.now) }
    ensures possible { IfSome result (λ job. IsFurther (further_view job)) }
{
    let [file, option, platform] = words else {
        return None;
    };
    let file = file.as_str();
    if !(is_file_name(file) && is_text(option.as_str(), "--platform")) {
        return None;
    }
    let wanted = sev_choice_of(platform.as_str())?;
    Some(FurtherJob::SevMeasure { file, wanted })
}

/// `FILE HOST --platform P`, and no option.
fn sev_load_job(words: &[String]) -> Option<FurtherJob<'_>>
    ensures meant { option_map further_view result ≡ sev_load_job (words_view words.now) }
    ensures possible { IfSome result (λ job. IsFurther (further_view job)) }
{
    let [file, host, option, platform] = words else {
        return None;
    };
    let (file, host) = (file.as_str(), host.as_str());
    if !(is_file_name(file) && is_file_name(host) && is_text(option.as_str(), "--platform")) {
        return None;
    }
    let wanted = sev_choice_of(platform.as_str())?;
    Some(FurtherJob::SevLoad(SevLoadWords { file, host, wanted }))
}

/// `JSON OUT`
fn vmsa_build_job(words: &[String]) -> Option<FurtherJob<'_>>
    ensures meant { option_map further_view result ≡ vmsa_build_job (words_view words.now) }
    ensures possible { IfSome result (λ job. IsFurther (further_view job)) }
{
    let [json, target] = words else {
        return None;
    };
    let (json, target) = (json.as_str(), target.as_str());
    if is_file_name(json) && is_file_name(target) {
        Some(FurtherJob::VmsaBuild { json, target })
    } else {
        None
    }
}

/// `FILE`
fn vmsa_print_job(words: &[String]) -> Option<FurtherJob<'_>>
    ensures meant { option_map further_view result ≡ vmsa_print_job (words_view words.now) }
    ensures possible { IfSome result (λ job. IsFurther (further_view job)) }
{
    match words {
        [file] if is_file_name(file.as_str()) => Some(FurtherJob::VmsaPrint {
            file: file.as_str(),
        }),
        _ => None,
    }
}

/// `LIST ELF MASK OUT`
fn build_elf_job(words: &[String]) -> Option<FurtherJob<'_>>
    ensures meant { option_map further_view result ≡ build_elf_job (words_view words.now) }
    ensures possible { IfSome result (λ job. IsFurther (further_view job)) }
{
    let [list, elf, number, target] = words else {
        return None;
    };
    let (list, elf, target) = (list.as_str(), elf.as_str(), target.as_str());
    if !(is_file_name(list) && is_file_name(elf) && is_file_name(target)) {
        return None;
    }
    let mask = number_of(number.as_str())?;
    Some(FurtherJob::BuildElf(ElfWords {
        list,
        elf,
        mask,
        target,
    }))
}

/// `FILE OUT --platform P`
fn strip_job(words: &[String]) -> Option<FurtherJob<'_>>
    ensures meant { option_map further_view result ≡ strip_job (words_view words.now) }
    ensures possible { IfSome result (λ job. IsFurther (further_view job)) }
{
    let [file, target, option, platform] = words else {
        return None;
    };
    let (file, target) = (file.as_str(), target.as_str());
    if !(is_file_name(file) && is_file_name(target) && is_text(option.as_str(), "--platform")) {
        return None;
    }
    let wanted = choice_of(platform.as_str())?;
    Some(FurtherJob::Strip(StripWords {
        file,
        target,
        wanted,
    }))
}

/// `FILE FILE OUT`
fn join_job(words: &[String]) -> Option<FurtherJob<'_>>
    ensures meant { option_map further_view result ≡ join_job (words_view words.now) }
    ensures possible { IfSome result (λ job. IsFurther (further_view job)) }
{
    let [first, second, target] = words else {
        return None;
    };
    let (first, second, target) = (first.as_str(), second.as_str(), target.as_str());
    if is_file_name(first) && is_file_name(second) && is_file_name(target) {
        Some(FurtherJob::Join(JoinWords {
            first,
            second,
            target,
        }))
    } else {
        None
    }
}

/// `FILE OUT --platform P`, and the options
fn seal_job(words: &[String]) -> Option<FurtherJob<'_>>
    ensures meant { option_map further_view result ≡ seal_job (words_view words.now) }
    ensures possible { IfSome result (λ job. IsFurther (further_view job)) }
{
    let [file, target, option, platform, tail @ ..] = words else {
        return None;
    };
    let (file, target) = (file.as_str(), target.as_str());
    if !(is_file_name(file) && is_file_name(target) && is_text(option.as_str(), "--platform")) {
        return None;
    }
    let wanted = choice_of(platform.as_str())?;
    let options = measure_options(tail)?;
    Some(FurtherJob::Seal(SealWords {
        file,
        target,
        wanted,
        options,
    }))
}
