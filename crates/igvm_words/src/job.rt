//! The job that the words ask for: docs/PROGRAM.md.
ghost use Rattle.std.specs.Prelude.{◌≡◌, IfSome};
ghost use Rattle.std.specs.Option.{option_map};
ghost use Rattle.igvm_words.specs.Words.{job_of, build_job, print_job, measure_job, measure_options, load_job, image_option, make_job, after_flag};
ghost use Rattle.igvm_words.specs.WordsOfJob.{IsJob};
ghost use Rattle.igvm_words.specs.JobView.{job_view, words_view};

use crate::number::count_of;
use crate::platform_choice::{PlatformChoice, choice_of};
use crate::words::{Words, is_file_name, is_text};
use igvm_headers::Options;

/// What the program is asked to do.
#[derive(Clone, Copy)]
pub enum Job<'a> {
    /// `build LIST OUT`
    Build { list: &'a str, target: &'a str },
    /// `print FILE`
    Print { file: &'a str },
    /// `measure FILE --platform P [--native-zero]`
    Measure(MeasureWords<'a>),
    /// `load FILE HOST --platform P [--native-zero] [--image OUT]`
    Load(LoadWords<'a>),
    /// `make N OUT`: an image of N pages, from 1 to 100,000.
    Make { count: u32, target: &'a str },
}

/// What a measurement is asked for.
#[derive(Clone, Copy)]
pub struct MeasureWords<'a> {
    /// The image file's name.
    pub file: &'a str,
    /// The platform whose digest is wanted.
    pub wanted: PlatformChoice,
    pub options: Options,
}

/// What a load is asked for.
#[derive(Clone, Copy)]
pub struct LoadWords<'a> {
    /// The image file's name.
    pub file: &'a str,
    /// The name of the host description.
    pub host: &'a str,
    /// The platform whose launch is wanted.
    pub wanted: PlatformChoice,
    pub options: Options,
    /// The name of the pages file, where one is wanted.
    pub image: Option<&'a str>,
}

/// The job that these words mean, if they mean one: `None` is a usage fault.
#[tactic(auto, using(crate::proofs::WordsLemmas::possible), unfolding(crate::specs::Words::job_of))]
pub fn job_of(words: &Words) -> Option<Job<'_>>
    ensures meant { option_map job_view result ≡ job_of words.now }
    ensures possible { IfSome result (λ job. IsJob (job_view job)) }
{
    let [command, rest @ ..] = words.as_slice() else {
        return None;
    };
    let command = command.as_str();
    if is_text(command, "build") {
        return build_job(rest);
    }
    if is_text(command, "print") {
        return print_job(rest);
    }
    if is_text(command, "measure") {
        return measure_job(rest);
    }
    if is_text(command, "load") {
        return load_job(rest);
    }
    if is_text(command, "make") {
        return make_job(rest);
    }
    None
}

/// `LIST OUT`
fn build_job(words: &[String]) -> Option<Job<'_>>
    ensures { option_map job_view result ≡ build_job (words_view words.now) }
{
    let [list, target] = words else {
        return None;
    };
    let (list, target) = (list.as_str(), target.as_str());
    if is_file_name(list) && is_file_name(target) {
        Some(Job::Build { list, target })
    } else {
        None
    }
}

/// `FILE`
fn print_job(words: &[String]) -> Option<Job<'_>>
    ensures { option_map job_view result ≡ print_job (words_view words.now) }
{
    match words {
        [file] if is_file_name(file.as_str()) => Some(Job::Print {
            file: file.as_str(),
        }),
        _ => None,
    }
}

/// `FILE --platform P`, and the options.
fn measure_job(words: &[String]) -> Option<Job<'_>>
    ensures { option_map job_view result ≡ measure_job (words_view words.now) }
{
    let [file, option, platform, tail @ ..] = words else {
        return None;
    };
    let file = file.as_str();
    if !(is_file_name(file) && is_text(option.as_str(), "--platform")) {
        return None;
    }
    let wanted = choice_of(platform.as_str())?;
    let options = measure_options(tail)?;
    Some(Job::Measure(MeasureWords {
        file,
        wanted,
        options,
    }))
}

/// The options that these words set: they are `[--native-zero]`, and no further word. `None` where they
/// are other words.
pub fn measure_options(words: &[String]) -> Option<Options>
    ensures { result ≡ measure_options (words_view words.now) }
{
    match after_flag(words, "--native-zero") {
        (native_zero, []) => Some(Options { native_zero }),
        _ => None,
    }
}

/// `FILE HOST --platform P`, and the options.
fn load_job(words: &[String]) -> Option<Job<'_>>
    ensures { option_map job_view result ≡ load_job (words_view words.now) }
{
    let [file, host, option, platform, tail @ ..] = words else {
        return None;
    };
    let (file, host) = (file.as_str(), host.as_str());
    if !(is_file_name(file) && is_file_name(host) && is_text(option.as_str(), "--platform")) {
        return None;
    }
    let wanted = choice_of(platform.as_str())?;
    let (native_zero, rest) = after_flag(tail, "--native-zero");
    let option = image_option(rest)?;
    Some(Job::Load(LoadWords {
        file,
        host,
        wanted,
        options: Options { native_zero },
        image: option.image,
    }))
}

/// The last option of a load: the name of the pages file, where one is wanted.
#[derive(Clone, Copy)]
struct ImageOption<'a> {
    image: Option<&'a str>,
}

/// `[--image OUT]`, and no further word.
fn image_option(words: &[String]) -> Option<ImageOption<'_>>
    ensures { option_map (λ option. option_map (λ name. name.now) option.image) result
        ≡ image_option (words_view words.now) }
{
    match words {
        [] => Some(ImageOption { image: None }),
        [flag, target] => {
            let target = target.as_str();
            if is_text(flag.as_str(), "--image") && is_file_name(target) {
                Some(ImageOption {
                    image: Some(target),
                })
            } else {
                None
            }
        }
        _ => None,
    }
}

/// `N OUT`
fn make_job(words: &[String]) -> Option<Job<'_>>
    ensures { option_map job_view result ≡ make_job (words_view words.now) }
{
    let [number, target] = words else {
        return None;
    };
    let target = target.as_str();
    if !is_file_name(target) {
        return None;
    }
    let count = count_of(number.as_str())?;
    Some(Job::Make { count, target })
}

/// Whether this flag stands first, and the words after it.
fn after_flag<'a>(words: &'a [String], flag: &str) -> (bool, &'a [String])
    ensures flag { result.0 ≡ (after_flag flag.now (words_view words.now)).0 }
    ensures rest { words_view result.1.now ≡ (after_flag flag.now (words_view words.now)).1 }
{
    match words {
        [word, rest @ ..] if is_text(word.as_str(), flag) => (true, rest),
        _ => (false, words),
    }
}
