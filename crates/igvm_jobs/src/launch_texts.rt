//! The texts of a launch, which are put together without memory: docs/PROGRAM.md.
ghost use Rattle.std.specs.Prelude.{◌≡◌, ◌≤◌, ◌+◌, ◌++◌, length};
ghost use Rattle.igvm_jobs.specs.Texts.{load_text, make_text, misfit_text, why_words, why_digests};

use directive_rules::{Misfit, Why};
use igvm_headers::Digest;
use line_buffer::LineBuffer;

/// Adds the two lines that say what a machine was given, and its digest, of at most 48 bytes.
pub fn push_loaded(text: &mut LineBuffer, pages: u32, contexts: u32, digest: &[u8])
    requires room { length text.old + 512 ≤ 16384 }
    requires digest { length digest.now ≤ 48 }
    ensures { text.new ≡ text.old ++ load_text pages contexts digest.now }
{
    text.number("loaded ", u64::from(pages));
    text.number(" pages, ", u64::from(contexts));
    text.push(b" contexts\n");
    text.digits("digest ", digest);
    text.push(b"\n");
}

/// What became of an image that was made.
#[derive(Drop)]
pub struct Made {
    /// How many pages were asked for.
    pub count: u32,
    /// The bytes of the image.
    pub bytes: u64,
    /// Its digest on SEV-SNP.
    pub snp: Digest,
    /// How many pages a machine was given of it.
    pub pages: u32,
    /// How many contexts a machine was given of it.
    pub contexts: u32,
    /// Its digest on TDX.
    pub tdx: Digest,
}

/// Adds the three lines that say what became of an image that was made.
pub fn push_made(text: &mut LineBuffer, made: &Made)
    requires { length text.old + 512 ≤ 16384 }
    ensures { text.new ≡ text.old ++ make_text made.now.count made.now.bytes made.now.snp
        made.now.pages made.now.contexts made.now.tdx }
{
    text.number("made ", u64::from(made.count));
    text.number(" pages, ", made.bytes);
    text.push(b" bytes\n");
    text.digits("snp ", made.snp.bytes());
    text.number(" loaded ", u64::from(made.pages));
    text.number(" pages, ", u64::from(made.contexts));
    text.push(b" contexts\n");
    text.digits("tdx ", made.tdx.bytes());
    text.push(b"\n");
}

/// Adds the line that says which header does not fit, and why.
pub fn push_misfit(text: &mut LineBuffer, misfit: &Misfit)
    requires { length text.old + 512 ≤ 16384 }
    ensures { text.new ≡ text.old ++ misfit_text misfit.now }
{
    text.number("does not fit: header ", u64::from(misfit.index));
    text.word(": ", why_words(&misfit.why));
    push_why_digests(text, &misfit.why);
    text.push(b"\n");
}

/// The words for why a header does not fit.
fn why_words(why: &Why) -> &'static str
    ensures words { result.now ≡ why_words why.now }
    ensures few { length result.now ≤ 20 }
{
    match why {
        Why::Outside => "outside",
        Why::Repeated => "repeated",
        Why::TypeNotHere => "type not here",
        Why::ContextNotHere => "context not here",
        Why::ContextRepeated => "context repeated",
        Why::PolicyRepeated => "policy repeated",
        Why::IdBlockNotHere => "id block not here",
        Why::IdBlockRepeated => "id block repeated",
        Why::AreaGone => "area gone",
        Why::ValueTooLong => "value too long",
        Why::AreasTooLarge => "areas too large",
        Why::TooManyPages => "too many pages",
        Why::BadDigest { .. } => "bad digest",
    }
}

/// Adds the digests that a misfit names.
fn push_why_digests(text: &mut LineBuffer, why: &Why)
    requires { length text.old + 300 ≤ 16384 }
    ensures text { text.new ≡ text.old ++ why_digests why.now }
    ensures grown { length text.new ≤ length text.old + 300 }
{
    if let Why::BadDigest { wanted, found } = why {
        text.digits(" wanted ", wanted.bytes());
        text.digits(" found ", found.bytes());
    }
}
