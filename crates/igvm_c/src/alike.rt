//! `igvm_measured_alike`: whether two images measure the same pages.
ghost use Rattle.std.specs.Prelude.{◌≡◌, ◌⊎◌, Err, IfErr, IfOk, IsOk, OnErr, OnOk};
ghost use Rattle.igvm_c.specs.Pairs.{IsCompared, IsFlag, of_one_kind, pair_in, pair_of};
ghost use Rattle.igvm_c.specs.Refusals.{status_of};
ghost use Rattle.igvm_headers.specs.declared.platform_kind.PlatformKind.TheVariants.{SevSnp, Tdx};
ghost use Rattle.igvm_measure.specs.Digests.{digest_of};
ghost use Rattle.igvm_measure.specs.Hashed.{Clash, hashed};
ghost use Rattle.igvm_measure.specs.Measured.{measured};

use crate::file::open;
use crate::options::options_of;
use crate::platforms::by_number;
use crate::refusal::Refusal;
use igvm_headers::{Options, PlatformKind};
use igvm_image::ImageView;
use igvm_measure::measured_alike;
use platform_masks::Platform;

/// Whether two images have the same measured pages for a platform of each, both SEV-SNP or both TDX: 1 or 0 in
/// `alike`. Where they have, their launch digests are one; where they haven't and the digests are one, SHA-384
/// clashes.
#[unsafe(no_mangle)]
pub extern "C" fn igvm_measured_alike(
    first: &[u8],
    first_platform: u32,
    second: &[u8],
    second_platform: u32,
    options: u32,
    alike: &mut u32,
) -> u32
    ensures status { result ≡ status_of (pair_in first.now first_platform second.now second_platform options) }
    ensures kept { OnErr (pair_in first.now first_platform second.now second_platform options)
        (alike.new ≡ alike.old) }
    ensures exact { IfOk (pair_in first.now first_platform second.now second_platform options)
        (λ pair. IsFlag alike.new
        (measured first.now pair.first pair.options ≡ measured second.now pair.second pair.options)) }
    ensures digests { IfOk (pair_in first.now first_platform second.now second_platform options)
        (λ pair. alike.new ≡ 1
        → digest_of first.now pair.first pair.options ≡ digest_of second.now pair.second pair.options) }
    ensures clash { IfOk (pair_in first.now first_platform second.now second_platform options)
        (λ pair. alike.new ≡ 0
        → digest_of first.now pair.first pair.options ≡ digest_of second.now pair.second pair.options
        → Clash pair.first.kind (hashed first.now pair.first pair.options)
        (hashed second.now pair.second pair.options)) }
{
    match alike_in(first, first_platform, second, second_platform, options) {
        Ok(same) => {
            *alike = if same { 1 } else { 0 };
            0
        }
        Err(refusal) => refusal.status(),
    }
}

/// Whether two files have the same measured pages.
fn alike_in(
    first: &[u8],
    first_platform: u32,
    second: &[u8],
    second_platform: u32,
    options: u32,
) -> Result<bool, Refusal>
    ensures refused { IfErr result (λ refusal.
        pair_in first.now first_platform second.now second_platform options ≡ Err refusal) }
    ensures some { OnOk result (IsOk (pair_in first.now first_platform second.now second_platform options)) }
    ensures compared { IfOk result (λ same.
        IfOk (pair_in first.now first_platform second.now second_platform options)
        (λ pair. IsCompared first.now second.now pair same)) }
{
    let options = options_of(options)?;
    let one = open(first)?;
    let p = by_number(&one, first_platform)?;
    let other = open(second)?;
    let q = by_number(&other, second_platform)?;
    compared(&one, p, &other, q, options)
}

/// Whether two images have the same measured pages for a platform of each.
fn compared(
    first: &ImageView<'_>,
    p: Platform,
    second: &ImageView<'_>,
    q: Platform,
    options: Options,
) -> Result<bool, Refusal>
    ensures refused { IfErr result (λ refusal. of_one_kind p q options ≡ Err refusal) }
    ensures some { OnOk result (IsOk (of_one_kind p q options)) }
    ensures compared { IfOk result (λ same. IfOk (of_one_kind p q options)
        (λ pair. IsCompared first.now second.now pair same)) }
{
    if p.kind.number() != q.kind.number() {
        return Err(Refusal::OtherKind);
    }
    match p.kind {
        PlatformKind::SevSnp | PlatformKind::Tdx => Ok(same_pages(first, p, second, q, options)),
        _ => Err(Refusal::NoDigest),
    }
}

/// Two images have the same measured pages for a platform of each.
fn same_pages(
    first: &ImageView<'_>,
    p: Platform,
    second: &ImageView<'_>,
    q: Platform,
    options: Options,
) -> bool
    requires kinds { p.kind ≡ q.kind }
    requires launch { (p.kind ≡ SevSnp) ⊎ (p.kind ≡ Tdx) }
    ensures { IsCompared first.now second.now (pair_of p q options) result }
{
    measured_alike(first, p, second, q, options)
}
