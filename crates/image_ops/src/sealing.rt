//! A list whose ID blocks want a platform's launch digest.
ghost use Rattle.std.specs.Prelude.{◌≡◌, ◌≤◌, ◌<◌, ℕ, List, None, Some, IfErr, IfOk, OnOk, length, map, slice_get, true};
ghost use Rattle.component_list.specs.ImageList.{list_of};
ghost use Rattle.component_list.specs.Lists.{IsList};
ghost use Rattle.directive_rules.specs.DirectiveFacts.{is_id_block};
ghost use Rattle.igvm_headers.specs.SpellingConditions.{AreBytes};
ghost use Rattle.igvm_headers.specs.declared.platform_kind.PlatformKind.TheVariants.{SevSnp};
ghost use Rattle.igvm_image.specs.Headers.{IsAccepted, headers_of};
ghost use Rattle.igvm_measure.specs.Digests.{digest_of};
ghost use Rattle.igvm_measure.specs.WantedDigest.{bad_digest};
ghost use Rattle.image_builder.specs.Layout.{layout, layout_size};
ghost use Rattle.image_ops.specs.SealRefusals.{IsSealRefusal};
ghost use Rattle.image_ops.specs.Sealed.{IsSealed, has_id_block, sealed, sealed_header, sealed_part};
ghost use Rattle.launch_likeness.specs.LaunchedAlike.{FitAlike, KeepsLaunch};
ghost use Rattle.list_changes.specs.Changes.{with_digest};
ghost use Rattle.list_changes.specs.ListPlatforms.{platforms_in};
ghost use Rattle.platform_masks.specs.Platforms.{platforms_of};
ghost use Rattle.platform_masks.specs.declared.platform.Platform.{Platform};

use component_list::{Component, ComponentList};
use igvm_headers::{Digest, Header, Options, spelled_is_a_piece};
use igvm_image::{ImageView, open_image};
use igvm_measure::measure_image;
use image_builder::{BuildRefusal, build, built_is_read_back, layout_has_its_size};
use list_changes::mask_at;
use platform_masks::{Platform, applies};
use std::alloc::Global;

/// Why a list isn't sealed.
#[derive(Clone, Copy, Debug, PartialEq, Eq)]
pub enum SealRefusal {
    /// No ID block counts for the platform.
    NoIdBlock,
    /// The list's image would have so many bytes, more than 536,870,912.
    TooLarge { bytes: u64 },
    /// Want of memory.
    Memory,
}

/// The list with the platform's launch digest, by these options, in each ID block that counts for the
/// platform of this number. The list has such a platform, of kind SEV-SNP. Keys and signatures stay as
/// they are: they sign the ID block as it was.
///
/// Each image of the list and the image of the sealed one launch each platform alike and fit the same
/// hosts; and the sealed one has the digest that its ID block wants.
pub fn seal(
    alloc: Global,
    list: ComponentList,
    platform: u32,
    options: Options,
) -> Result<ComponentList, SealRefusal>
    requires has { platform < length (platforms_in list.parts) }
    requires snp { (p : Platform) → slice_get (platforms_in list.parts) platform ≡ Some p
        → p.kind ≡ SevSnp }
    ensures list { (p : Platform) → slice_get (platforms_in list.parts) platform ≡ Some p
        → IfOk result (IsSealed p.mask (digest_of (layout list) p options) list) }
    ensures block { (p : Platform) → slice_get (platforms_in list.parts) platform ≡ Some p
        → OnOk result (has_id_block p.mask list.parts ≡ true) }
    ensures size { IfOk result (λ new. layout_size new ≡ layout_size list) }
    ensures within { OnOk result (layout_size list ≤ 536870912) }
    ensures refused { (p : Platform) → slice_get (platforms_in list.parts) platform ≡ Some p
        → IfErr result (IsSealRefusal (has_id_block p.mask list.parts) (length (layout list))) }
    ensures launch { (file : List ℕ) (n : ℕ) (p : Platform) → list_of file ≡ list
        → slice_get (platforms_in list.parts) n ≡ Some p
        → IfOk result (λ new. KeepsLaunch file p new n p.mask) }
    ensures fits { (file : List ℕ) (n : ℕ) (p : Platform) → list_of file ≡ list
        → slice_get (platforms_in list.parts) n ≡ Some p
        → IfOk result (λ new. FitAlike file p (layout new) p) }
    ensures wanted { (p : Platform) → slice_get (platforms_in list.parts) platform ≡ Some p
        → IfOk result (λ new. bad_digest (layout new) p options ≡ None) }
{
    let mask = mask_at(list.components(), platform);
    if !has_id_block(list.components(), mask) {
        return Err(SealRefusal::NoIdBlock);
    }
    let digest = match digest_of_list(alloc, &list, platform, options) {
        Ok(digest) => digest,
        Err(refusal) => return Err(refusal),
    };
    // Laws: nothing runs.
    built_is_read_back();
    spelled_is_a_piece();
    Ok(sealed(list, mask, digest))
}

/// An ID block counts for the platform of a mask.
fn has_id_block(parts: &[Component], mask: u32) -> bool
    ensures { result ≡ has_id_block mask parts.now }
{
    parts
        .iter()
        .any(|c| is_id_block(&c.header) && applies(&c.header, mask))
}

fn is_id_block(header: &Header) -> bool
    ensures { result ≡ is_id_block header.now }
{
    matches!(header, Header::IdBlock { .. })
}

/// The launch digest of a list's image.
fn digest_of_list(
    alloc: Global,
    list: &ComponentList,
    platform: u32,
    options: Options,
) -> Result<Digest, SealRefusal>
    requires has { platform < length (platforms_in list.now.parts) }
    requires snp { (p : Platform) → slice_get (platforms_in list.now.parts) platform ≡ Some p
        → p.kind ≡ SevSnp }
    ensures digest { (p : Platform) → slice_get (platforms_in list.now.parts) platform ≡ Some p
        → IfOk result (λ digest. digest_of (layout list.now) p options ≡ Some digest) }
    ensures within { OnOk result (layout_size list.now ≤ 536870912) }
    ensures refused { IfErr result (IsSealRefusal true (length (layout list.now))) }
{
    // A law: nothing runs.
    layout_has_its_size();
    let image = match build(alloc, list) {
        Ok(image) => image,
        Err(BuildRefusal::TooLarge { bytes }) => return Err(SealRefusal::TooLarge { bytes }),
        Err(BuildRefusal::Memory) => return Err(SealRefusal::Memory),
    };
    Ok(digest_of_image(image.as_slice(), platform, options))
}

/// The launch digest of an image that breaks no rule, for its platform of this number, of kind SEV-SNP.
fn digest_of_image(image: &[u8], platform: u32, options: Options) -> Digest
    requires within { length image.now ≤ 536870912 }
    requires accepted { IsAccepted image.now }
    requires has { platform < length (platforms_of (headers_of image.now)) }
    requires snp { (p : Platform) → slice_get (platforms_of (headers_of image.now)) platform ≡ Some p
        → p.kind ≡ SevSnp }
    ensures { (p : Platform) → slice_get (platforms_of (headers_of image.now)) platform ≡ Some p
        → digest_of image.now p options ≡ Some result }
{
    let Ok(view) = open_image(image) else {
        unreachable!()
    };
    let Some(found) = view.platforms().by_number(platform) else {
        unreachable!()
    };
    snp_digest(&view, found, options)
}

/// The launch digest of an image for an SEV-SNP platform.
fn snp_digest(view: &ImageView<'_>, platform: Platform, options: Options) -> Digest
    requires { platform.kind ≡ SevSnp }
    ensures { digest_of view.now platform options ≡ Some result }
{
    match measure_image(view, platform, options) {
        Ok(digest) => digest,
        Err(_) => unreachable!(),
    }
}

/// The list with this digest in each ID block that counts for the platform of a mask.
fn sealed(list: ComponentList, mask: u32, digest: Digest) -> ComponentList
    ensures list { result ≡ sealed mask digest list }
    ensures valid { IsList list }
    ensures new { IsList result }
    ensures size { length digest ≡ 48 }
{
    // A law: nothing runs.
    note_digest(&digest);
    let version = list.version();
    let mut parts = list.into_parts();
    set_digest(&mut parts, mask, digest);
    ComponentList::of_valid(parts).with_version(version)
}

/// The ID blocks that count for the platform of a mask want this digest.
fn set_digest(parts: &mut Vec<Component>, mask: u32, digest: Digest)
    ensures { parts.new.items ≡ map (sealed_part mask digest) parts.old.items }
{
    'parts: for component in parts.iter_mut() {
        component.header = sealed_header(component.header, mask, digest);
    }
}

fn sealed_header(header: Header, mask: u32, digest: Digest) -> Header
    ensures { result ≡ sealed_header mask digest header }
{
    if applies(&header, mask) {
        with_digest(header, digest)
    } else {
        header
    }
}

/// An ID block with another launch digest.
fn with_digest(header: Header, digest: Digest) -> Header
    ensures { result ≡ with_digest digest header }
{
    match header {
        Header::IdBlock {
            mask,
            author_enabled,
            family_id,
            image_id,
            version,
            guest_svn,
            id_algorithm,
            author_algorithm,
            ..
        } => Header::IdBlock {
            mask,
            author_enabled,
            ld: digest,
            family_id,
            image_id,
            version,
            guest_svn,
            id_algorithm,
            author_algorithm,
        },
        _ => header,
    }
}

/// A digest is 48 bytes: a law, as the contract of a function that does nothing.
fn note_digest(digest: &Digest)
    ensures size { length digest.now ≡ 48 }
    ensures bytes { AreBytes digest.now }
{
    note_bytes(digest.bytes());
}

/// Members of a slice of bytes are bytes.
fn note_bytes(bytes: &[u8])
    ensures { AreBytes bytes.now }
{}
