//! What holds of the digest of every file: a law is a function that does nothing.
ghost use Rattle.std.specs.Prelude.{◌≡◌, ◌≢◌, ◌↔◌, ℕ, List, ◌++◌, None, Some};
ghost use Rattle.igvm_image.specs.Headers.{IsAccepted};
ghost use Rattle.platform_masks.specs.declared.platform.Platform.{Platform};
ghost use Rattle.igvm_headers.specs.declared.options.Options.{Options};
ghost use Rattle.igvm_headers.specs.declared.tag.Tag.{Tag};
ghost use Rattle.snp_chain.specs.Tagged.{contents_by};
ghost use Rattle.igvm_measure.specs.Digests.{digest_of};
ghost use Rattle.igvm_measure.specs.Measured.{IsFile, bytes_if, has_bytes, measured};
ghost use Rattle.igvm_measure.specs.Records.{contents_of};
ghost use Rattle.igvm_measure.specs.Hashed.{hashed, Clash};
ghost use Rattle.igvm_measure.specs.WantedDigest.{IsBadDigest, wanted_id, bad_digest};
ghost use Rattle.directive_rules.specs.declared.misfit.IdWanted.{IdWanted};
ghost use Rattle.directive_rules.specs.declared.misfit.Misfit.{Misfit};

/// Bytes behind an accepted file change no launch digest, for a platform of any kind.
pub fn trailing_bytes()
    ensures { (file more : List ℕ) (platform : Platform) (options : Options) → IsAccepted file
        → digest_of (file ++ more) platform options ≡ digest_of file platform options }
{
    igvm_image::laws::trailing_bytes();
}

/// The record of a page on SEV-SNP has the contents that its tag asks for.
pub fn tagged_contents()
    ensures { (tag : Tag) (page : List ℕ)
        → contents_of (bytes_if (has_bytes tag) page) ≡ contents_by tag page }
{}

/// A file has a bad digest exactly where the ID block that counts wants another launch digest than the
/// file's, and it names that block and both digests.
pub fn wanted_digest()
    ensures some { (file : List ℕ) (platform : Platform) (options : Options) (misfit : Misfit)
        → ((bad_digest file platform options ≡ Some misfit)
        ↔ IsBadDigest file platform options misfit) }
    ensures none { (file : List ℕ) (platform : Platform) (options : Options)
        → ((bad_digest file platform options ≡ None)
        ↔ ((id : IdWanted) (digest : List ℕ) → wanted_id file platform ≡ Some id
        → digest_of file platform options ≡ Some digest → id.wanted ≡ digest)) }
{}

/// What a launch digest binds, for platforms of one kind: files that measure the same pages have one
/// digest, and accepted files of one digest that measure other pages show a clash of SHA-384 among the
/// byte lists that are hashed.
pub fn binding()
    ensures alike { (first second : List ℕ) (p q : Platform) (options : Options) → p.kind ≡ q.kind
        → measured first p options ≡ measured second q options
        → digest_of first p options ≡ digest_of second q options }
    ensures clash { (first second : List ℕ) (p q : Platform) (options : Options) → p.kind ≡ q.kind
        → IsFile first → IsFile second
        → digest_of first p options ≡ digest_of second q options
        → measured first p options ≢ measured second q options
        → Clash p.kind (hashed first p options) (hashed second q options) }
{
    igvm_image::laws::pages_fit();
}
