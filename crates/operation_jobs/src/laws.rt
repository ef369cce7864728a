//! What holds of all that is promised of these commands: laws, functions that do nothing.
ghost use Rattle.std.specs.Prelude.{◌≡◌, ◌+◌, ℕ, List, None, Option, Some, length};
ghost use Rattle.std.specs.List.{slice_get};
ghost use Rattle.component_list.specs.ImageList.{list_of};
ghost use Rattle.further_words.specs.FurtherWords.{JoinWords, SealWords, StripWords};
ghost use Rattle.igvm_image.specs.Headers.{headers_of};
ghost use Rattle.igvm_jobs.specs.Clauses.{Gains, IsPut, KeepsPromises};
ghost use Rattle.igvm_jobs.specs.declared.status.Status as status;
ghost use Rattle.igvm_measure.specs.WantedDigest.{bad_digest};
ghost use Rattle.igvm_outside.specs.Files.{Files};
ghost use Rattle.image_builder.specs.Layout.{layout};
ghost use Rattle.image_ops.specs.Sealed.{sealed};
ghost use Rattle.image_ops.specs.Stripped.{stripped};
ghost use Rattle.joined_list.specs.Joined.{joined};
ghost use Rattle.joined_list.specs.NewNumbers.{mask_by, second_masks};
ghost use Rattle.launch_likeness.specs.LaunchedAlike.{FitAlike, KeepsLaunch};
ghost use Rattle.list_changes.specs.ListPlatforms.{renumbered};
ghost use Rattle.operation_jobs.specs.JoinJob.{join_task};
ghost use Rattle.operation_jobs.specs.OperationAnswers.{IsJoined, IsSealedFile, IsStripped, JoinAnswers, SealAnswers, StripAnswers};
ghost use Rattle.operation_jobs.specs.SealJob.{seal_task};
ghost use Rattle.operation_jobs.specs.StripJob.{strip_task};
ghost use Rattle.platform_masks.specs.Platforms.{platforms_of};
ghost use Rattle.platform_masks.specs.declared.platform.Platform.{Platform};

use igvm_headers::spelled_is_a_piece;
use igvm_outside::{Shelf, Sink};
use image_builder::{built_is_read_back, layout_has_its_size};
use launch_likeness::one_list_one_launch;
use launch_platform::Launch;

/// Whatever is told, `strip` answers for some bytes of FILE, as many as it gave.
pub fn strip_answers<S: Shelf, O: Sink, E: Sink, L: Launch>()
    ensures { (words : StripWords) (status : status.Status)
        (shelf shelf' : S) (out out' : O) (err err' : E) (machine machine' : L)
        → KeepsPromises S.Shelf O.Sink E.Sink L.Launch (strip_task words) status
        shelf shelf' out out' err err' machine machine'
        → StripAnswers words status (S.given shelf') (S.told shelf) (S.told shelf')
        (λ text. Gains O.Sink text out out') (λ text. IsPut E.Sink text err err') }
{}

/// Whatever is told, `join` answers for some bytes of the two files, the second of as many as were given
/// last, or for some bytes of the first alone.
pub fn join_answers<S: Shelf, O: Sink, E: Sink, L: Launch>()
    ensures { (words : JoinWords) (status : status.Status)
        (shelf shelf' : S) (out out' : O) (err err' : E) (machine machine' : L)
        → KeepsPromises S.Shelf O.Sink E.Sink L.Launch (join_task words) status
        shelf shelf' out out' err err' machine machine'
        → JoinAnswers words.target status (S.given shelf') (S.told shelf) (S.told shelf')
        (λ text. Gains O.Sink text out out') (λ text. IsPut E.Sink text err err') }
{}

/// Whatever is told, `seal` answers for some bytes of FILE, as many as it gave.
pub fn seal_answers<S: Shelf, O: Sink, E: Sink, L: Launch>()
    ensures { (words : SealWords) (status : status.Status)
        (shelf shelf' : S) (out out' : O) (err err' : E) (machine machine' : L)
        → KeepsPromises S.Shelf O.Sink E.Sink L.Launch (seal_task words) status
        shelf shelf' out out' err err' machine machine'
        → SealAnswers words status (S.given shelf') (S.told shelf) (S.told shelf')
        (λ text. Gains O.Sink text out out') (λ text. IsPut E.Sink text err err') }
{}

/// Where `strip` is done, the image that it wrote launches its one platform as FILE's image launches the
/// platform that was asked for, and fits the same hosts.
pub fn stripped_image_launches_alike<O: Sink>()
    ensures launch { (words : StripWords) (given : ℕ) (told told' : Option Files) (out out' : O)
        → (done : IsStripped words given told told' (λ text. Gains O.Sink text out out'))
        → KeepsLaunch done.bytes done.platform (stripped done.platform.mask (list_of done.bytes))
        0 done.platform.mask }
    ensures fits { (words : StripWords) (given : ℕ) (told told' : Option Files) (out out' : O)
        → (done : IsStripped words given told told' (λ text. Gains O.Sink text out out'))
        → FitAlike done.bytes done.platform
        (layout (stripped done.platform.mask (list_of done.bytes)))
        (renumbered 0 done.platform.mask done.platform) }
{
    // Laws: nothing runs.
    built_is_read_back();
    layout_has_its_size();
}

/// Where `join` is done, the image that it wrote launches each platform of the first file's image under its
/// number, and each of the second's under its number and the count of the first's, as their own images do.
pub fn joined_image_launches_alike<O: Sink>()
    ensures first { (target : List ℕ) (given : ℕ) (told told' : Option Files) (out out' : O)
        → (done : IsJoined target given told told' (λ text. Gains O.Sink text out out'))
        → (n : ℕ) (p : Platform) → slice_get (platforms_of (headers_of done.first)) n ≡ Some p
        → KeepsLaunch done.first p (joined (list_of done.first) (list_of done.second)) n p.mask }
    ensures second { (target : List ℕ) (given : ℕ) (told told' : Option Files) (out out' : O)
        → (done : IsJoined target given told told' (λ text. Gains O.Sink text out out'))
        → (n : ℕ) (p : Platform) → slice_get (platforms_of (headers_of done.second)) n ≡ Some p
        → KeepsLaunch done.second p (joined (list_of done.first) (list_of done.second))
        (length (platforms_of (headers_of done.first)) + n)
        (mask_by (second_masks (list_of done.first).parts (list_of done.second).parts) p.mask) }
{
    // Laws: nothing runs.
    built_is_read_back();
    layout_has_its_size();
}

/// Where `seal` is done, the image that it wrote launches each platform as FILE's image does and fits the
/// same hosts, and its ID block wants the digest that it has.
pub fn sealed_image_launches_alike<O: Sink>()
    ensures launch { (words : SealWords) (given : ℕ) (told told' : Option Files) (out out' : O)
        → (done : IsSealedFile words given told told' (λ text. Gains O.Sink text out out'))
        → (n : ℕ) (p : Platform) → slice_get (platforms_of (headers_of done.bytes)) n ≡ Some p
        → KeepsLaunch done.bytes p (sealed done.platform.mask done.digest (list_of done.bytes))
        n p.mask }
    ensures fits { (words : SealWords) (given : ℕ) (told told' : Option Files) (out out' : O)
        → (done : IsSealedFile words given told told' (λ text. Gains O.Sink text out out'))
        → (n : ℕ) (p : Platform) → slice_get (platforms_of (headers_of done.bytes)) n ≡ Some p
        → FitAlike done.bytes p
        (layout (sealed done.platform.mask done.digest (list_of done.bytes))) p }
    ensures wanted { (words : SealWords) (given : ℕ) (told told' : Option Files) (out out' : O)
        → (done : IsSealedFile words given told told' (λ text. Gains O.Sink text out out'))
        → bad_digest (layout (sealed done.platform.mask done.digest (list_of done.bytes)))
        done.platform words.options ≡ None }
{
    // Laws: nothing runs.
    built_is_read_back();
    layout_has_its_size();
    one_list_one_launch();
    spelled_is_a_piece();
}
