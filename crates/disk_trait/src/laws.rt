// Laws of the definitions that the clauses of a disk cite, each the contract of a function that does nothing.
ghost use Rattle.std.specs.Prelude.{◌≡◌, ◌≢◌, ℕ, List, [], ◌∷◌, length};
ghost use Rattle.disk_trait.specs.View.{Image, View, Tells};
ghost use Rattle.disk_trait.specs.Calls.{Moved, Follows, Fewer};
ghost use Rattle.disk_trait.specs.CrashImage.{FileChange, Makes, MayLeave, IsWithoutGap, IsPending, IsImageAfter};

use crate::Disk;

/// Whatever calls change a file after its last sync that succeeded, a stop leaves an image of it: the length lies
/// between the least and the greatest since then, and a byte that was synced, never written again and never after a
/// cut stays. Each such image may be left, since no write leaves a gap.
#[tactic(auto, using(crate::proofs::CrashImageLemmas::image_left, crate::proofs::EveryImage::image_is_left))]
pub fn calls_leave_images()
    ensures images { (changes : List FileChange) (synced image : List ℕ) → MayLeave changes synced image → IsImageAfter changes synced image }
    ensures every { (changes : List FileChange) (synced image : List ℕ) → IsWithoutGap changes (length synced)
        → IsImageAfter changes synced image → MayLeave changes synced image }
{}

/// How what is pending of a file goes on over one call, from the disk before it to the disk after it. The premises are
/// what the calls of `Disk` ensure.
#[tactic(auto, using(crate::proofs::CrashImageLemmas::change_pending, crate::proofs::CrashImageLemmas::other_pending))]
pub fn calls_are_pending<D: Disk>(before: &D, after: &D)
    // A sync that succeeded leaves nothing pending, and so does a restart.
    ensures settled { (file : ℕ) (synced : List ℕ) → ((m : Image) → (D.view after.now).images m → m file ≡ synced)
        → IsPending (D.view after.now) file synced [] }

    // A write or a cut of the file is one call more, whether it succeeded or failed.
    ensures changed { (file : ℕ) (synced : List ℕ) (changes : List FileChange) (change : FileChange)
        → IsPending (D.view before.now) file synced changes
        → Follows (Moved file (Makes change)) (D.view before.now) (D.view after.now)
        → IsPending (D.view after.now) file synced (change ∷ changes) }

    // One of another file is none, nor is a call that leaves no new image.
    ensures elsewhere { (file other : ℕ) (synced : List ℕ) (changes : List FileChange) (change : FileChange) → other ≢ file
        → IsPending (D.view before.now) other synced changes
        → Follows (Moved file (Makes change)) (D.view before.now) (D.view after.now)
        → IsPending (D.view after.now) other synced changes }
    ensures no_more { (file : ℕ) (synced : List ℕ) (changes : List FileChange) → IsPending (D.view before.now) file synced changes
        → Fewer (D.view before.now) (D.view after.now) → IsPending (D.view after.now) file synced changes }
{}

/// A disk that has an image tells, and what a read gives is then one of its images.
pub fn reads_give_an_image<D: Disk>(disk: &D)
    ensures { (m : Image) → (D.view disk.now).images m → Tells (D.view disk.now) }
{}

/// Over a disk that tells, what a read gives after a restart is one of the images from before it.
pub fn restarts_take_an_image<D: Disk>(before: &D, after: &D)
    ensures { Fewer (D.view before.now) (D.view after.now) → Tells (D.view after.now)
        → (D.view before.now).images (D.view after.now).seen }
{}
