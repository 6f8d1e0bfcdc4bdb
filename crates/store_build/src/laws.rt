//! What a whole build is once it is settled: each law is the contract of a function that does nothing.
ghost use Rattle.std.specs.Prelude.{◌≡◌, ℕ, ◌+◌, List, length, true};
ghost use Rattle.cache_model.specs.Caches.{Caches};
ghost use Rattle.cache_model.specs.PlainList.{plain_list, live};
ghost use Rattle.disk_trait.specs.View.{Image};
ghost use Rattle.disk_trait.specs.Moments.{Throughout};
ghost use Rattle.record_form.specs.declared.header.Header.{Header};
ghost use Rattle.seal_gate.specs.Seal.{IsSealed, IsSettled, ButFirst};
ghost use Rattle.store_journal.specs.Text.{IsStoreOf};
ghost use Rattle.store_build.specs.Built.{IsBuilding, IsBuilt};
ghost use Rattle.store_build.specs.declared.build.Build.{Build};

use disk_trait::Disk;

/// A whole build that is settled has its bytes in every image: the premises are what a settling ensures.
pub fn settled_builds_are_whole<D: Disk>(before: &D, after: &D)
    ensures { (build : Build) (header : Header) (caches : Caches)
        → IsBuilding (D.view before.now) build header caches → build.whole ≡ true
        → Throughout (D.view before.now) (D.view after.now) (D.view before.now).images
        → IsSettled (D.view after.now) build.file → (D.view after.now).seen build.file ≡ (D.view before.now).seen build.file
        → IsBuilt (D.view after.now) build.file header caches build.end }
{}

/// Such a build has the length of a store that holds the contents and nothing else; and whatever becomes of its first byte,
/// as at every moment of a seal, it isn't sealed or is the store of the contents.
pub fn whole_builds_are_stores<D: Disk>(disk: &D)
    ensures size { (file : ℕ) (header : Header) (caches : Caches) (end : ℕ)
        → IsBuilt (D.view disk.now) file header caches end
        → (end + 1 ≡ live caches) × ((m : Image) → (D.view disk.now).images m → length (m file) ≡ live caches) }
    ensures store { (file : ℕ) (header : Header) (caches : Caches) (end : ℕ)
        → IsBuilt (D.view disk.now) file header caches end
        → (m : Image) → (D.view disk.now).images m → (bytes : List ℕ) → ButFirst (m file) bytes → IsSealed bytes
        → IsStoreOf header (plain_list caches) bytes }
{}
