//! What holds of the bytes of stores, and of the files of a partition: each law is the contract of a function that does
//! nothing.
ghost use Rattle.std.specs.Prelude.{◌≡◌, ℕ, List};
ghost use Rattle.cache_key.specs.declared.request.Mutation.{Mutation};
ghost use Rattle.cache_model.specs.Change.{Change};
ghost use Rattle.cache_model.specs.Contents.{SameContents};
ghost use Rattle.record_form.specs.declared.header.Header.{Header};
ghost use Rattle.store_journal.specs.Text.{IsText};
ghost use Rattle.store_journal.specs.Fault.{IsDamagedAt};
ghost use Rattle.store_journal.specs.Stands.{StandsFor};

/// The same bytes are a store with one header and one list of groups. Does nothing.
pub fn bytes_are_one_store()
    ensures { (header other : Header) (groups others : List (List Mutation)) (bytes : List ℕ)
        → IsText header groups bytes → IsText other others bytes → (header ≡ other) × (groups ≡ others) }
{}

/// A store isn't damaged, and a damaged file first leaves the form of a store at one offset. Does nothing.
pub fn damage_has_one_offset()
    ensures whole { (header : Header) (groups : List (List Mutation)) (bytes : List ℕ) (offset : ℕ)
        → IsText header groups bytes → IsDamagedAt bytes header.id.partition header.partitions offset → ⊥ }
    ensures one { (bytes : List ℕ) (partition partitions offset other : ℕ)
        → IsDamagedAt bytes partition partitions offset → IsDamagedAt bytes partition partitions other → offset ≡ other }
{}

/// Files stand for one list's contents, whichever changes lead to them. Does nothing.
pub fn files_have_one_contents()
    ensures { (files : List (List ℕ)) (partition partitions : ℕ) (changes others : List Change)
        → StandsFor files partition partitions changes → StandsFor files partition partitions others → SameContents changes others }
{}
