//! Laws of lists of changes that leave the same contents.
ghost use Rattle.std.specs.Prelude.{List, ◌++◌};
ghost use Rattle.cache_model.specs.Change.{Change};
ghost use Rattle.cache_model.specs.Contents.{SameContents};

/// The law of the same contents: that two lists leave the same is an equivalence. Does nothing.
pub fn same_contents_is_an_equivalence()
    ensures itself { (changes : List Change) → SameContents changes changes }
    ensures turned { (changes others : List Change) → SameContents changes others → SameContents others changes }
    ensures joined { (changes between others : List Change)
        → SameContents changes between → SameContents between others → SameContents changes others }
{}

/// The law of further changes: lists that leave the same contents do so also after the same further changes. Does nothing.
pub fn same_contents_stay_the_same()
    ensures { (changes others further : List Change)
        → SameContents changes others → SameContents (changes ++ further) (others ++ further) }
{}
