//! Laws of the definitions, for every list of changes.
ghost use Rattle.std.specs.Prelude.{◌≡◌, ℕ, ◌+◌, ◌≤◌, List, [], ◌∷◌, ◌++◌, length};
ghost use Rattle.cache_key.specs.Names.{most_pairs};
ghost use Rattle.cache_key.specs.declared.request.Mutation.{Mutation};
ghost use Rattle.cache_model.specs.Caches.{Caches};
ghost use Rattle.cache_model.specs.Change.{Change, change_of, changes_of, put};
ghost use Rattle.cache_model.specs.Contents.{value_after, SameContents, AreContentsAfter};
ghost use Rattle.cache_model.specs.PlainList.{plain_list, live, growth_of, pairs_of, HasPairs};
ghost use Rattle.cache_model.specs.Size.{size_after, pairs_in};

/// The law of a put: its value is read back, and every other key keeps its value. Does nothing.
pub fn put_is_read_back()
    ensures read_back { (changes : List Change) (cache key value : List ℕ)
        → value_after (changes ++ put cache key value ∷ []) cache key ≡ Some value }
    ensures others_stay { (changes : List Change) (cache key value other_cache other_key : List ℕ)
        → ¬ ((cache ≡ other_cache) × (key ≡ other_key))
        → value_after (changes ++ put cache key value ∷ []) other_cache other_key
        ≡ value_after changes other_cache other_key }
{}

/// The law of the size: it is the number of pairs that the cache has in the contents. Does nothing.
pub fn size_counts_the_pairs()
    ensures { (changes : List Change) (caches : Caches) (cache : List ℕ)
        → AreContentsAfter changes caches
        → size_after changes cache ≡ length (pairs_in caches cache) }
{}

/// The law of the plain list: it leaves the contents that it lists. Does nothing.
pub fn plain_list_leaves_the_contents()
    ensures { (changes : List Change) (caches : Caches)
        → AreContentsAfter changes caches
        → AreContentsAfter (changes_of (plain_list caches)) caches }
{}

/// The law of growth: a mutation lengthens a store of the contents by at most its growth, if it is no batch or one of 1 to
/// 64 pairs. Does nothing.
pub fn live_grows_at_most()
    ensures { (changes : List Change) (mutation : Mutation) (before after : Caches)
        → HasPairs mutation
        → length (pairs_of mutation) ≤ most_pairs
        → AreContentsAfter changes before
        → AreContentsAfter (changes ++ change_of mutation ∷ []) after
        → live after ≤ live before + growth_of mutation }
{}

/// The law of the one order: two lists of changes have the same contents exactly if their contents are one list of
/// caches. Does nothing.
pub fn contents_have_one_order()
    ensures one { (changes others : List Change) (caches other_caches : Caches)
        → SameContents changes others
        → AreContentsAfter changes caches
        → AreContentsAfter others other_caches
        → caches ≡ other_caches }
    ensures same { (changes others : List Change) (caches : Caches)
        → AreContentsAfter changes caches
        → AreContentsAfter others caches
        → SameContents changes others }
{}
