//! Laws of replies, each the contract of a function that does nothing.
ghost use Rattle.std.specs.Prelude.{◌≡◌, List, [], ◌∷◌, ◌++◌};
ghost use Rattle.cache_key.specs.declared.request.Request.{Request};
ghost use Rattle.cache_model.specs.Caches.{Caches};
ghost use Rattle.cache_model.specs.Change.{Change};
ghost use Rattle.cache_model.specs.Contents.{AreContentsAfter};
ghost use Rattle.cache_model.specs.Reply.{changes_asked, reply_after};
ghost use Rattle.call_trail.specs.Trails.{trail_changes};
ghost use Rattle.call_trail.specs.declared.entry.Entry.{Entry};

/// After two lists of changes that leave the same contents a request is replied the same; and an entry more changes what its
/// request asks.
pub fn the_same_contents_reply_the_same()
    ensures reply { (changes others : List Change) (caches : Caches) (request : Request)
        → AreContentsAfter changes caches → AreContentsAfter others caches
        → reply_after changes request ≡ reply_after others request }
    ensures more { (base : Caches) (entries : List Entry) (entry : Entry)
        → trail_changes base (entries ++ entry ∷ []) ≡ trail_changes base entries ++ changes_asked entry.request }
{}
