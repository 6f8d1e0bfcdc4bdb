//! What the computed contents are: each law is the contract of a function that does nothing.
ghost use Rattle.std.specs.Prelude.{List};
ghost use Rattle.cache_key.specs.declared.request.Mutation.{Mutation};
ghost use Rattle.cache_model.specs.Change.{changes_of};
ghost use Rattle.cache_model.specs.Contents.{AreContentsAfter, SameContents};
ghost use Rattle.command_plans.specs.Canonical.{contents_of, canonical_list};

use cache_model::plain_list_leaves_the_contents;

/// The contents that are computed of mutations are those after them, in the one order, and their canonical list leaves the same. Does
/// nothing.
pub fn the_computed_contents_are_those()
    ensures contents { (mutations : List Mutation) → AreContentsAfter (changes_of mutations) (contents_of (changes_of mutations)) }
    ensures list { (mutations : List Mutation) → SameContents (changes_of (canonical_list (changes_of mutations))) (changes_of mutations) }
{
    plain_list_leaves_the_contents();
}
