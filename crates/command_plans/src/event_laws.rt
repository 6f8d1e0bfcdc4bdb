//! What events keep of an open cluster, and what they change: each law is the contract of a function that does nothing.
ghost use Rattle.std.specs.Prelude.{◌≡◌, ◌++◌, ℕ, List, [], ◌∷◌, Option, Some, None};
ghost use Rattle.cache_key.specs.declared.request.Reply.{Reply};
ghost use Rattle.cache_key.specs.declared.request.Request.{Request};
ghost use Rattle.cache_key.specs.declared.request.Mutation.{Mutation};
ghost use Rattle.cache_model.specs.Change.{Change, change_of};
ghost use Rattle.cache_model.specs.Reply.{mutation_of, reply_after};
ghost use Rattle.cluster_model.specs.Memory.{Setting};
ghost use Rattle.command_plans.specs.Asked.{SiteEvent, SiteAnswer, replied};
ghost use Rattle.command_plans.specs.Kept.{IsSite, KeepsOpen, answered_in, OthersAreAsAnswered};
ghost use Rattle.command_plans.specs.Stage.{OpenSite, opened, RunStage, RunState};
ghost use Rattle.command_plans.specs.Steps.{PartFollows, EventsRun, EventsBreakOff};

/// Events keep an open cluster, whatever they are answered, and wherever they are broken off. Does nothing.
pub fn events_keep_the_cluster()
    ensures run { (setting : Setting) (site : OpenSite) (old new : RunState) (events : List SiteEvent) (answers : List SiteAnswer) → IsSite setting.shape → KeepsOpen setting.shape site → old.stage ≡ opened site
        → EventsRun setting old events answers new → (after : OpenSite) × (new.stage ≡ opened after) × KeepsOpen setting.shape after }
    ensures broken { (setting : Setting) (site : OpenSite) (old : RunState) (events : List SiteEvent) (stage : RunStage) → IsSite setting.shape → KeepsOpen setting.shape site → old.stage ≡ opened site
        → EventsBreakOff setting old events stage → (after : OpenSite) × (stage ≡ opened after) × KeepsOpen setting.shape after }
{}

/// A part of a request that is replied to is answered by the changes of its partition before it: a mutation's change is then the
/// last of them, and a read leaves them. Whatever else it is answered leaves them too; those of other partitions stay. Does
/// nothing.
pub fn a_reply_is_entered()
    ensures mutation { (setting : Setting) (site after : OpenSite) (old new : RunState) (part : ℕ × Request) (mutation : Mutation) (reply : Reply) → old.stage ≡ opened site → new.stage ≡ opened after → mutation_of part.1 ≡ Some mutation
        → PartFollows setting old part (replied reply) new
        → (changes : List Change) × (answered_in site part.0 ≡ Some changes) × (answered_in after part.0 ≡ Some (changes ++ change_of mutation ∷ [])) × (reply ≡ reply_after changes part.1) }
    ensures read { (setting : Setting) (site after : OpenSite) (old new : RunState) (part : ℕ × Request) (reply : Reply) → old.stage ≡ opened site → new.stage ≡ opened after → mutation_of part.1 ≡ None → PartFollows setting old part (replied reply) new
        → (changes : List Change) × (answered_in site part.0 ≡ Some changes) × (answered_in after part.0 ≡ Some changes) × (reply ≡ reply_after changes part.1) }
    ensures refused { (setting : Setting) (site after : OpenSite) (old new : RunState) (part : ℕ × Request) (answer : SiteAnswer) → old.stage ≡ opened site → new.stage ≡ opened after → ((reply : Reply) → answer ≡ replied reply → ⊥)
        → PartFollows setting old part answer new → answered_in after part.0 ≡ answered_in site part.0 }
    ensures others { (setting : Setting) (site after : OpenSite) (old new : RunState) (part : ℕ × Request) (answer : SiteAnswer) → old.stage ≡ opened site → new.stage ≡ opened after → PartFollows setting old part answer new
        → OthersAreAsAnswered part.0 site after }
{}
