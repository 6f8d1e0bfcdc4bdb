//! What holds throughout the acts of a command: each law is the contract of a function that does nothing.
ghost use Rattle.std.specs.Prelude.{◌≡◌, ◌++◌, ℕ, List, ◌∷◌, [], Some, None};
ghost use Rattle.cache_model.specs.Change.{Change};
ghost use Rattle.roster_form.specs.Membership.{Host};
ghost use Rattle.roster_form.specs.declared.roster.Roster.{Roster};
ghost use Rattle.roster_form.specs.Shown.{MayShow};
ghost use Rattle.roster_form.specs.Succession.{Succeeds, IsGoodRoster};
ghost use Rattle.cluster_model.specs.Lane.{HostedStore, LaneStanding, HasOneFlight};
ghost use Rattle.cluster_model.specs.LaneSteps.{standing_for, with_doubt};
ghost use Rattle.cluster_model.specs.Agreement.{two_of, Durable, KeepsSite};
ghost use Rattle.cluster_model.specs.Acts.{SiteHost, Act, appended, AreCutShort, KeepsRostersAt, KeepsRostersThroughout};
ghost use Rattle.cluster_model.specs.Carried.{IsCarriedOver};
ghost use Rattle.cluster_model.specs.Site.{SiteShape, SiteImage};
ghost use Rattle.cluster_model.specs.Turns.{AreInTurn, ReachesAll, change_acts, rest_acts};

/// Wherever acts are cut short, by a fault or by a stop, the rosters are kept that are kept throughout them; and of a
/// partition one group is in flight. Does nothing.
pub fn acts_may_be_cut_short()
    ensures rosters { (acts : List Act) (durable kept : Durable) → AreCutShort acts durable kept → KeepsRostersThroughout acts durable → KeepsRostersAt kept }
    ensures appending { (standing : LaneStanding) (group : List Change) (size : ℕ) → standing.perhaps ≡ [] → HasOneFlight (with_doubt standing (appended standing.store group size)) }
    ensures sealing { (standing : LaneStanding) (store : HostedStore) → HasOneFlight standing → store.changes ≡ standing.store.changes → HasOneFlight (with_doubt standing store) }
    ensures sealed { (store : HostedStore) → HasOneFlight (standing_for store) }
{}

/// A change of the roster keeps the rosters before, within and after each of its acts, where it is written to each of its
/// hosts, and to those of the last roster first. Does nothing.
pub fn changes_keep_rosters()
    ensures change { (last new : Roster) (older : List Roster) (hosts : List SiteHost) (durable : Durable) → durable.rosters ≡ record { finished = last ∷ older; writing = None } → KeepsRostersAt durable → Succeeds last new → IsGoodRoster new
        → AreInTurn last new [] hosts → ReachesAll new hosts → KeepsRostersThroughout (change_acts new hosts) durable }
    // A join: the host joins, and then it has joined.
    ensures join { (last joined settled : Roster) (older : List Roster) (hosts others : List SiteHost) (durable : Durable) → durable.rosters ≡ record { finished = last ∷ older; writing = None } → KeepsRostersAt durable
        → Succeeds last joined → IsGoodRoster joined → AreInTurn last joined [] hosts → ReachesAll joined hosts
        → Succeeds joined settled → IsGoodRoster settled → AreInTurn joined settled [] others → ReachesAll settled others → KeepsRostersThroughout (change_acts joined hosts ++ change_acts settled others) durable }
    // The rest of a change, in the cluster that began it or in a recovery: the roster goes to those that may lack it.
    ensures rest { (last new : Roster) (older : List Roster) (hosts : List SiteHost) (durable : Durable) → durable.rosters ≡ record { finished = last ∷ older; writing = Some new } → KeepsRostersAt durable → AreInTurn last new [] hosts
        → ReachesAll new hosts → KeepsRostersThroughout (rest_acts new hosts durable.sights) durable }
    ensures creation { (first : Roster) (host : SiteHost) (durable : Durable) → durable.rosters ≡ record { finished = []; writing = None } → first.epoch ≡ 1 → IsGoodRoster first → first.hosts ≡ host.name ∷ []
        → ((other : Host) (roster : Roster) → MayShow durable.sights other (Some roster) → ⊥) → KeepsRostersThroughout (change_acts first (host ∷ [])) durable }
{}

/// Where the acts of a plan are carried out over images of the site, each as the contracts of its calls say of one disk, the
/// invariant of the site is kept: after all of them, and wherever they are cut short, lanes included. Does nothing.
pub fn a_plan_keeps_the_site()
    ensures { (shape : SiteShape) (acts : List Act) (durable kept : Durable) (old new : SiteImage) → KeepsSite shape durable (two_of durable.rosters) old → KeepsRostersThroughout acts durable
        → IsCarriedOver shape acts durable kept old new → KeepsSite shape kept (two_of kept.rosters) new }
{}
