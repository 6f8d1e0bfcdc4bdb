//! What a verdict says, in terms of what the present hosts show: each law is the contract of a function that does nothing.
ghost use Rattle.std.specs.Prelude.{◌≡◌, ◌↔◌, ℕ, false, List, Some, None, Contains};
ghost use Rattle.roster_form.specs.Membership.{Host};
ghost use Rattle.roster_form.specs.Choice.{Sighting, chosen_roster, is_back};
ghost use Rattle.roster_form.specs.declared.roster.Roster.{Roster};
ghost use Rattle.quorum.specs.Best.{IsBest};
ghost use Rattle.quorum.specs.Judged.{verdict_of, MayOpenAs};
ghost use Rattle.quorum.specs.declared.verdict.Verdict.TheVariants.{Met, Short, NotCreated};

/// The verdict is met exactly where the present hosts may open the cluster, is not created exactly where none shows a
/// roster, and names exactly the recorded hosts that aren't back. Does nothing.
pub fn verdict_is_exact()
    ensures met { (sightings : List Sighting) (epoch : ℕ) (hosts : List Host) → verdict_of sightings ≡ Met epoch hosts ↔ MayOpenAs sightings epoch hosts }
    ensures none { (sightings : List Sighting) → verdict_of sightings ≡ NotCreated ↔ ((each : Sighting) → Contains sightings each → each.shown ≡ None) }
    ensures missing { (sightings : List Sighting) (hosts : List Host) → verdict_of sightings ≡ Short hosts
        → (roster : Roster) × (chosen_roster sightings ≡ Some roster) × ((host : Host) → Contains hosts host ↔ (Contains roster.hosts host × (is_back roster sightings host ≡ false))) }
{}

/// The chosen roster is the best of those that are shown: it has the greatest epoch, and of those with that epoch it is the
/// first host's. Does nothing.
pub fn the_best_roster_is_chosen()
    ensures { (sightings : List Sighting) (roster : Roster) → chosen_roster sightings ≡ Some roster ↔ IsBest sightings roster }
{}
