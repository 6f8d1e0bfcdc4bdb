//! What holds of the definitions: each law is the contract of a function that does nothing.
ghost use Rattle.std.specs.Prelude.{◌≡◌, ◌⊎◌, ℕ, List, ◌∷◌, [], Option, Some, None, Contains};
ghost use Rattle.disk_trait.specs.View.{Image};
ghost use Rattle.seal_gate.specs.Seal.{IsSealed};
ghost use Rattle.newest_store.specs.Newest.{IsNewest};
ghost use Rattle.roster_form.specs.Membership.{Host};
ghost use Rattle.roster_form.specs.RosterText.{IsRosterText};
ghost use Rattle.roster_form.specs.RosterFault.{roster_fault};
ghost use Rattle.roster_form.specs.Shown.{Sights, MayShow, Shows, ShowsOneOf, IsOther, IsEarlier, IsWritingOver};
ghost use Rattle.roster_form.specs.Choice.{Sighting, MayOpenBy};
ghost use Rattle.roster_form.specs.Succession.{Rosters, KeepsRosters, MayPass, Succeeds, IsGoodRoster, IsNextHost, IsShownByAll, ShowsNoMore, ShowsAlso, last_finished, without_writing};
ghost use Rattle.roster_form.specs.declared.roster.Roster.{Roster};

/// A file's bytes are those of one roster, and have no fault; and an image of a service disk shows one thing. Does nothing.
pub fn an_image_shows_one_thing()
    ensures text { (one other : Roster) (bytes : List ℕ) → IsRosterText one bytes → IsRosterText other bytes → one ≡ other }
    ensures whole { (roster : Roster) (bytes : List ℕ) → IsRosterText roster bytes → roster_fault roster.partitions bytes ≡ None }
    ensures shown { (m : Image) (one other : Option Roster) → Shows m one → Shows m other → one ≡ other }
{}

/// While a roster is written to a host, an image shows what was shown before, or this roster. Does nothing.
pub fn a_write_shows_old_or_new()
    // It begins where the other file is the newest, or this one isn't sealed, and only earlier rosters are shown.
    ensures begun { (roster : Roster) (file other : ℕ) (sights : List (Option Roster)) (m : Image) → IsOther file other → (IsSealed (m file) → IsNewest m other)
        → ((shown : Option Roster) → Contains sights shown → IsEarlier shown roster) → ShowsOneOf sights m → IsWritingOver roster file other sights m }
    ensures shows { (roster : Roster) (file other : ℕ) (sights : List (Option Roster)) (m : Image) → IsWritingOver roster file other sights m → ShowsOneOf (Some roster ∷ sights) m }
    ensures written { (roster : Roster) (file other : ℕ) (sights : List (Option Roster)) (m : Image) → IsWritingOver roster file other sights m → IsRosterText roster (m file) → Shows m (Some roster) }
{}

/// Whatever hosts are present, and whatever each shows that it may show: where they may open the cluster, it is by the
/// last finished roster or by the one being written. Does nothing.
pub fn only_two_may_pass()
    ensures { (rosters : Rosters) (sights : Sights) (sightings : List Sighting) (roster : Roster) → KeepsRosters rosters sights
        → ((each : Sighting) → Contains sightings each → MayShow sights each.host each.shown) → MayOpenBy sightings roster → MayPass rosters roster }
{}

/// What happens to rosters keeps them. Does nothing.
pub fn each_step_keeps_rosters()
    // The first roster is made while no host shows one.
    ensures first { (first : Roster) (sights : Sights) → first.epoch ≡ 1 → IsGoodRoster first → ((host : Host) (roster : Roster) → MayShow sights host (Some roster) → ⊥)
        → KeepsRosters (record { finished = []; writing = Some first }) sights }
    // A change begins: nothing is written yet.
    ensures begun { (last : Roster) (older : List Roster) (new : Roster) (sights : Sights) → KeepsRosters (record { finished = last ∷ older; writing = None }) sights
        → Succeeds last new → IsGoodRoster new → KeepsRosters (record { finished = last ∷ older; writing = Some new }) sights }
    // One host, whose turn it is, may show the new roster too.
    ensures written { (rosters : Rosters) (new : Roster) (host : Host) (old now : Sights) → KeepsRosters rosters old → rosters.writing ≡ Some new
        → IsNextHost rosters old new host → ShowsAlso host (Some new) old now → KeepsRosters rosters now }
    // Each of the new roster's hosts shows it and nothing else, as after a write to each that succeeded.
    ensures finished { (finished : List Roster) (new : Roster) (sights : Sights) → KeepsRosters (record { finished = finished; writing = Some new }) sights
        → IsShownByAll sights new → KeepsRosters (record { finished = new ∷ finished; writing = None }) sights }
    ensures shown { (new : Roster) (sights : Sights) → ((host : Host) → Contains new.hosts host → sights host ≡ Some new ∷ []) → IsShownByAll sights new }
    // A change that no host may show is given up.
    ensures given_up { (rosters : Rosters) (new : Roster) (sights : Sights) → KeepsRosters rosters sights → rosters.writing ≡ Some new
        → ((host : Host) → MayShow sights host (Some new) → ⊥) → KeepsRosters (without_writing rosters) sights }
    // A stop leaves fewer choices; a sync and a restart too.
    ensures stopped { (rosters : Rosters) (old new : Sights) → KeepsRosters rosters old → ShowsNoMore old new → KeepsRosters rosters new }
    // A host that isn't of the last finished roster loses its rosters: it may show none, or still what it showed.
    ensures erased { (rosters : Rosters) (host : Host) (old new : Sights) → KeepsRosters rosters old → ((last : Roster) → last_finished rosters ≡ Some last → ¬ Contains last.hosts host)
        → ShowsAlso host None old new → KeepsRosters rosters new }
{}

/// Once each present host shows one thing, and they may open the cluster by the last finished roster, no host at all shows
/// one that was begun after it: a recovery may give that change up. Does nothing.
pub fn a_change_that_lost_was_never_seen()
    ensures { (rosters : Rosters) (sights : Sights) (sightings : List Sighting) (last new : Roster) → KeepsRosters rosters sights → last_finished rosters ≡ Some last → rosters.writing ≡ Some new
        → ((each : Sighting) → Contains sightings each → MayShow sights each.host each.shown) → ((each : Sighting) (shown : Option Roster) → Contains sightings each → MayShow sights each.host shown → shown ≡ each.shown)
        → MayOpenBy sightings last → (host : Host) → MayShow sights host (Some new) → ⊥ }
{}
