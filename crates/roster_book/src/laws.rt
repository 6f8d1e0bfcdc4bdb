//! What holds of the definitions: each law is the contract of a function that does nothing.
ghost use Rattle.std.specs.Prelude.{◌≡◌, ◌≢◌, ◌↔◌, ◌<◌, length, Contains, Some};
ghost use Rattle.cache_model.specs.Contents.{IsRising};
ghost use Rattle.roster_form.specs.Membership.{Host, IsRoster, joining_host};
ghost use Rattle.roster_form.specs.Succession.{HasMember};
ghost use Rattle.roster_form.specs.declared.roster.Roster.{Roster};
ghost use Rattle.roster_book.specs.Standing.{members_of};

/// The members are the hosts of the roster that aren't joining, in byte order; and there is one exactly where the roster
/// has a member. Does nothing.
pub fn members_have_joined()
    ensures joined { (roster : Roster) (host : Host) → IsRoster roster → Contains (members_of roster) host ↔ (Contains roster.hosts host × (joining_host roster ≢ Some host)) }
    ensures rise { (roster : Roster) → IsRoster roster → IsRising (members_of roster) }
    ensures some { (roster : Roster) → IsRoster roster → 0 < length (members_of roster) ↔ HasMember roster }
{}
