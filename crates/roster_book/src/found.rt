//! What was found on a host.
use roster_form::Roster;

/// The roster that a present host shows.
#[derive(Debug, Drop)]
pub struct Found {
    /// The host's index among those of the site, from 0.
    pub host: u16,
    /// The roster in its newest sealed file, if a file is sealed.
    pub roster: Option<Roster>,
}
