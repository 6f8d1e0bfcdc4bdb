//! A file of a service disk.

/// A file of a service disk: which host's, and which of its files.
#[derive(Clone, Copy, Debug, PartialEq, Eq, Drop)]
pub struct Place {
    /// The host's index among those of the site, from 0.
    pub host: u16,
    /// The number of the file.
    pub file: u8,
}
