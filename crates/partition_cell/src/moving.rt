//! A store that is being built.
use store_build::Build;

/// A store that is being built on a host.
#[derive(Drop)]
pub struct Moving {
    /// The number of the host.
    pub host: u16,
    pub build: Build,
    /// Whether the whole build was made durable.
    pub settled: bool,
}
