// Why a stream refuses a call.
use thiserror::Error;

/// Why a read gave no byte.
#[derive(Clone, Copy, Debug, PartialEq, Eq, Drop, Error)]
pub enum SourceRefusal {
    /// The source failed, and its count of faults rose.
    #[error("the source failed")]
    Failed,
    /// The source is out of memory, and its count stays.
    #[error("the source is out of memory")]
    NoMemory,
}

/// Why a write took no byte.
#[derive(Clone, Copy, Debug, PartialEq, Eq, Drop, Error)]
pub enum SinkRefusal {
    /// The sink failed, and its count of faults rose.
    #[error("the sink failed")]
    Failed,
    /// The sink is out of memory, and its count stays.
    #[error("the sink is out of memory")]
    NoMemory,
}
