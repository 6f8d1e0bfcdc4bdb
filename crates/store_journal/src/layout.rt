//! Where the parts of a store's file stand.
use seal_gate::HEADER_END;

/// Where the header begins, after the seal.
pub(crate) const HEADER_START: usize = 1;

/// Where the first gate stands, after the header.
pub(crate) const FIRST_GATE: usize = HEADER_END as usize;
