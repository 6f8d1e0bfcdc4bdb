//! Why a text is no identifier.

/// Why a text is no identifier. Offsets count bytes from 0.
///
/// A text has either fault: its numbers are judged by their ranges only if the whole text has the form.
#[derive(Clone, Copy, Debug, PartialEq, Eq, Drop)]
pub enum IdFault {
    /// The byte at this offset can't stand there, or the text ends there too early.
    Form { at: u64 },
    /// The number that begins at this offset is the first one out of its range.
    Range { at: u64 },
}
