//! Why a text is no name, key or value, in words for a person.
ghost use Rattle.std.specs.Prelude.{◌≡◌, ◌↔◌, IsNone};

use crate::fault::NameFault;
use std::fmt;
use std::fmt::InlineText;

/// How much of a text an excerpt shows, in bytes.
const EXCERPT_BYTES: usize = 32;

/// Why a text is no name, key or value.
///
/// Shown, it is a sentence without its subject, as "is empty".
#[derive(Clone, Copy, Debug, PartialEq, Eq, Drop)]
pub enum TextReason {
    /// It has no byte.
    Empty,
    /// It has more than this many bytes.
    Long { most: usize },
    /// The first byte outside the alphabet of names, with its offset from 0.
    BadByte { offset: u32, byte: u8 },
}

impl TextReason {
    /// The reason of a fault of this text, which may have `most` bytes. None if memory ran out.
    pub fn of(fault: NameFault, text: &str, most: usize) -> Option<Self>
        ensures { IsNone result ↔ (fault ≡ NameFault.NoMemory) }
    {
        match fault {
            NameFault::Empty => Some(TextReason::Empty),
            NameFault::Long => Some(TextReason::Long { most }),
            NameFault::BadByte(offset) => Some(TextReason::BadByte {
                offset,
                byte: byte_at(text, offset),
            }),
            NameFault::NoMemory => None,
        }
    }
}

impl fmt::Display for TextReason {
    fn fmt<W: fmt::Write>(&self, f: &mut fmt::Formatter<W>) -> fmt::Result {
        match self {
            TextReason::Empty => write!(f, "is empty"),
            TextReason::Long { most } => write!(f, "is longer than {most} bytes"),
            TextReason::BadByte { offset, byte } => write!(
                f,
                "has the byte {byte:#04x} at offset {offset} (a name has A-Z a-z 0-9 _ . - alone)"
            ),
        }
    }
}

/// The beginning of a text, to show a person what was found. Shown, it has quotes and escapes.
#[derive(Clone, Copy)]
pub struct Excerpt {
    text: InlineText<EXCERPT_BYTES>,
}

impl Excerpt {
    /// The text, cut with three dots where it has more than 32 bytes. Takes no memory.
    pub fn of(text: &str) -> Self {
        Excerpt {
            text: InlineText::of(text),
        }
    }
}

impl fmt::Display for Excerpt {
    fn fmt<W: fmt::Write>(&self, f: &mut fmt::Formatter<W>) -> fmt::Result {
        write!(f, "{:?}", self.text.as_str())
    }
}

impl fmt::Debug for Excerpt {
    fn fmt<W: fmt::Write>(&self, f: &mut fmt::Formatter<W>) -> fmt::Result {
        write!(f, "{self}")
    }
}

/// The byte at the offset, or 0 if the text ends before it.
fn byte_at(text: &str, offset: u32) -> u8 {
    text.as_bytes().get(offset as usize).copied().unwrap_or(0)
}
