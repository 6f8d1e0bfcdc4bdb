//! Why arguments plan no run, in words for a person.
use crate::words::LAST_IMAGE;
use cache_key::{Excerpt, TextReason};
use std::fmt;

/// Why arguments plan no run. Arguments count from 1, after the program's own name.
#[derive(Clone, Copy, Debug, Drop)]
pub enum WordReason {
    /// The arguments end before this one.
    Missing {
        number: usize,
        expected: Expected,
    },
    /// This argument is not the expected one.
    Other {
        number: usize,
        found: Excerpt,
        expected: Expected,
    },
    /// This argument is no name of a host.
    BadHost {
        number: usize,
        reason: TextReason,
    },
}

/// What was expected in place of an argument.
#[derive(Clone, Copy, Debug, PartialEq, Eq, Drop)]
pub enum Expected {
    /// `steps`.
    Steps,
    /// `--hosts`.
    Hosts,
    /// The name of the host, which doesn't begin with `-`.
    Host,
    /// `--partitions`.
    Partitions,
    /// `1`.
    One,
    /// `--cut`, `--pick` or no argument.
    CutOrPick,
    /// `NAME/0/CALL` with the name of the host.
    Cut,
    /// `NAME/0/CALL` with a call in range.
    Call,
    /// `--pick` or no argument.
    Pick,
    /// The number of an image.
    Image,
    /// No argument.
    End,
}

impl fmt::Display for WordReason {
    fn fmt<W: fmt::Write>(&self, f: &mut fmt::Formatter<W>) -> fmt::Result {
        match self {
            WordReason::Missing { number, expected } => {
                write!(f, "argument {number} is missing; expected {expected}")
            }
            WordReason::Other {
                number,
                found,
                expected,
            } => write!(f, "argument {number} is {found}; expected {expected}"),
            WordReason::BadHost { number, reason } => {
                write!(f, "argument {number}, the host's name, {reason}")
            }
        }
    }
}

impl fmt::Display for Expected {
    fn fmt<W: fmt::Write>(&self, f: &mut fmt::Formatter<W>) -> fmt::Result {
        match self {
            Expected::Steps => write!(f, "steps"),
            Expected::Hosts => write!(f, "--hosts"),
            Expected::Host => write!(f, "the name of a host, which does not begin with -"),
            Expected::Partitions => write!(f, "--partitions"),
            Expected::One => write!(f, "1"),
            Expected::CutOrPick => write!(f, "--cut, --pick or nothing more"),
            Expected::Cut => write!(f, "NAME/0/CALL with the name of the host"),
            Expected::Call => write!(
                f,
                "NAME/0/CALL with a call from 1 to {}, without a leading zero",
                u64::MAX
            ),
            Expected::Pick => write!(f, "--pick or nothing more"),
            Expected::Image => write!(f, "a number from 0 to {LAST_IMAGE}"),
            Expected::End => write!(f, "nothing more"),
        }
    }
}
