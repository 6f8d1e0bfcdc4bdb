//! Why a line is no command, in words for a person.
use cache_key::{Excerpt, MOST_PAIRS, TextReason};
use std::fmt;

/// Lists and objects nest at most this deep.
pub(crate) const MOST_DEPTH: u32 = 127;

/// Why a line is no command.
///
/// Columns count bytes from 1. `event` counts events from 1, and `pair` the pairs of an event. Of several members with one
/// name the last one counts.
#[derive(Clone, Copy, Debug, Drop)]
pub enum LineReason {
    /// It begins with a byte-order mark.
    ByteOrderMark,
    /// It begins with `#` or `//`, perhaps after blanks.
    Comment,
    /// It has nothing but blanks.
    Blank,
    /// The character at this column is the first that isn't UTF-8.
    NotUtf8 {
        column: usize,
    },
    /// It ends before its JSON does.
    CutShort,
    /// The reader of JSON stopped at this column.
    NotJson {
        column: usize,
    },
    /// Something stands at this column, after the end of a list or an object.
    Following {
        column: usize,
    },
    /// Lists and objects nest too deep from this column on.
    TooDeep {
        column: usize,
    },
    /// It is JSON, and not an object.
    NotObject,
    /// The object lacks this member.
    Missing {
        part: Part,
    },
    /// The command has no such member.
    UnknownMember {
        command: CommandName,
        found: Excerpt,
    },
    /// No command has this name.
    UnknownCommand {
        found: Excerpt,
    },
    /// This part is not a text.
    NotText {
        part: Part,
    },
    /// This part is not a list.
    NotList {
        part: Part,
    },
    /// This part is not a whole number from 0 to 65535.
    NotNumber {
        part: Part,
    },
    /// This text is no name, key or value.
    BadText {
        part: Part,
        reason: TextReason,
    },
    /// The list of hosts has this many items.
    HostCount {
        count: usize,
    },
    /// This event is an empty list.
    EmptyEvent {
        event: usize,
    },
    /// No event has this name.
    UnknownEvent {
        event: usize,
        found: Excerpt,
    },
    /// This event has this many items after its name, too few or too many.
    ItemCount {
        event: usize,
        name: EventName,
        count: usize,
    },
    /// This event has this many pairs, none or too many.
    PairCount {
        event: usize,
        count: usize,
    },
    /// This pair of the event has this many items, too few or too many.
    PairItemCount {
        event: usize,
        pair: usize,
        count: usize,
    },
}

/// A part of a line.
#[derive(Clone, Copy, Debug, PartialEq, Eq, Drop)]
pub enum Part {
    /// The member that names the command.
    Do,
    /// The member `host`.
    Host,
    /// The member `hosts`.
    Hosts,
    /// The name in the list of hosts.
    OnlyHost,
    /// The member `events`.
    Events,
    /// An event.
    Event { event: usize },
    /// The name of an event.
    EventName { event: usize },
    /// The cache that an event asks.
    Cache { event: usize },
    /// The key of an event.
    Key { event: usize },
    /// The value of an event.
    Value { event: usize },
    /// The partition of an event.
    Partition { event: usize },
    /// The list of pairs of an event.
    Pairs { event: usize },
    /// A pair of an event.
    Pair { event: usize, pair: usize },
    /// The key of a pair.
    PairKey { event: usize, pair: usize },
    /// The value of a pair.
    PairValue { event: usize, pair: usize },
}

/// The name of a command.
#[derive(Clone, Copy, Debug, PartialEq, Eq, Drop)]
pub enum CommandName {
    Create,
    Dump,
    Recover,
    Steps,
    Stop,
}

/// The name of an event.
#[derive(Clone, Copy, Debug, PartialEq, Eq, Drop)]
pub enum EventName {
    Get,
    Put,
    Remove,
    Size,
    Ensure,
    Truncate,
    Destroy,
    PutAll,
    Renew,
}

impl CommandName {
    /// The command of this name, if there is one.
    pub(crate) fn of(name: &str) -> Option<Self> {
        match name {
            "create" => Some(CommandName::Create),
            "dump" => Some(CommandName::Dump),
            "recover" => Some(CommandName::Recover),
            "steps" => Some(CommandName::Steps),
            "stop" => Some(CommandName::Stop),
            _ => None,
        }
    }
}

impl EventName {
    ghost use Rattle.std.specs.Prelude.{◌≡◌, MatchOption};
    ghost use Rattle.script_lines.specs.Reading.{event_word};
    ghost use Rattle.script_lines.specs.declared.reason.EventName.{EventName};

    /// The event of this name, if there is one.
    pub(crate) fn of(name: &str) -> Option<Self>
        ensures { MatchOption result ((other : EventName) → name.now ≡ event_word other → ⊥) (λ found. name.now ≡ event_word found) }
    {
        match name {
            "get" => Some(EventName::Get),
            "put" => Some(EventName::Put),
            "remove" => Some(EventName::Remove),
            "size" => Some(EventName::Size),
            "ensure" => Some(EventName::Ensure),
            "truncate" => Some(EventName::Truncate),
            "destroy" => Some(EventName::Destroy),
            "putAll" => Some(EventName::PutAll),
            "renew" => Some(EventName::Renew),
            _ => None,
        }
    }
}

impl fmt::Display for LineReason {
    fn fmt<W: fmt::Write>(&self, f: &mut fmt::Formatter<W>) -> fmt::Result {
        match self {
            LineReason::ByteOrderMark => write!(f, "it begins with a byte-order mark"),
            LineReason::Comment => write!(f, "it is a comment, and a script has none"),
            LineReason::Blank => write!(f, "it is blank"),
            LineReason::NotUtf8 { column } => write!(f, "it is not UTF-8 at column {column}"),
            LineReason::CutShort => write!(f, "it ends before its JSON does"),
            LineReason::NotJson { column } => write!(
                f,
                "it is not JSON: reading stopped at column {column}"
            ),
            LineReason::Following { column } => write!(
                f,
                "something follows the command at column {column}, and a line is one command"
            ),
            LineReason::TooDeep { column } => write!(
                f,
                "lists and objects nest deeper than {MOST_DEPTH} at column {column}"
            ),
            LineReason::NotObject => write!(f, "it is not an object"),
            LineReason::Missing { part } => write!(f, "{part} is missing"),
            LineReason::UnknownMember { command, found } => {
                write!(f, "{command} has no member {found}")
            }
            LineReason::UnknownCommand { found } => write!(
                f,
                "unknown command {found}; the commands are create, dump, recover, steps, stop"
            ),
            LineReason::NotText { part } => write!(f, "{part} is not a text"),
            LineReason::NotList { part } => write!(f, "{part} is not a list"),
            LineReason::NotNumber { part } => {
                write!(f, "{part} is not a whole number from 0 to {}", u16::MAX)
            }
            LineReason::BadText { part, reason } => write!(f, "{part} {reason}"),
            LineReason::HostCount { count } => {
                write!(f, "the member \"hosts\" needs 1 item, and has {count}")
            }
            LineReason::EmptyEvent { event } => write!(f, "event {event} is empty"),
            LineReason::UnknownEvent { event, found } => write!(
                f,
                "event {event} has the unknown name {found}; the events are get, put, remove, size, ensure, truncate, destroy, putAll, renew"
            ),
            LineReason::ItemCount { event, name, count } => {
                write!(f, "event {event} needs {name}, and has {count}")
            }
            LineReason::PairCount { event, count } => {
                write!(
                    f,
                    "event {event} needs 1 to {MOST_PAIRS} pairs, and has {count}"
                )
            }
            LineReason::PairItemCount { event, pair, count } => write!(
                f,
                "pair {pair} of event {event} needs 2 items, the key and the value, and has {count}"
            ),
        }
    }
}

impl fmt::Display for Part {
    fn fmt<W: fmt::Write>(&self, f: &mut fmt::Formatter<W>) -> fmt::Result {
        match self {
            Part::Do => write!(f, "the member \"do\""),
            Part::Host => write!(f, "the member \"host\""),
            Part::Hosts => write!(f, "the member \"hosts\""),
            Part::OnlyHost => write!(f, "the name in \"hosts\""),
            Part::Events => write!(f, "the member \"events\""),
            Part::Event { event } => write!(f, "event {event}"),
            Part::EventName { event } => write!(f, "the name of event {event}"),
            Part::Cache { event } => write!(f, "the cache of event {event}"),
            Part::Key { event } => write!(f, "the key of event {event}"),
            Part::Value { event } => write!(f, "the value of event {event}"),
            Part::Partition { event } => write!(f, "the partition of event {event}"),
            Part::Pairs { event } => write!(f, "the third item of event {event}"),
            Part::Pair { event, pair } => write!(f, "pair {pair} of event {event}"),
            Part::PairKey { event, pair } => write!(f, "the key of pair {pair} of event {event}"),
            Part::PairValue { event, pair } => {
                write!(f, "the value of pair {pair} of event {event}")
            }
        }
    }
}

impl fmt::Display for CommandName {
    fn fmt<W: fmt::Write>(&self, f: &mut fmt::Formatter<W>) -> fmt::Result {
        match self {
            CommandName::Create => write!(f, "create"),
            CommandName::Dump => write!(f, "dump"),
            CommandName::Recover => write!(f, "recover"),
            CommandName::Steps => write!(f, "steps"),
            CommandName::Stop => write!(f, "stop"),
        }
    }
}

/// Shown, it is what an event of this name needs.
impl fmt::Display for EventName {
    fn fmt<W: fmt::Write>(&self, f: &mut fmt::Formatter<W>) -> fmt::Result {
        match self {
            EventName::Get => write!(f, "2 items after \"get\", the cache and the key"),
            EventName::Put => {
                write!(f, "3 items after \"put\", the cache, the key and the value")
            }
            EventName::Remove => write!(f, "2 items after \"remove\", the cache and the key"),
            EventName::Size => write!(f, "1 item after \"size\", the cache"),
            EventName::Ensure => write!(f, "1 item after \"ensure\", the cache"),
            EventName::Truncate => write!(f, "1 item after \"truncate\", the cache"),
            EventName::Destroy => write!(f, "1 item after \"destroy\", the cache"),
            EventName::PutAll => {
                write!(
                    f,
                    "2 items after \"putAll\", the cache and the list of pairs"
                )
            }
            EventName::Renew => write!(f, "1 item after \"renew\", the partition"),
        }
    }
}
