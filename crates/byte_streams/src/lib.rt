//! Byte streams: the source of a script and the sink of a report.
//!
//! Seen as: a source by the bytes that are left, a sink by the bytes written, and both by a count of
//! faults. A stream may tell no bytes; then its clauses on bytes say nothing.
//! Keeps: bytes come in order, each once. `Failed` is answered only where the count rose in that call, and any other
//! answer leaves the count. A write that is answered Ok takes at least one byte of a piece that has one.
//! Hides: how many bytes a call moves; `write_all` makes as many calls as a text needs.
//! In memory: `MemorySource`, `MemorySink`, which tell their bytes and fail where their plan says so.
//! Outside: `StandardSource` over any reader of std, `StandardSink` over any writer. They tell what those tell, which is
//! nothing for the standard input and output, and count their errors as faults, out of memory aside.
//! Not here: what the bytes say, and where a line ends.
//! Laws: StreamsLemmas (what was added to a sink by one text after another).
#![tactic(auto)]

mod fault;
mod memory_sink;
mod memory_source;
mod sink;
mod source;
mod standard;

pub use fault::{SinkRefusal, SourceRefusal};
pub use memory_sink::MemorySink;
pub use memory_source::MemorySource;
pub use sink::{Sink, write_all};
pub use source::Source;
pub use standard::{StandardSink, StandardSource};
