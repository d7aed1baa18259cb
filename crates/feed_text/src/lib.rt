//! The texts that programs read and write: streams of bytes, the feed of `run` line by line, and its replies.
#![tactic(auto)]

mod adapters;
mod command_lines;
mod feed_line_lists;
mod feed_lines;
mod feed_readers;
mod feeds;
pub mod laws;
mod limits;
mod line_cuts;
mod line_faults;
mod mem_sinks;
mod mem_sources;
mod numbers;
mod parsing;
mod printing;
mod read_faults;
mod reading;
mod replies;
mod row_lines;
mod sinks;
mod sources;

pub use adapters::{ReaderSource, WriterSink};
pub use command_lines::append_head;
pub use feed_line_lists::FeedLines;
pub use feed_lines::FeedLine;
pub use feeds::Feed;
pub use limits::{MAX_BYTES, MAX_COMMANDS, MAX_ROWS};
pub use line_cuts::{cut_at, next_line};
pub use line_faults::LineFault;
pub use mem_sinks::MemSink;
pub use mem_sources::MemSource;
pub use numbers::number;
pub use parsing::{looked_at, parse_feed};
pub use printing::{print_line_fault, print_reply};
pub use read_faults::ReadFault;
pub use reading::read_up_to;
pub use replies::RunReply;
pub use row_lines::row;
pub use sinks::{Sink, SinkFault, put_all};
pub use sources::{Source, SourceFault};
