//! The command `run`: a feed from a source, and its replies to a sink, over one store.
#![tactic(auto)]

mod collections;
mod compacting;
mod drives;
mod endings;
mod places;
mod readings;
mod run_faults;
mod runs;
mod session_faults;
mod sessions;

pub use collections::PlainCollection;
pub use compacting::{collect_once, merge_all};
pub use endings::Ending;
pub use places::Place;
pub use readings::{advance_reader, close_reader, open_reader, read_listen, read_snapshot};
pub use runs::run;
pub use session_faults::SessionFault;
