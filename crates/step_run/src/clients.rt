// The clients of a schedule.
use maint_client::{Collector, Expirer};
use merge_client::Compactor;
use read_client::Reader;
use write_client::Writer;

/// A client that a schedule has made.
#[derive(Drop)]
pub enum Client {
    Writer(Writer),
    Reader(Reader),
    Compactor(Compactor),
    Collector(Collector),
    Expirer(Expirer),
}
