// The clients that a schedule makes.

/// A client that a line of a schedule makes.
#[derive(Clone, Copy, Debug)]
pub enum Made {
    Writer,
    Reader { lease: u64 },
    Compactor { lease: u64 },
    Collector,
    Expirer,
}
