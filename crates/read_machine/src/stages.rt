// Where a reading stands.
use store_core::PartKey;

/// What a reading does next.
#[derive(Clone, Copy, Drop)]
pub enum Stage {
    /// A scan, which shows what there is to be read.
    Scan,
    /// A get of the next part.
    Get,
    /// A scan that tells why no bytes lie under this key.
    Check { key: PartKey },
}
