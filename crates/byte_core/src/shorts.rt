// Short: bytes that end too soon.

/// The bytes end before a field is whole. The place is the field's first byte, counted from 0. (docs/DEFINITIONS.md, "Parts".)
#[derive(Debug, Drop)]
pub struct Short {
    pub place: u64,
}
