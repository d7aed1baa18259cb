// MergeAnswer: what a compactor answers.

/// What a compactor answers to a command. `LegalMerge` in specs/ says of each where it may come.
#[derive(Drop)]
pub enum MergeAnswer {
    /// The compactor joined with this member, as this version.
    Opened { member: u64, version: u64 },
    /// In this version, the last one then, as many members stand as can.
    MembersFull { version: u64 },
    /// The pair that was due was merged, as this version.
    Merged { version: u64 },
    /// No pair was due in this version, the last one then.
    NothingDue { version: u64 },
    /// In this version, the last one then, the pair no longer stands, and the merge that was tried isn't in.
    Superseded { version: u64 },
    /// The lease began again, as this version.
    Renewed { version: u64 },
    /// The compactor left as this version, or was gone already in this one.
    Closed { version: u64 },
    /// The member was gone in this version, the last one then.
    Expired { version: u64 },
}
