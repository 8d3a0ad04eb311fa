// What an insert and a compaction do.

// How many copies an insert made, the new used count and the new next identity.
#[derive(Clone, Copy, Debug, PartialEq, Eq)]
pub struct Inserted {
    pub copies: usize,
    pub used: usize,
    pub next: usize,
}

// The new used count of a compaction, and how many nodes it dropped.
#[derive(Clone, Copy, Debug, PartialEq, Eq)]
pub struct Compacted {
    pub used: usize,
    pub dropped: usize,
}
