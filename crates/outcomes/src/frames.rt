// A frame of a batch.

// The extent of a frame: its kind (1 read, 2 insert, 3 delete), where its steps begin, how many steps and nodes it has, where it ends.
#[derive(Clone, Copy, Debug, PartialEq, Eq)]
pub struct Extent {
    pub kind: usize,
    pub from: usize,
    pub steps: usize,
    pub nodes: usize,
    pub next: usize,
}
