// The limits of documents 01 and 02, each named once.

// Steps of a pattern.
pub const STEP_LIMIT: usize = 255;

// Nodes of an inserted tree, of a tree that is written as tags, and of a proposed tree.
pub const TREE_LIMIT: usize = 1024;

// Used nodes of a document.
pub const USED_LIMIT: usize = 4096;

// Steps and nodes that the plain reading takes.
pub const PLAIN_STEPS: usize = 8;

pub const PLAIN_NODES: usize = 16;

// Frames and words of a batch.
pub const FRAME_LIMIT: usize = 128;

pub const BATCH_LIMIT: usize = 16384;

// Digits of a line.
pub const DIGIT_LIMIT: usize = 10244;

// Names of a list.
pub const NAME_LIMIT: usize = 256;

// Numbers that a word can hold.
pub const WORD_LIMIT: usize = 65536;

// The greatest number that the next identity can be: 32 bits hold no greater one.
pub const IDENTITY_LIMIT: usize = 4294967295;
