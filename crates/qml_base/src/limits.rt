//! The limits of the engine.

/// The greatest magnitude of a number, 2^53.
pub const NUMBER_LIMIT: u64 = 9_007_199_254_740_992;

/// The most bytes of a document or script file, 4 MiB.
pub const FILE_LIMIT: usize = 4_194_304;

/// The greatest weight of a value, 2^20: a text weighs 1 plus its units, a list or fields 1 plus what is inside, all else 1.
pub const WEIGHT_LIMIT: usize = 1_048_576;

/// How deep a node of a tree may stand, and how deep lists and fields may be nested in a value.
pub const DEPTH_LIMIT: u32 = 100;

/// How many nodes an evaluation or a body may begin.
pub const NODE_LIMIT: u32 = 100_000;

/// How many calls may be open in an evaluation or a body.
pub const CALL_LIMIT: u32 = 100;

/// How many objects may be live.
pub const OBJECT_LIMIT: u32 = 100_000;
