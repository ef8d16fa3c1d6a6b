// The most bytes that an input, a writer's text or written output may have.
pub const BYTES: usize = 1_048_576;
// The most bytes that an image given to a writer may have.
pub const IMAGE: usize = 3_145_728;
// The deepest level at which a value may stand; a top value is at level 1.
pub const LEVELS: usize = 32;
