// The numbers of the faults of the proof file (docs/FORMAT.md, "Faults of reading"). They are not an enum, because the
// format fixes them and the exported functions of `host` give them as numbers.

// A field runs past the end.
pub const PROOF_MISSING: u32 = 20;
// The number of sets or of relations is not 1 to 16.
pub const TABLE_COUNT: u32 = 21;
// The code that is no rule.
pub const UNUSED_RULE: u32 = 22;
// No such set or relation.
pub const NO_TABLE: u32 = 23;
// Too many nodes, or too deep.
pub const TOO_MANY_NODES: u32 = 24;
// A fill bit is not zero, or a further byte.
pub const PROOF_FILL: u32 = 25;
