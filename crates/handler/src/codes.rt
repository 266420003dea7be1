// The numbers of the faults of the handler file (docs/FORMAT.md, "Faults of reading"). They are numbers, not an enum, because the paper
// and the C interface name them so.

// A field runs past the end of the file.
pub const MISSING: u32 = 10;
// The number of variables is not 1 to 4.
pub const VARIABLES: u32 = 11;
// A size is not 2 to 16.
pub const SIZE: u32 = 12;
// N is over what a set can hold, 64.
pub const STATES: u32 = 13;
// An unused statement code, or the unused operation.
pub const UNUSED: u32 = 14;
// There is no such variable.
pub const NO_VARIABLE: u32 = 15;
// The kinds do not fit.
pub const KINDS: u32 = 16;
// Too many statements or nodes, or too many levels.
pub const TOO_MANY: u32 = 17;
// A fill bit is not zero, or a byte follows the last field.
pub const FILL: u32 = 18;
