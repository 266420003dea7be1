// The handler file, read once from front to back.
#![tactic(auto)]

use head::Head;

pub mod codes;
pub mod expressions;
pub mod head;
pub mod reading;
pub mod statements;
pub mod table;
pub mod terms;

// The codes of statements.
pub const NIL: u32 = 0;

pub const ASSIGNMENT: u32 = 1;

pub const SEQUENCE: u32 = 2;

pub const PARALLEL: u32 = 3;

pub const IF: u32 = 4;

pub const WHILE: u32 = 5;

// A handler has at most 63 statements on at most 16 levels.
pub const MOST_STATEMENTS: usize = 63;

pub const MOST_STATEMENT_LEVELS: u32 = 16;

// What a statement's first bits hold, with the cursor after them: nil; an assignment, by its variable; a sequence or parallel, by its
// code; or an if or while, by its code.
#[derive(Clone, Copy)]
pub enum StmtHead {
    Nil(usize),
    Assign(u32, usize),
    Pair(u32, usize),
    Test(u32, usize),
}

// A summary of a whole statement: its step number, capped at 2 ^ 32, its kind error, the number of statements and of expression nodes
// so far, the number of its levels and the cursor after it.
#[derive(Clone, Copy)]
pub struct StmtSummary {
    pub steps: u64,
    pub error: Option<usize>,
    pub statements: u32,
    pub terms: u32,
    pub levels: u32,
    pub next: usize,
}

// A summary of a handler file: the first bit of its statement, the bit after it, the number of statements and of their levels, and the
// step number, capped at 2 ^ 32.
#[derive(Clone, Copy)]
pub struct HandlerSummary {
    pub at: usize,
    pub end: usize,
    pub statements: u32,
    pub levels: u32,
    pub steps: u64,
}

// What reading a handler file gives: its summary, its head, and the table of its statements (`table`).
#[derive(Drop)]
pub struct HandlerFile {
    pub summary: HandlerSummary,
    pub head: Head,
    pub statements: [u64; MOST_STATEMENTS],
}
