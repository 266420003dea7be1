// The proof file, read from its bits once: the tables go into the caller's work words, and the nodes into a table, a word each.
#![tactic(auto)]

use semantics::Names;
use states::{CAPACITY, SET_WORDS};

pub mod codes;
pub mod header;
mod nodes;
pub mod reading;
pub mod table;
pub mod words;

// The rules by their codes. They are not an enum, because `table::node_at` gives the code that any word holds (`node_in`), and 7
// is no rule.
pub const SKIP: u32 = 0;

pub const ASSIGNMENT: u32 = 1;

pub const SEQUENCE: u32 = 2;

pub const PARALLEL: u32 = 3;

pub const IF: u32 = 4;

pub const WHILE: u32 = 5;

pub const WEAKEN: u32 = 6;

// At most 16 sets and 16 relations, and the work words that hold them: a set for each set and for each row of a relation.
pub const MOST_TABLES: usize = 16;

pub const WORK_WORDS: usize = SET_WORDS * (MOST_TABLES + MOST_TABLES * CAPACITY as usize);

// At most 127 nodes and 24 levels.
pub const MOST_NODES: usize = 127;

pub const MOST_LEVELS: u32 = 24;

// The head of the file: how many sets and relations, and the bit at which the root node begins.
#[derive(Clone, Copy)]
pub struct TablesHead {
    pub sets: u32,
    pub relations: u32,
    pub root: usize,
}

// The head of a node: its rule, the tables that it names (K and W are 0 but at a while), and the bit after it.
#[derive(Clone, Copy)]
struct NodeHead {
    rule: u32,
    names: Names,
    k: u32,
    w: u32,
    next: usize,
}

// Where the derivation at a node ends: how many nodes the file has so far, how many levels the derivation has, and the bit after
// it.
#[derive(Clone, Copy)]
struct NodeEnd {
    nodes: u32,
    levels: u32,
    next: usize,
}

// A node as the table keeps it: its rule, the tables that it names (K and W are 0 but at a while), the number of the node
// after its first child (after itself where it has none), and the bit at which it begins.
#[derive(Clone, Copy)]
pub struct Node {
    pub rule: u32,
    pub names: Names,
    pub k: u32,
    pub w: u32,
    pub after: u32,
    pub bit: usize,
}

// What a proof file without fault holds: how many sets, relations, nodes and levels, and the bit at which the root node begins.
#[derive(Clone, Copy)]
pub struct ProofHead {
    pub sets: u32,
    pub relations: u32,
    pub nodes: u32,
    pub levels: u32,
    pub root: usize,
}

// A whole proof file: what it holds, and the table of its nodes.
#[derive(Drop)]
pub struct ProofFile {
    pub head: ProofHead,
    pub nodes: [u64; MOST_NODES],
}
