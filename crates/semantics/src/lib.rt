// What handlers mean. The definitions are in specs/, and the theorem about them is in proofs/Soundness.antt. The code here has the kinds
// of values and the row of each operation.
#![tactic(auto)]

ghost use Rattle.std.specs.Prelude.{◌≡◌};
ghost use Rattle.semantics.specs.Language.{row_of};
ghost use Rattle.semantics.specs.Facts.{place_of};

// The tables that a node names, by number: P a set, R, G and Q relations.
#[derive(Clone, Copy)]
pub struct Names {
    pub p: u32,
    pub r: u32,
    pub g: u32,
    pub q: u32,
}

// The kinds of values.
#[derive(Clone, Copy, PartialEq, Eq)]
pub enum Kind {
    Integer,
    Truth,
}

// The rows of + − < = > ∧ ∨, by operation code: left kind, right kind, result kind.
const ROWS: [(Kind, Kind, Kind); 7] = [
    (Kind::Integer, Kind::Integer, Kind::Integer),
    (Kind::Integer, Kind::Integer, Kind::Integer),
    (Kind::Integer, Kind::Integer, Kind::Truth),
    (Kind::Integer, Kind::Integer, Kind::Truth),
    (Kind::Integer, Kind::Integer, Kind::Truth),
    (Kind::Truth, Kind::Truth, Kind::Truth),
    (Kind::Truth, Kind::Truth, Kind::Truth),
];

// The row of an operation code; an unused code has none.
pub fn row_of(operation: usize) -> Option<(Kind, Kind, Kind)>
    ensures { result ≡ row_of operation }
{
    ROWS.get(operation).copied()
}

// Where the place of a number is: nowhere in the files, at a bit of the handler file or of the proof file, or at a node of the derivation.
#[derive(Clone, Copy)]
pub enum Where {
    Nowhere,
    HandlerBit,
    ProofBit,
    Node,
}

const NONE: Where = Where::Nowhere;

const HANDLER: Where = Where::HandlerBit;

const PROOF: Where = Where::ProofBit;

const NODE: Where = Where::Node;

// The places of the numbers, number 0 first, ten to a line.
const PLACES: [Where; 81] = [
    NONE, NONE, NONE, NONE, NONE, NONE, NONE, NONE, NONE, NONE, HANDLER, HANDLER, HANDLER, HANDLER,
    HANDLER, HANDLER, HANDLER, HANDLER, HANDLER, NONE, PROOF, PROOF, PROOF, PROOF, PROOF, PROOF,
    NONE, NONE, NONE, NONE, NODE, NODE, NODE, NODE, NODE, NODE, NODE, NODE, NODE, NONE, NONE, NODE,
    NODE, NODE, NONE, NODE, NODE, NONE, NONE, NONE, NODE, NODE, NODE, NODE, NODE, NODE, NODE, NODE,
    NONE, NONE, NODE, NODE, NONE, NONE, NONE, NODE, NODE, NONE, NONE, NONE, NODE, NODE, NODE, NODE,
    NONE, NONE, NONE, NONE, NONE, NONE, NODE,
];

// Where the place of a number is; nowhere for a number that no check gives.
pub fn place_of(number: u32) -> Where
    ensures { result ≡ place_of number }
{
    if number < 81 {
        return PLACES[number as usize];
    }
    Where::Nowhere
}
