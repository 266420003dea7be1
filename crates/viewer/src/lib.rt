// Shows a refusal: which of the two files it is about, and the bytes of that file from its place on.
#![tactic(auto)]

ghost use Rattle.std.specs.Prelude.{◌≡◌, ◌≤◌, ◌<◌, ◌^◌, length, drop};
ghost use Rattle.checker.specs.declared.Place.TheVariants.{Bit, Node};
ghost use Rattle.viewer.specs.View.{nothing_of, byte_of, location_of, viewed, location_by_kind, location_number, view_of};

use checker::Place;
use nodes::node_byte;
use semantics::{Where, place_of};

mod nodes;

// The two files.
#[derive(Clone, Copy)]
pub enum File {
    Handler,
    Proof,
}

// Where the bytes that are shown begin: a file and an index into it, which is the file's length where none are shown.
#[derive(Clone, Copy)]
pub struct Location {
    pub file: File,
    pub index: usize,
}

// The numbers that `view_number` takes for the kind of a place. They are numbers because its caller is the C function `handover_view`.
const BIT: u32 = 0;

const NODE: u32 = 1;

// What the number of the proof file adds to an index.
const PROOF_FILE: u64 = 4294967296;

// A file from an index on.
fn from(file: File, index: usize) -> Location
    ensures { result ≡ record { file = file; index = index } }
{
    Location { file, index }
}

// No bytes of the handler file.
fn nothing_of(handler: &[u8]) -> Location
    ensures { result ≡ nothing_of handler.now }
{
    from(File::Handler, handler.len())
}

// The byte of a file that holds a bit, or the file's length for a bit that it lacks.
pub(crate) fn byte_of(file: &[u8], bit: usize) -> usize
    ensures { result ≡ byte_of file.now bit }
{
    (bit / 8).min(file.len())
}

// Where a number with a bit is shown.
#[tactic(auto, unfolding(crate::specs::View::location_of))]
fn locate_bit(handler: &[u8], proof: &[u8], number: u32, bit: usize) -> Location
    ensures { result ≡ location_of handler.now proof.now number (Bit bit) }
{
    match place_of(number) {
        Where::HandlerBit => from(File::Handler, byte_of(handler, bit)),
        Where::ProofBit => from(File::Proof, byte_of(proof, bit)),
        _ => nothing_of(handler),
    }
}

// Where a number with a node is shown.
#[tactic(auto, unfolding(crate::specs::View::location_of))]
fn locate_node(handler: &[u8], proof: &[u8], number: u32, node: usize) -> Location
    ensures { result ≡ location_of handler.now proof.now number (Node node) }
{
    match place_of(number) {
        Where::Node => from(File::Proof, node_byte(handler, proof, node)),
        _ => nothing_of(handler),
    }
}

// Where a refusal is shown: the file, and the index of the first byte.
pub fn locate(handler: &[u8], proof: &[u8], number: u32, place: Place) -> Location
    ensures { result ≡ location_of handler.now proof.now number place }
{
    match place {
        Place::Bit(bit) => locate_bit(handler, proof, number, bit),
        Place::Node(node) => locate_node(handler, proof, number, node as usize),
    }
}

// The bytes that show a refusal: a part of one of the two files, from the place on up to the file's end.
#[tactic(auto, using(crate::proofs::Viewing::location_inside), unfolding(crate::specs::View::viewed))]
pub fn view<'a>(handler: &'a [u8], proof: &'a [u8], number: u32, place: Place) -> &'a [u8]
    ensures { result.now ≡ viewed handler.now proof.now number place }
{
    let at = locate(handler, proof, number, place);
    match at.file {
        File::Handler => &handler[at.index..],
        File::Proof => &proof[at.index..],
    }
}

// A location as one number: the file's number × 2 ^ 32, and the index.
#[tactic(auto, unfolding(crate::specs::View::location_number))]
fn number_of(at: Location) -> u64
    requires { at.index < 2 ^ 63 }
    ensures { result ≡ location_number at }
{
    match at.file {
        File::Handler => at.index as u64,
        File::Proof => PROOF_FILE + at.index as u64,
    }
}

// Where a number with a place is shown, where the kind of the place is a number: 0 for a bit, 1 for a node.
#[tactic(auto, unfolding(crate::specs::View::location_by_kind))]
fn locate_kind(handler: &[u8], proof: &[u8], number: u32, kind: u32, place: u64) -> Location
    ensures { result ≡ location_by_kind handler.now proof.now number kind place }
{
    match kind {
        BIT => locate_bit(handler, proof, number, place as usize),
        NODE => locate_node(handler, proof, number, place as usize),
        _ => nothing_of(handler),
    }
}

// Where a refusal is shown, as one number, for a host that calls over the C interface: the file (0 the handler file, 1 the proof
// file) × 2 ^ 32, and the index. The kind of the place is 0 for a bit and 1 for a node; any other kind fits no number.
pub fn view_number(handler: &[u8], proof: &[u8], number: u32, kind: u32, place: u64) -> u64
    ensures { result ≡ view_of handler.now proof.now number kind place }
{
    number_of(locate_kind(handler, proof, number, kind, place))
}
