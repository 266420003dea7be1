// What a verdict means, in words and bytes. Public functions with an equation in their contract compute a definition of specs/; the
// others lay out what those answer.
#![tactic(auto)]

ghost use Rattle.std.specs.Prelude.{◌≤◌, length};

use checker::{Fault, Place, WORK_WORDS};
use children::put_child;
use derivation::table::node_at;
use handler::head::Head;
use handler::terms::MOST_TERMS;
use naming::{put_state, put_states};
use pair::{load_pair, read_pair, rows};
use rules::tables::set_at;
use search::Named;
use sentences::sentence;
use statements::put_statement;
use states::StateSet;
use text::{put, put_if, put_number, within};

mod bytes;
pub mod children;
pub mod naming;
pub mod sentences;
pub mod statements;
pub mod text;

// So many bytes hold every text that is written here.
pub const TEXT_BYTES: usize = 8192;

// The least number whose place is in a file.
pub const FIRST_IN_A_FILE: u32 = 10;

// Puts what is known of a refusal at a node: the states, the child, and the statement at hand.
fn put_node(
    out: &mut [u8],
    at: usize,
    handler: &[u8],
    proof: &[u8],
    number: u32,
    node: u32,
    states: Named,
) -> usize {
    let mut exprs = [0u32; MOST_TERMS];
    let mut work = [0u64; WORK_WORDS];
    let Ok(file) = load_pair(handler, proof, rows(), &mut exprs, &mut work) else {
        return at;
    };
    let at = put_states(out, at, file.head, number, states);
    let at = put_child(out, at, file.head.states, &work, &file.nodes, number, node);
    put_statement(out, at, &exprs, &file.statements, &file.nodes, node)
}

fn put_fault(out: &mut [u8], handler: &[u8], proof: &[u8], fault: Fault) -> usize {
    let number = fault.number;
    let at = sentence(number, out, 0);
    let at = put(out, at, b"\n");
    match fault.place {
        Place::Bit(_) => put_if(
            out,
            at,
            number < FIRST_IN_A_FILE,
            b"no bytes: the number is about a whole file or the work words\n",
        ),
        Place::Node(node) => put_node(out, at, handler, proof, number, node, fault.states),
    }
}

// Writes what a refusal of two files means at the front of `out`, but for the bytes at its place, and returns where it ends.
pub fn write_refusal(handler: &[u8], proof: &[u8], fault: Fault, out: &mut [u8]) -> usize
    ensures { result ≤ length out.old }
{
    let end = put_fault(out, handler, proof, fault);
    within(end, out.len())
}

// Writes what follows the name of a file: its bytes from an index on, or that there are none. Returns where that ends.
pub fn write_bytes(file: &[u8], from: usize, out: &mut [u8]) -> usize
    ensures { result ≤ length out.old }
{
    let end = bytes::put_view(out, file, from);
    within(end, out.len())
}

// Puts a state of a set, if it is one.
fn put_member(out: &mut [u8], at: usize, head: Head, set: StateSet, s: u32) -> usize {
    if set.holds_state(s) {
        let at = put(out, at, b"  ");
        return put_state(out, at, head, s);
    }
    at
}

fn put_members(out: &mut [u8], at: usize, head: Head, set: StateSet) -> usize {
    let mut end = at;
    for s in 0..head.states {
        end = put_member(out, end, head, set, s);
    }
    end
}

// Puts N and the root's P, whose number is p.
fn put_root(out: &mut [u8], head: Head, p: u32, set: StateSet) -> usize {
    let at = put(out, 0, b"N = ");
    let at = put_number(out, at, head.states as u64);
    let at = put(out, at, b"\nP of the root, set ");
    let at = put_number(out, at, p as u64);
    if set.is_empty() {
        let at = put(out, at, b": no states\n");
        return put(
            out,
            at,
            b"warning: P is empty: the handler may never be started, and the bound promises nothing\n",
        );
    }
    let at = put(out, at, b":\n");
    put_members(out, at, head, set)
}

// Writes what an accepted pair of files is about at the front of `out`: N and the root's P, with a warning where P is empty. The work
// words are those that the check left. Returns where the text ends.
pub fn write_accepted(handler: &[u8], proof: &[u8], work: &[u64], out: &mut [u8]) -> usize
    ensures { result ≤ length out.old }
{
    let Ok(file) = read_pair(handler, proof) else {
        return 0;
    };
    let p = node_at(&file.nodes, 0).names.p;
    let set = set_at(file.head.states, work, p);
    let end = put_root(out, file.head, p, set);
    within(end, out.len())
}
