// The one form of a proof file (docs/FORMAT.md, "One form"): tables numbered by first mention, equal ones merged, unmentioned ones dropped.
#![tactic(auto)]

ghost use Rattle.std.specs.Prelude.{◌≡◌, length};
ghost use Rattle.report.specs.Code.{code_of, decoded};
ghost use Rattle.form.specs.Members.{by_members};
ghost use Rattle.form.specs.Form.{form_of};
ghost use Rattle.canonical.specs.Canonical.{form, canonical, turned_away, outcome, out_after};
ghost use Rattle.canonical.specs.Refinement.{Read};

use checker::{Fault, Place};
use derivation::{MOST_TABLES, ProofHead};
use mentions::number;
use pair::{MOST_PROOF_BYTES, read_pair};
use search::Named;
use writer::clear;
use writing::{form_bits, write_fields};

mod mentions;
pub mod nodes;
mod tables;
mod writing;

// No form is longer (`form_short`): a buffer of so many bytes is never too short.
pub const MOST_FORM_BYTES: usize = MOST_PROOF_BYTES;

// The numbers that the form itself gives: a file is over its length, and the output buffer is too short (docs/FORMAT.md, "One form").
const SHORT_BUFFER: u32 = 3;

// Tables of one width, one after the other: where the first begins, and how many bits each has.
#[derive(Clone, Copy)]
struct Run {
    from: usize,
    width: usize,
}

// How many sets and relations the form has.
#[derive(Clone, Copy)]
struct Counts {
    sets: usize,
    relations: usize,
}

// For each set and each relation of a file the least one with equal members.
#[derive(Clone, Copy)]
struct Representatives {
    sets: [u64; MOST_TABLES],
    relations: [u64; MOST_TABLES],
}

// The tables of one kind: how many the form has, the representative of each in its order, and the number in the form of each table of the file.
#[derive(Clone, Copy)]
struct Naming {
    count: usize,
    order: [u64; MOST_TABLES],
    names: [u64; MOST_TABLES],
}

// The sets and the relations.
#[derive(Clone, Copy)]
struct Numbering {
    sets: Naming,
    relations: Naming,
}

// A refusal at a bit. No states are named.
fn refused(number: u32, place: usize) -> Result<u32, Fault>
    ensures { result ≡ turned_away number place }
{
    Err(Fault {
        number,
        place: Place::Bit(place),
        states: Named::Nothing,
    })
}

// Writes the form of a proof file that was read, if there is room for it. Its length is known before the first byte is written.
fn write_read(
    proof: &[u8],
    n: usize,
    head: ProofHead,
    nodes: &[u64],
    out: &mut [u8],
) -> Result<u32, Fault>
    requires { Read proof.now n head nodes.now }
    ensures answer { (x : Read proof.now n head nodes.now)
        → result ≡ outcome (form (form_of n (by_members proof.now n head.sets x.d))) (length out.old) }
    ensures bytes { (x : Read proof.now n head nodes.now)
        → out.new ≡ out_after (form (form_of n (by_members proof.now n head.sets x.d))) out.old }
{
    let count = head.nodes as usize;
    let m = number(proof, n, head, nodes);
    let length = (form_bits(n, m, nodes, count) + 7) / 8;
    if out.len() < length {
        return refused(SHORT_BUFFER, 0);
    }
    clear(out, length);
    write_fields(proof, n, head.sets as usize, nodes, count, m, out);
    Ok(length as u32)
}

// Writes the one form of a proof file over the N of a handler file, and returns its length, or the fault for which nothing is written.
pub fn write_form(handler: &[u8], proof: &[u8], out: &mut [u8]) -> Result<u32, Fault>
    ensures answer { result ≡ outcome (canonical handler.now proof.now) (length out.old) }
    ensures bytes { out.new ≡ out_after (canonical handler.now proof.now) out.old }
{
    let file = read_pair(handler, proof)?;
    write_read(
        proof,
        file.head.states as usize,
        file.read.proof,
        &file.nodes,
        out,
    )
}

// The same with the outcome as one number, for a host that calls over the C interface: below 2 ^ 32 it is the length, else the fault as the
// check codes it.
pub fn form_number(handler: &[u8], proof: &[u8], out: &mut [u8]) -> u64
    ensures number { result ≡ code_of (outcome (canonical handler.now proof.now) (length out.old)) }
    ensures outcome { decoded result ≡ outcome (canonical handler.now proof.now) (length out.old) }
    ensures bytes { out.new ≡ out_after (canonical handler.now proof.now) out.old }
{
    report::code_of(write_form(handler, proof, out))
}
