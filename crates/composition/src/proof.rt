// The proof file of the result: the counts and the tables, then the root, and each side under its weaken node.
ghost use Rattle.std.specs.Prelude.{◌≡◌, ◌+◌, ◌*◌, ◌≤◌, length};
ghost use Rattle.writer.specs.Packing.{put_parts, bytes_for, packed};
ghost use Rattle.states.specs.Sets.{capacity};
ghost use Rattle.derivation.specs.Nodes.{most_nodes};
ghost use Rattle.derivation.specs.Tables.{most_tables};
ghost use Rattle.canonical.specs.Refinement.{Room};
ghost use Rattle.joint.specs.Composing.{at_front};
ghost use Rattle.composition.specs.Refinement.{sets_held, relations_held, new_node, side_parts, SmallNames, AllSmall, form_bits, node_parts, proof_parts, proof_bits, most_root_bit, most_proof_bits};

use crate::forms::Form;
use crate::numbering::{RelationNumbers, SetNumbers};
use crate::pool::Three;
use crate::writing::write_tables;
use canonical::nodes::{nodes_width, write_node, write_nodes};
use derivation::{MOST_TABLES, Node, PARALLEL, WEAKEN};
use semantics::Names;
use writer::clear;

// The counts at the head of the file take so many bits, and a node that is no while so many.
const HEAD_BITS: usize = 10;

const NODE_BITS: usize = 19;

// A new node, which has P as set 0.
fn new_node(rule: u32, m: Three) -> Node
    requires { SmallNames m }
    ensures { result ≡ new_node rule m }
{
    Node {
        rule,
        names: Names {
            p: 0,
            r: m.r as u32,
            g: m.g as u32,
            q: m.q as u32,
        },
        k: 0,
        w: 0,
        after: 0,
        bit: 0,
    }
}

// Writes a weaken node and the nodes of the form below it.
fn write_side(
    node: Three,
    sets: &[u64; MOST_TABLES],
    relations: &[u64; MOST_TABLES],
    form: Form,
    out: &mut [u8],
    at: usize,
)
    requires { SmallNames node × Room out.old at (19 + form_bits form) }
    ensures { out.new ≡ put_parts out.old at (side_parts node sets.now relations.now form.nodes form.head.nodes) }
{
    let head = form.head;
    let nodes = form.nodes;
    write_node(new_node(WEAKEN, node), out, at);
    write_nodes(
        &nodes,
        head.nodes as usize,
        sets,
        relations,
        out,
        at + NODE_BITS,
    );
}

// How many bits the nodes of a form have.
fn form_bits(form: Form) -> usize
    ensures { (result ≡ form_bits form) × (result ≤ 27 * most_nodes) }
{
    let head = form.head;
    let nodes = form.nodes;
    nodes_width(&nodes, head.nodes as usize)
}

// Writes all nodes.
fn write_all_nodes(k: RelationNumbers, m: SetNumbers, a: Form, b: Form, out: &mut [u8], at: usize)
    requires { AllSmall k × Room out.old at (57 + form_bits a + form_bits b) }
    ensures { out.new ≡ put_parts out.old at (node_parts k m a b) }
{
    let left = k.left;
    let left_names = left.names;
    let first_sets = m.first;
    let right = k.right;
    let right_names = right.names;
    let second_sets = m.second;
    let second = at + NODE_BITS + NODE_BITS + form_bits(a);
    write_node(new_node(PARALLEL, k.root), out, at);
    write_side(left.node, &first_sets, &left_names, a, out, at + NODE_BITS);
    write_side(right.node, &second_sets, &right_names, b, out, second);
}

// Where the nodes begin: after the counts and the tables.
fn root_at(n: u32, sets: usize, relations: usize) -> usize
    requires { (n ≤ capacity) × (sets ≤ most_tables) × (relations ≤ most_tables) }
    ensures { (result ≡ 10 + n * sets + n * n * relations) × (result ≤ most_root_bit) }
{
    let states = n as usize;
    HEAD_BITS + states * sets + states * states * relations
}

// How many bits the proof file has.
pub(crate) fn proof_bits(n: u32, m: SetNumbers, k: RelationNumbers, a: Form, b: Form) -> usize
    requires { (n ≤ capacity) × (m.count ≤ most_tables) × (k.right.count ≤ most_tables) }
    ensures { (result ≡ proof_bits n m k a b) × (result ≤ most_proof_bits) }
{
    let right = k.right;
    let nodes = NODE_BITS * 3 + form_bits(a) + form_bits(b);
    root_at(n, m.count, right.count) + nodes
}

// Writes the proof file, of which the length in bytes is known, at the front of the buffer.
pub(crate) fn write_proof(
    n: u32,
    sets: &[u64],
    m: SetNumbers,
    relations: &[u64],
    k: RelationNumbers,
    a: Form,
    b: Form,
    bytes: usize,
    out: &mut [u8],
)
    requires { (1 ≤ n) × (n ≤ capacity) × (m.count ≤ most_tables) × (k.right.count ≤ most_tables) × AllSmall k × (bytes ≤ length out.old)
        × (bytes ≡ bytes_for (proof_bits n m k a b)) }
    ensures { out.new ≡ at_front (packed (proof_parts n (sets_held n sets.now m.count) (relations_held n relations.now k.right.count)
        (node_parts k m a b))) out.old }
{
    let right = k.right;
    clear(out, bytes);
    write_tables(n, sets, m.count, relations, right.count, out);
    write_all_nodes(k, m, a, b, out, root_at(n, m.count, right.count));
}
