// The nodes of a proof file as fields: how many bits they have, and writing them. A node is written as one field.
ghost use Rattle.std.specs.Prelude.{◌≡◌, ◌+◌, ◌*◌, ◌%◌, ◌≤◌, min, length, take};
ghost use Rattle.writer.specs.Packing.{width_of, put_parts, put_all};
ghost use Rattle.form.specs.Members.{node_by};
ghost use Rattle.form.specs.Form.{parts_of};
ghost use Rattle.canonical.specs.Nodes.{name_in, held_in};
ghost use Rattle.canonical.specs.Refinement.{Room};

use super::mentions::name_in;
use derivation::table::node_at;
use derivation::{MOST_NODES, MOST_TABLES, Node, WHILE};
use semantics::Names;
use writer::{has_room, put};

// The bits of a node, and of a while.
const NODE_BITS: usize = 19;

const WHILE_BITS: usize = 27;

// How many bits a node has.
pub fn node_width(node: Node) -> usize
    ensures { result ≡ width_of (parts_of node) }
{
    if node.rule == WHILE {
        WHILE_BITS
    } else {
        NODE_BITS
    }
}

// The first fields of a node as one number: rule, P, R, G and Q, of each the last bits.
fn node_number(node: Node) -> u64
    ensures { result ≡ (((node.rule % 8 * 16 + node.names.p % 16) * 16 + node.names.r % 16) * 16 + node.names.g % 16) * 16
        + node.names.q % 16 }
{
    let names = node.names;
    let p = names.p as u64 % 16;
    let r = names.r as u64 % 16;
    let g = names.g as u64 % 16;
    let q = names.q as u64 % 16;
    (((node.rule as u64 % 8 * 16 + p) * 16 + r) * 16 + g) * 16 + q
}

// Writes the fields of a node at a cursor, all of them or none. Each field has the last bits of its number.
pub fn write_node(node: Node, out: &mut [u8], at: usize)
    ensures { out.new ≡ put_all out.old at (parts_of node) }
{
    let number = node_number(node);
    if node.rule == WHILE {
        let k = node.k as u64 % 16;
        let w = node.w as u64 % 16;
        put(out, at, WHILE_BITS, (number * 16 + k) * 16 + w);
    } else {
        put(out, at, NODE_BITS, number);
    }
}

// A node under new names.
fn renamed(node: Node, sets: &[u64; MOST_TABLES], relations: &[u64; MOST_TABLES]) -> Node
    ensures { result ≡ node_by (name_in sets.now) (name_in relations.now) node }
{
    let names = node.names;
    Node {
        rule: node.rule,
        names: Names {
            p: name_in(sets, names.p) as u32,
            r: name_in(relations, names.r) as u32,
            g: name_in(relations, names.g) as u32,
            q: name_in(relations, names.q) as u32,
        },
        k: name_in(sets, node.k) as u32,
        w: name_in(relations, node.w) as u32,
        after: node.after,
        bit: node.bit,
    }
}

// How many nodes of a table are among its first `count`: no more than it has, and at most 127.
fn node_count(nodes: &[u64], count: usize) -> usize
    ensures { (result ≤ 127) × (result ≤ length nodes.now)
        × (take result nodes.now ≡ take (min count 127) nodes.now) }
{
    count.min(MOST_NODES).min(nodes.len())
}

// How many bits the first `count` nodes of a table have; of more than 127, the first 127.
pub fn nodes_width(nodes: &[u64], count: usize) -> usize
    ensures { result ≡ width_of (held_in parts_of (take (min count 127) nodes.now)) }
{
    let mut width = 0;
    for i in 0..node_count(nodes, count) {
        width += node_width(node_at(nodes, i));
    }
    width
}

// Writes the first `count` nodes of a table under new names, where there is room for them.
fn write_each(
    nodes: &[u64],
    count: usize,
    sets: &[u64; MOST_TABLES],
    relations: &[u64; MOST_TABLES],
    out: &mut [u8],
    at: usize,
)
    requires { (count ≤ length nodes.now) × Room out.old at (width_of (held_in parts_of (take count nodes.now))) }
    ensures { out.new ≡ put_parts out.old at
        (held_in (λ x. parts_of (node_by (name_in sets.now) (name_in relations.now) x)) (take count nodes.now)) }
{
    let mut cursor = at;
    for i in 0..count {
        let node = renamed(node_at(nodes, i), sets, relations);
        write_node(node, out, cursor);
        cursor += node_width(node);
    }
}

// Writes the first `count` nodes of a table at a cursor, all of them or none; of more than 127, the first 127. Table i of the nodes has
// the name that entry i of a list gives; both are modulo 16.
pub fn write_nodes(
    nodes: &[u64],
    count: usize,
    sets: &[u64; MOST_TABLES],
    relations: &[u64; MOST_TABLES],
    out: &mut [u8],
    at: usize,
)
    ensures { out.new ≡ put_all out.old at
        (held_in (λ x. parts_of (node_by (name_in sets.now) (name_in relations.now) x))
        (take (min count 127) nodes.now)) }
{
    if has_room(out, at, nodes_width(nodes, count)) {
        write_each(nodes, node_count(nodes, count), sets, relations, out, at);
    }
}
