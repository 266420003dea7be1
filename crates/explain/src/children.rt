// The child, and the table of it, that a refusal with 34 or 36 to 38 is about.
ghost use Rattle.std.specs.Prelude.{◌≡◌, cond};
ghost use Rattle.explain.specs.declared.children.Child.TheVariants.{Left, Right};
ghost use Rattle.explain.specs.Children.{of_child, hold_all, left_of_sequence, left_of_parallel, child_at, child_of};

use crate::text::{put, put_number};
use derivation::table::node_at;
use derivation::{IF, Node, PARALLEL, SEQUENCE, WHILE};
use rules::tables::{is_join, same_pre, same_relation};
use semantics::Names;

// A child: the body of an if or a while, or a child of a sequence or a parallel.
#[derive(Clone, Copy)]
pub enum Child {
    Body,
    Left,
    Right,
}

// Whether a number is about a table of a child.
#[tactic(auto, unfolding(crate::specs::Children::of_child))]
fn of_child(number: u32) -> bool
    ensures { result ≡ of_child number }
{
    matches!(number, 34 | 36 | 37 | 38)
}

// Whether all that a sequence asks of its left child's tables holds: 34, 36 and 37.
fn sequence_left(n: u32, work: &[u64], own: Names, left: Names, right: Names) -> bool
    ensures { result ≡ hold_all (left_of_sequence n work.now own left right) }
{
    same_pre(n, work, own, left)
        & (same_relation(n, work, left.r, own.r) & same_relation(n, work, left.g, own.g))
}

// Whether all that a parallel asks of its left child's tables holds: 34 and 36.
fn parallel_left(n: u32, work: &[u64], own: Names, left: Names, right: Names) -> bool
    ensures { result ≡ hold_all (left_of_parallel n work.now own left right) }
{
    same_pre(n, work, own, left) & is_join(n, work, left.r, own.r, right.g)
}

// The child that is at fault, by whether all that is asked of the left one holds.
fn side_by(left_holds: bool) -> Child
    ensures { result ≡ cond left_holds Right Left }
{
    if left_holds {
        Child::Right
    } else {
        Child::Left
    }
}

// The child that is at fault at a node, by its rule.
#[tactic(auto, unfolding(crate::specs::Children::child_at, crate::specs::Children::side_by))]
fn child_at(n: u32, work: &[u64], node: Node, first: Node, second: Node) -> Option<Child>
    ensures { result ≡ child_at n work.now node first second }
{
    let own = node.names;
    let left = first.names;
    let right = second.names;
    match node.rule {
        SEQUENCE => Some(side_by(sequence_left(n, work, own, left, right))),
        PARALLEL => Some(side_by(parallel_left(n, work, own, left, right))),
        IF | WHILE => Some(Child::Body),
        _ => None,
    }
}

// The child that a refusal with this number at node i is about, if it is about one, over the tables of both files: a table of nodes, and
// the work words with the sets and relations.
#[tactic(auto, unfolding(crate::specs::Children::child_of))]
pub fn child_of(n: u32, work: &[u64], nodes: &[u64], number: u32, i: u32) -> Option<Child>
    ensures { result ≡ child_of n work.now nodes.now number i }
{
    if !of_child(number) {
        return None;
    }
    let at = i as usize;
    let node = node_at(nodes, at);
    let first = node_at(nodes, at + 1);
    let second = node_at(nodes, node.after as usize);
    child_at(n, work, node, first, second)
}

// From here on: layout.

// Puts which table of a child a number is about, by its letter and its number in the proof file.
fn put_table(out: &mut [u8], at: usize, number: u32, names: Names) -> usize {
    match number {
        34 => {
            let at = put(out, at, b"P, set ");
            put_number(out, at, names.p as u64)
        }
        36 => {
            let at = put(out, at, b"R, relation ");
            put_number(out, at, names.r as u64)
        }
        37 => {
            let at = put(out, at, b"G, relation ");
            put_number(out, at, names.g as u64)
        }
        _ => {
            let at = put(out, at, b"Q, relation ");
            put_number(out, at, names.q as u64)
        }
    }
}

// Puts the line of the child that is node j.
fn put_line(
    out: &mut [u8],
    at: usize,
    which: &[u8],
    nodes: &[u64],
    number: u32,
    j: usize,
) -> usize {
    let child = node_at(nodes, j);
    let at = put(out, at, which);
    let at = put(out, at, b", node ");
    let at = put_number(out, at, j as u64);
    let at = put(out, at, b": its ");
    let at = put_table(out, at, number, child.names);
    put(out, at, b"\n")
}

// Puts a line that says which child and which table a refusal is about, if it is about one.
pub(crate) fn put_child(
    out: &mut [u8],
    at: usize,
    n: u32,
    work: &[u64],
    nodes: &[u64],
    number: u32,
    i: u32,
) -> usize {
    let Some(child) = child_of(n, work, nodes, number, i) else {
        return at;
    };
    let node = node_at(nodes, i as usize);
    let first = i as usize + 1;
    match child {
        Child::Body => put_line(out, at, b"the body", nodes, number, first),
        Child::Left => put_line(out, at, b"the left child", nodes, number, first),
        Child::Right => put_line(
            out,
            at,
            b"the right child",
            nodes,
            number,
            node.after as usize,
        ),
    }
}
