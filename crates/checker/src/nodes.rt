// The loop over the nodes of the proof file, by number. Nodes and statements are both in file order, and every node but a weaken has the
// next statement, so one counter says which statement is at hand.
ghost use Rattle.std.specs.Prelude.{◌≡◌, ◌+◌, ◌^◌, ◌<◌};
ghost use Rattle.derivation.specs.NodeTable.{node_in};
ghost use Rattle.semantics.specs.Checking.{first_broken, at_node};
ghost use Rattle.checker.specs.Nodes.{statement_after, statement_at, obligations_at, faults_from, fault_found};

use crate::{Fault, Place};
use derivation::WEAKEN;
use derivation::table::node_at;
use handler::head::Head;
use handler::table::statement_at;
use rules::node_fault;

// The first of the conditions of node i over statement s that is broken, with the node as its place.
fn fault_at(
    exprs: &[u32],
    head: Head,
    work: &[u64],
    nodes: &[u64],
    statements: &[u64],
    i: u32,
    s: u32,
) -> Result<(), Fault>
    ensures { result ≡ fault_found (at_node i (first_broken (obligations_at exprs.now head work.now nodes.now statements.now i s))) }
{
    let at = i as usize;
    let node = node_at(nodes, at);
    let first = node_at(nodes, at + 1);
    let second = node_at(nodes, node.after as usize);
    let statement = statement_at(statements, s as usize);
    node_fault(exprs, head, work, node, statement, first, second).map_err(|broken| Fault {
        number: broken.number,
        place: Place::Node(i),
        states: broken.states,
    })
}

// The statement at hand after node i.
fn statement_after(nodes: &[u64], i: u32, s: u32) -> u32
    requires { s + 1 < 2 ^ 32 }
    ensures { result ≡ statement_after (node_in nodes.now i).rule s }
{
    let node = node_at(nodes, i as usize);
    if node.rule == WEAKEN { s } else { s + 1 }
}

// The statement at hand for a node, as the loop below counts it; for those who explain a fault.
pub fn statement_of(nodes: &[u64], node: u32) -> u32
    ensures { result ≡ statement_at nodes.now node }
{
    // Not a fold: the invariant of this loop bounds s, as `statement_after` requires.
    let mut s = 0;
    for i in 0..node {
        s = statement_after(nodes, i, s);
    }
    s
}

// The first fault of the first `count` nodes.
pub fn first_fault(
    exprs: &[u32],
    head: Head,
    work: &[u64],
    nodes: &[u64],
    statements: &[u64],
    count: u32,
) -> Result<(), Fault>
    ensures { result ≡ fault_found (faults_from exprs.now head work.now nodes.now statements.now count 0 0) }
{
    let mut s = 0;
    for i in 0..count {
        fault_at(exprs, head, work, nodes, statements, i, s)?;
        s = statement_after(nodes, i, s);
    }
    Ok(())
}
