// The table of a derivation's nodes, one word for each node, in file order. A word has, lowest first, 3 bits rule, 4 bits each for P, R,
// G, Q, K and W, 7 bits the number of the node after its first child, and then the bit of the file at which the node begins.
ghost use Rattle.std.specs.Prelude.{◌≡◌, ◌^◌, ◌<◌};
ghost use Rattle.derivation.specs.NodeTable.{node_word, node_of, node_in};
ghost use Rattle.derivation.specs.Storing.{Fits};

use super::Node;
use semantics::Names;

// The word of a node.
#[tactic(auto, unfolding(crate::specs::NodeTable::node_word))]
pub(crate) fn node_word(node: Node) -> u64
    requires { Fits node × (node.bit < 2 ^ 30) }
    ensures { result ≡ node_word node }
{
    let place = node.after as u64 + 128 * node.bit as u64;
    let loop_names = node.k as u64 + 16 * node.w as u64;
    let names = node.names;
    let four = names.p as u64 + 16 * (names.r as u64 + 16 * (names.g as u64 + 16 * names.q as u64));
    node.rule as u64 + 8 * (four + 65536 * (loop_names + 256 * place))
}

// The node that a word of the table holds.
#[tactic(auto, unfolding(crate::specs::NodeTable::node_of))]
fn node_of(word: u64) -> Node
    ensures { result ≡ node_of word }
{
    let names = Names {
        p: ((word >> 3) % 16) as u32,
        r: ((word >> 7) % 16) as u32,
        g: ((word >> 11) % 16) as u32,
        q: ((word >> 15) % 16) as u32,
    };
    Node {
        rule: (word % 8) as u32,
        names,
        k: ((word >> 19) % 16) as u32,
        w: ((word >> 23) % 16) as u32,
        after: ((word >> 27) % 128) as u32,
        bit: (word >> 34) as usize,
    }
}

// Node i of a table; past the end of the table, the node that the word 0 holds.
#[tactic(auto, unfolding(crate::specs::NodeTable::node_in))]
pub fn node_at(table: &[u64], i: usize) -> Node
    ensures { result ≡ node_in table.now i }
{
    node_of(table.get(i).copied().unwrap_or(0))
}
