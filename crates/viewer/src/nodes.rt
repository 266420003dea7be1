// The byte at which a node of the proof file begins, which is known only once both files were read.
ghost use Rattle.std.specs.Prelude.{◌≡◌};
ghost use Rattle.viewer.specs.View.{first_bits_of, node_byte};

use super::byte_of;
use derivation::table::node_at;
use pair::read_pair;

// The byte of a node of two files; the proof file's length where a file is too long or ill-formed, or there is no such node.
pub(crate) fn node_byte(handler: &[u8], proof: &[u8], node: usize) -> usize
    ensures { result ≡ node_byte proof.now (first_bits_of handler.now proof.now) node }
{
    let Ok(file) = read_pair(handler, proof) else {
        return proof.len();
    };
    if node >= file.read.proof.nodes as usize {
        return proof.len();
    }
    let found = node_at(&file.nodes, node);
    byte_of(proof, found.bit)
}
