// The root of a pair of files as one number, for a host that must know which tables it has to keep.
ghost use Rattle.std.specs.Prelude.{◌≡◌, ◌<◌};
ghost use Rattle.report.specs.Root.{root_number, root_of};

use derivation::table::node_at;
use pair::read_pair;
use semantics::Names;

// The room for each number: 8 bits.
const ROOM: u64 = 256;

// N and the numbers of four tables in one number, N in the lowest bits.
fn pack(states: u32, names: Names) -> u64
    requires { (names.p < 16) × (names.r < 16) × (names.g < 16) × (names.q < 16) }
    ensures { result ≡ root_number states names }
{
    let relations = names.r as u64 + ROOM * (names.g as u64 + ROOM * names.q as u64);
    states as u64 + ROOM * (names.p as u64 + ROOM * relations)
}

// N and the numbers of the root's P, R, G and Q; 0 where a file is too long or ill-formed. The conditions are not looked at.
pub fn root_number(handler: &[u8], proof: &[u8]) -> u64
    ensures { result ≡ root_of handler.now proof.now }
{
    let Ok(file) = read_pair(handler, proof) else {
        return 0;
    };
    let root = node_at(&file.nodes, 0);
    pack(file.head.states, root.names)
}
