// The whole proof file, front to back, with the table of its nodes and its tables in the caller's work words.
ghost use Rattle.std.specs.Prelude.{◌≡◌};
ghost use Rattle.derivation.specs.Tables.{written};
ghost use Rattle.derivation.specs.Reading.{read_proof, proof_file, loaded_word};

use super::codes::PROOF_FILL;
use super::{MOST_NODES, ProofFile, ProofHead, header, nodes, words};
use bits::FileFault;

// A proof file over n states with the table of its nodes, or its first fault.
pub fn read_proof(src: &[u8], n: u32) -> Result<ProofFile, FileFault>
    ensures { result ≡ proof_file (read_proof src.now n) }
{
    let tables = header::read_tables(src, n)?;
    let mut table = [0; MOST_NODES];
    let end = nodes::read_nodes(src, tables, &mut table)?;
    bits::read_fill(src, end.next).map_err(|bit| FileFault {
        number: PROOF_FILL,
        bit,
    })?;
    Ok(ProofFile {
        head: ProofHead {
            sets: tables.sets,
            relations: tables.relations,
            nodes: end.nodes,
            levels: end.levels,
            root: tables.root,
        },
        nodes: table,
    })
}

// Reads a proof file over n states and leaves its tables in the work words, or 0 in all of them after a fault.
pub fn load(src: &[u8], n: u32, work: &mut [u64]) -> Result<ProofFile, FileFault>
    ensures answer { result ≡ proof_file (read_proof src.now n) }
    ensures tables { work.new ≡ written (loaded_word src.now n (read_proof src.now n)) work.old }
{
    match read_proof(src, n) {
        Ok(file) => {
            let sets = file.head.sets as usize;
            let relations = file.head.relations as usize;
            words::fill(src, n as usize, sets, relations, work);
            Ok(file)
        }
        Err(fault) => {
            words::clear(work);
            Err(fault)
        }
    }
}
