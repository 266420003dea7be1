// A pair of files, read: both within their length, the handler file, and then the proof file over its N.
#![tactic(auto)]

ghost use Rattle.std.specs.Prelude.{◌≡◌, ℕ, List, Err};
ghost use Rattle.derivation.specs.Reading.{read_proof, proof_file};
ghost use Rattle.derivation.specs.Tables.{written};
ghost use Rattle.pair.specs.declared.Mode.{Mode};
ghost use Rattle.pair.specs.declared.PairFault.TheVariants.{At};
ghost use Rattle.pair.specs.Limits.{too_long};
ghost use Rattle.pair.specs.Reading.{PairRead, read_pair, pair_file, terms_read};
ghost use Rattle.pair.specs.Modes.{rows, work_read};
ghost use Rattle.pair.specs.Refinement.{file_over, word_limited};

use bits::FileFault;
use derivation::reading::read_proof;
use derivation::words::{clear, write_tables};
use derivation::{MOST_NODES, ProofFile, ProofHead};
use handler::head::Head;
use handler::reading::read_handler;
use handler::{HandlerFile, HandlerSummary, MOST_STATEMENTS};

// docs/FORMAT.md, "Limits": the longest handler file and the longest proof file, in bytes.
pub const MOST_HANDLER_BYTES: usize = 16384;

pub const MOST_PROOF_BYTES: usize = 16384;

// How a proof file arranges its relations.
#[derive(Clone, Copy)]
pub enum Arrangement {
    Rows,
}

// What a check is told besides the two files.
#[derive(Clone, Copy)]
pub struct Mode {
    pub arrangement: Arrangement,
}

// What both files hold: the summaries of a handler file and of a proof file.
#[derive(Clone, Copy)]
pub struct PairSummary {
    pub handler: HandlerSummary,
    pub proof: ProofHead,
}

// Why a pair is not read: a file is over its length, or the first fault of a file.
#[derive(Clone, Copy)]
pub enum PairFault {
    TooLong,
    At(FileFault),
}

impl From<FileFault> for PairFault {
    ghost from_gives = { λ fault result. result ≡ At fault };

    fn from(fault: FileFault) -> PairFault {
        PairFault::At(fault)
    }
}

// A pair without a fault: both summaries, the head, the table of the statements and that of the nodes.
#[derive(Drop)]
pub struct PairFile {
    pub read: PairSummary,
    pub head: Head,
    pub statements: [u64; MOST_STATEMENTS],
    pub nodes: [u64; MOST_NODES],
}

// The mode of all but a check that is told otherwise.
pub fn rows() -> Mode
    ensures { result ≡ rows }
{
    Mode {
        arrangement: Arrangement::Rows,
    }
}

// Whether a file of a pair is over its length.
pub fn too_long(handler: &[u8], proof: &[u8]) -> bool
    ensures { result ≡ too_long handler.now proof.now }
{
    (handler.len() > MOST_HANDLER_BYTES) | (proof.len() > MOST_PROOF_BYTES)
}

// Reads the proof file over what was read of the handler file.
fn read_over(proof: &[u8], handler: HandlerFile) -> Result<PairFile, PairFault>
    ensures { result ≡ file_over handler (proof_file (read_proof proof.now handler.head.states)) }
{
    let HandlerFile {
        summary,
        head,
        statements,
    } = handler;
    let ProofFile {
        head: tables,
        nodes,
    } = read_proof(proof, head.states)?;
    Ok(PairFile {
        read: PairSummary {
            handler: summary,
            proof: tables,
        },
        head,
        statements,
        nodes,
    })
}

// Reads two files, or finds their first fault. The nodes of the expressions are stored in `exprs`, as far as it goes.
fn read_files(handler: &[u8], proof: &[u8], exprs: &mut [u32]) -> Result<PairFile, PairFault>
    ensures file { result ≡ pair_file (read_pair handler.now proof.now) }
    ensures terms { exprs.new ≡ terms_read handler.now proof.now exprs.old }
{
    if too_long(handler, proof) {
        return Err(PairFault::TooLong);
    }
    let file = read_handler(handler, exprs)?;
    read_over(proof, file)
}

// Reads two files, or finds their first fault. No expression is kept.
pub fn read_pair(handler: &[u8], proof: &[u8]) -> Result<PairFile, PairFault>
    ensures { result ≡ pair_file (read_pair handler.now proof.now) }
{
    read_files(handler, proof, &mut [0u32; 0])
}

// Writes the tables of a proof file into the work words, as the arrangement has them.
fn fill_by(proof: &[u8], mode: Mode, n: u32, head: ProofHead, work: &mut [u64])
    ensures { work.new ≡ written (word_limited mode.arrangement proof.now n head.sets head.relations) work.old }
{
    match mode.arrangement {
        Arrangement::Rows => write_tables(proof, n, head.sets, head.relations, work),
    }
}

// The work words after a fault are 0, and untouched where a file is too long.
fn clear_after(fault: PairFault, work: &mut [u64])
    ensures { (pb : List ℕ) (mode : Mode) (read : PairRead) → pair_file read ≡ Err fault → work.new ≡ work_read pb mode read work.old }
{
    match fault {
        PairFault::At(_) => clear(work),
        PairFault::TooLong => {}
    }
}

// Reads two files, and leaves the nodes of the expressions in `exprs` and the tables of the pair in the work words. Where a file is too long
// both are untouched. After a fault the work words are 0, and so is `exprs` if the fault is one of the handler file.
pub fn load_pair(
    handler: &[u8],
    proof: &[u8],
    mode: Mode,
    exprs: &mut [u32],
    work: &mut [u64],
) -> Result<PairFile, PairFault>
    ensures answer { result ≡ pair_file (read_pair handler.now proof.now) }
    ensures terms { exprs.new ≡ terms_read handler.now proof.now exprs.old }
    ensures tables { work.new ≡ work_read proof.now mode (read_pair handler.now proof.now) work.old }
{
    let found = read_files(handler, proof, exprs);
    // By reference, so that the pair is not copied.
    match &found {
        Ok(file) => fill_by(proof, mode, file.head.states, file.read.proof, work),
        Err(fault) => clear_after(*fault, work),
    }
    found
}
