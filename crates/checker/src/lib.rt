// The check of two files: both are read once, and then the loop over the nodes checks the conditions of each.
#![tactic(auto)]

ghost use Rattle.std.specs.Prelude.{◌≡◌, length, Ok};
ghost use Rattle.derivation.specs.Tables.{written};
ghost use Rattle.pair.specs.Reading.{pair};
ghost use Rattle.checker.specs.Verdicts.{at_bit, unread, on_pair, answer, work_after, AcceptedIsSound};
ghost use Rattle.checker.specs.Refinement.{Loaded, decided};

use derivation::MOST_NODES;
use derivation::words::clear;
use handler::MOST_STATEMENTS;
use handler::head::Head;
use handler::terms::MOST_TERMS;
use nodes::first_fault;
use pair::{Mode, PairFault, PairSummary, load_pair};
use search::Named;

pub mod nodes;

// The least number of work words that the host lends.
pub const WORK_WORDS: usize = derivation::WORK_WORDS;

// The largest step number that is stated.
pub const MOST_STEPS: u64 = 4294967295;

// The numbers that the check itself gives (docs/FORMAT.md, "Limits").
const FEW_WORDS: u32 = 1;

const LONG_FILE: u32 = 2;

const MANY_STEPS: u32 = 80;

// Where a fault is: a bit of its file or a node of the derivation.
#[derive(Clone, Copy)]
pub enum Place {
    Bit(usize),
    Node(u32),
}

// A fault: its number, its place, and the states that a broken condition names.
#[derive(Clone, Copy)]
pub struct Fault {
    pub number: u32,
    pub place: Place,
    pub states: Named,
}

// The result of the check of two files: the step number of an accepted pair, or the first fault.
pub type Verdict = Result<u32, Fault>;

// A pair that is not read is refused: a file is too long, or a file has a fault at a bit.
impl From<PairFault> for Fault {
    ghost from_gives = { λ fault result. result ≡ unread fault };

    fn from(fault: PairFault) -> Fault {
        match fault {
            PairFault::TooLong => at_bit(LONG_FILE, 0),
            PairFault::At(fault) => at_bit(fault.number, fault.bit),
        }
    }
}

// A fault at a bit of a file, which names no states.
fn at_bit(number: u32, bit: usize) -> Fault
    ensures { result ≡ at_bit number bit }
{
    Fault {
        number,
        place: Place::Bit(bit),
        states: Named::Nothing,
    }
}

// The verdict from the step number: 80, at the root, if it is past the limit.
fn within_limit(steps: u64) -> Verdict
    ensures { result ≡ decided (Ok tt) steps }
{
    if steps > MOST_STEPS {
        return Err(Fault {
            number: MANY_STEPS,
            place: Place::Node(0),
            states: Named::Nothing,
        });
    }
    Ok(steps as u32)
}

// The verdict on a pair that was read and whose tables are in the work words.
fn decide(
    exprs: &[u32; MOST_TERMS],
    head: Head,
    statements: &[u64; MOST_STATEMENTS],
    nodes: &[u64; MOST_NODES],
    read: PairSummary,
    work: &[u64],
) -> Verdict
    requires { Loaded exprs.now head statements.now nodes.now read work.now }
    ensures { (l : Loaded exprs.now head statements.now nodes.now read work.now)
        → result ≡ (on_pair l.proof l.mode (pair l.held)).verdict }
{
    first_fault(exprs, head, work, nodes, statements, read.proof.nodes)?;
    within_limit(read.handler.steps)
}

// The same verdict. The tables stay in the work words only if the pair is accepted.
fn check_read(
    exprs: &[u32; MOST_TERMS],
    head: Head,
    statements: &[u64; MOST_STATEMENTS],
    nodes: &[u64; MOST_NODES],
    read: PairSummary,
    work: &mut [u64],
) -> Verdict
    requires { Loaded exprs.now head statements.now nodes.now read work.old }
    ensures verdict { (l : Loaded exprs.now head statements.now nodes.now read work.old)
        → result ≡ (on_pair l.proof l.mode (pair l.held)).verdict }
    ensures words { (l : Loaded exprs.now head statements.now nodes.now read work.old)
        → work.new ≡ written (on_pair l.proof l.mode (pair l.held)).words l.before }
{
    let verdict = decide(exprs, head, statements, nodes, read, work);
    if verdict.is_err() {
        clear(work);
    }
    verdict
}

// The check of two files, for every pair of files and every work buffer. On acceptance the tables are in the first 1,040 work words, and
// `AcceptedIsSound` is what the pair promises for every list of events.
pub fn check(handler: &[u8], proof: &[u8], mode: Mode, work: &mut [u64]) -> Verdict
    ensures verdict { result ≡ (answer handler.now proof.now mode (length work.old)).verdict }
    ensures words { work.new ≡ work_after handler.now proof.now mode work.old }
    ensures promise { AcceptedIsSound handler.now proof.now mode result }
{
    if work.len() < WORK_WORDS {
        return Err(at_bit(FEW_WORDS, 0));
    }
    let mut exprs = [0u32; MOST_TERMS];
    // By reference, not with `?`, which would make three copies of the pair.
    match &load_pair(handler, proof, mode, &mut exprs, work) {
        Ok(file) => check_read(
            &exprs,
            file.head,
            &file.statements,
            &file.nodes,
            file.read,
            work,
        ),
        Err(fault) => Err(Fault::from(*fault)),
    }
}
