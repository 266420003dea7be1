// Two handlers on one core (docs/COMPOSITION.md): the parallel of two accepted pairs, with a proof of it.
#![tactic(auto)]

ghost use Rattle.std.specs.Prelude.{false, ◌≡◌, ◌≤◌, length};
ghost use Rattle.derivation.specs.Tables.{work_words, written};
ghost use Rattle.pair.specs.Limits.{too_long};
ghost use Rattle.composition.specs.Coding.{number_of, of_number, without_states};
ghost use Rattle.joint.specs.Composing.{plain, compose_into, work_after, handler_after, proof_after};
ghost use Rattle.composition.specs.Answers.{turned, composed, MadeIsAccepted};
ghost use Rattle.composition.specs.Refinement.{Small};

use checker::{Fault, Place, WORK_WORDS, check};
use derivation::words::clear;
use pair::{rows, too_long};
use pairs::compose_accepted;
use report::code_of;
use search::Named;

mod asking;
mod forms;
mod joining;
mod numbering;
mod pairs;
mod pool;
mod proof;
mod tables;
mod writing;

// What was written: the step number of the parallel, and the length of each file.
#[derive(Clone, Copy)]
pub struct Made {
    pub steps: u32,
    pub handler: u32,
    pub proof: u32,
}

// The fault for which nothing was written, and the pair whose fault it is, 1 or 2, or 0 for neither. The pair stays a number: `number_of` and
// `of_number` of specs/Coding are over it.
#[derive(Clone, Copy)]
pub struct Turned {
    pub pair: u32,
    pub fault: Fault,
}

// The result: what was written, or why nothing was.
pub type Composed = Result<Made, Turned>;

// A refusal at bit 0, with no states.
fn refusal(pair: u32, number: u32) -> Turned
    ensures { result ≡ turned pair (plain number) }
{
    let fault = Fault {
        number,
        place: Place::Bit(0),
        states: Named::Nothing,
    };
    Turned { pair, fault }
}

// What is asked of both pairs together is refused by its number alone: it is about neither pair.
impl From<u32> for Turned {
    ghost from_gives = { λ number t. t ≡ turned 0 (plain number) };

    fn from(number: u32) -> Turned {
        refusal(0, number)
    }
}

// The numbers of the first refusals: too few work words, and a file that is over its length.
const FEW_WORDS: u32 = 1;

const LONG_FILE: u32 = 2;

// Both checks, and then the composition of what they accepted. The work words hold the tables of the pair that was checked last.
fn compose_checked(
    h1: &[u8],
    p1: &[u8],
    h2: &[u8],
    p2: &[u8],
    work: &mut [u64],
    hout: &mut [u8],
    pout: &mut [u8],
) -> Composed
    requires { (work_words ≤ length work.old) × (too_long h1.now p1.now ≡ false) × (too_long h2.now p2.now ≡ false) }
    ensures answer { result ≡ composed (compose_into h1.now p1.now h2.now p2.now
        work.old hout.old pout.old) }
    ensures words { written (λ j. 0) work.new ≡ written (λ j. 0) work.old }
    ensures handler { hout.new ≡ handler_after (compose_into h1.now p1.now h2.now p2.now
        work.old hout.old pout.old) hout.old }
    ensures proof { pout.new ≡ proof_after (compose_into h1.now p1.now h2.now p2.now
        work.old hout.old pout.old) pout.old }
{
    let mode = rows();
    let steps = check(h1, p1, mode, work).map_err(|fault| Turned { pair: 1, fault })?;
    let more = check(h2, p2, mode, work).map_err(|fault| Turned { pair: 2, fault })?;
    compose_accepted(h1, p1, steps, h2, p2, more, hout, pout)
}

// The composition of two pairs of files, for all files and buffers: both files are written, or none. `MadeIsAccepted` is what is promised of
// files that were written.
pub fn compose(
    h1: &[u8],
    p1: &[u8],
    h2: &[u8],
    p2: &[u8],
    work: &mut [u64],
    hout: &mut [u8],
    pout: &mut [u8],
) -> Composed
    ensures answer { result ≡ composed (compose_into h1.now p1.now h2.now p2.now
        work.old hout.old pout.old) }
    ensures words { work.new ≡ work_after h1.now p1.now h2.now p2.now work.old }
    ensures handler { hout.new ≡ handler_after (compose_into h1.now p1.now h2.now p2.now
        work.old hout.old pout.old) hout.old }
    ensures proof { pout.new ≡ proof_after (compose_into h1.now p1.now h2.now p2.now
        work.old hout.old pout.old) pout.old }
    ensures accepted { MadeIsAccepted result hout.new pout.new }
{
    if work.len() < WORK_WORDS {
        return Err(refusal(0, FEW_WORDS));
    }
    if too_long(h1, p1) {
        return Err(refusal(1, LONG_FILE));
    }
    if too_long(h2, p2) {
        return Err(refusal(2, LONG_FILE));
    }
    let answer = compose_checked(h1, p1, h2, p2, work, hout, pout);
    clear(work);
    answer
}

// The parts of the answer as one number: the length of the handler file from bit 32 on, and that of the proof file from bit 47 on; or the top bit,
// and the pair from bit 48 on.
const HANDLERS: u64 = 4294967296;

const PROOFS: u64 = 140737488355328;

const PAIRS: u64 = 281474976710656;

const REFUSED: u64 = 9223372036854775808;

// The answer as one number.
fn number_of(answer: Composed) -> u64
    requires { Small answer }
    ensures { result ≡ number_of answer }
{
    match answer {
        Ok(made) => made.steps as u64 + HANDLERS * made.handler as u64 + PROOFS * made.proof as u64,
        Err(turned) => REFUSED + PAIRS * turned.pair as u64 + code_of(Err(turned.fault)),
    }
}

// The same with the answer as one number, for a host that calls over the C interface. `of_number` of it is the answer but for the states of a
// pair's own fault.
pub fn compose_number(
    h1: &[u8],
    p1: &[u8],
    h2: &[u8],
    p2: &[u8],
    work: &mut [u64],
    hout: &mut [u8],
    pout: &mut [u8],
) -> u64
    ensures number { result ≡ number_of (composed (compose_into h1.now p1.now h2.now p2.now
        work.old hout.old pout.old)) }
    ensures answer { of_number result ≡ without_states (composed (compose_into h1.now p1.now h2.now p2.now
        work.old hout.old pout.old)) }
    ensures words { work.new ≡ work_after h1.now p1.now h2.now p2.now work.old }
    ensures handler { hout.new ≡ handler_after (compose_into h1.now p1.now h2.now p2.now
        work.old hout.old pout.old) hout.old }
    ensures proof { pout.new ≡ proof_after (compose_into h1.now p1.now h2.now p2.now
        work.old hout.old pout.old) pout.old }
    ensures accepted { MadeIsAccepted (of_number result) hout.new pout.new }
{
    number_of(compose(h1, p1, h2, p2, work, hout, pout))
}
