// Both files of the result, where no limit is passed and there is room for them.
ghost use Rattle.std.specs.Prelude.{◌≡◌, ◌≤◌, length, OnOk};
ghost use Rattle.states.specs.Sets.{capacity};
ghost use Rattle.semantics.specs.StepNumber.{most_steps};
ghost use Rattle.pair.specs.Limits.{most_handler_bytes, most_proof_bytes};
ghost use Rattle.derivation.specs.Tables.{most_tables, work_words};
ghost use Rattle.joint.specs.Composing.{Side, limited, handler_after, proof_after, with_room};
ghost use Rattle.composition.specs.Answers.{composed};
ghost use Rattle.composition.specs.Refinement.{sets_held, relations_held, AllSmall, Placed, LengthsAre, length_fault, files_of, small_counts, Ready, BothReady};

use crate::forms::Form;
use crate::numbering::{RelationNumbers, SetNumbers, number_relations, number_sets};
use crate::proof::{proof_bits, write_proof};
use crate::tables::roots_of;
use crate::writing::{file_bytes, write_handler};
use crate::{Composed, Made, refusal};
use checker::MOST_STEPS;
use derivation::{MOST_LEVELS, MOST_NODES, MOST_TABLES, ProofHead};
use handler::{HandlerSummary, MOST_STATEMENT_LEVELS, MOST_STATEMENTS};
use pair::{MOST_HANDLER_BYTES, MOST_PROOF_BYTES};
use states::SET_WORDS;

// A limit is passed by the result; an output buffer is too short.
const LIMIT_PASSED: u32 = 94;

const SHORT_BUFFER: u32 = 95;

// The limits of what is counted: the statements and nodes that the readers take, and their levels.
const STATEMENTS: u64 = MOST_STATEMENTS as u64;

const STATEMENT_LEVELS: u64 = MOST_STATEMENT_LEVELS as u64;

const NODES: u64 = MOST_NODES as u64;

const LEVELS: u64 = MOST_LEVELS as u64;

// What was read of both handler files, and the step number of their parallel.
#[derive(Clone, Copy)]
pub(crate) struct Handlers {
    pub first: HandlerSummary,
    pub second: HandlerSummary,
    pub steps: u64,
}

// The lengths of both files in bytes.
#[derive(Clone, Copy)]
struct Lengths {
    handler: usize,
    proof: usize,
}

// How long the files will be, from what was read and numbered.
fn measure(n: u32, both: Handlers, f: Form, g: Form, m: SetNumbers, k: RelationNumbers) -> Lengths
    requires { (n ≤ capacity) × (m.count ≤ most_tables) × (k.right.count ≤ most_tables) × Placed both.first × Placed both.second }
    ensures { LengthsAre n both f g m k result }
{
    let a = both.first;
    let b = both.second;
    let handler = file_bytes(a.end + 3 + (b.end - b.at));
    let proof = file_bytes(proof_bits(n, m, k, f, g));
    Lengths { handler, proof }
}

// Asks the limits of the lengths and of the step number, and room for both files. The `Err` is 94 or 95.
#[tactic(auto, unfolding(crate::specs::Refinement::length_fault))]
fn ask_lengths(l: Lengths, steps: u64, room: usize, space: usize) -> Result<(), u32>
    ensures answer { result ≡ length_fault l.handler l.proof steps room space }
    ensures within { OnOk result ((l.handler ≤ most_handler_bytes) × (l.proof ≤ most_proof_bytes) × (steps ≤ most_steps)
        × (l.handler ≤ room) × (l.proof ≤ space)) }
{
    let fit = (l.handler <= MOST_HANDLER_BYTES) & (l.proof <= MOST_PROOF_BYTES);
    if fit & (steps <= MOST_STEPS) {
        if (l.handler <= room) & (l.proof <= space) {
            return Ok(());
        }
        return Err(SHORT_BUFFER);
    }
    Err(LIMIT_PASSED)
}

// Writes both files, whose lengths are known before the first byte is written.
pub(crate) fn write_both(
    n: u32,
    first: &[u8],
    second: &[u8],
    both: Handlers,
    f: Form,
    g: Form,
    sets: &[u64],
    m: SetNumbers,
    relations: &[u64],
    k: RelationNumbers,
    hout: &mut [u8],
    pout: &mut [u8],
) -> Composed
    requires { (1 ≤ n) × (n ≤ capacity) × (m.count ≤ most_tables) × (k.right.count ≤ most_tables) × AllSmall k
        × Placed both.first × Placed both.second }
    ensures answer { result ≡ composed (with_room (files_of n first.now second.now both f g (sets_held n sets.now m.count) m
        (relations_held n relations.now k.right.count) k) (length hout.old) (length pout.old)) }
    ensures handler { hout.new ≡ handler_after (with_room (files_of n first.now second.now both f g (sets_held n sets.now m.count) m
        (relations_held n relations.now k.right.count) k) (length hout.old) (length pout.old)) hout.old }
    ensures proof { pout.new ≡ proof_after (with_room (files_of n first.now second.now both f g (sets_held n sets.now m.count) m
        (relations_held n relations.now k.right.count) k) (length hout.old) (length pout.old)) pout.old }
{
    let l = measure(n, both, f, g, m, k);
    ask_lengths(l, both.steps, hout.len(), pout.len())?;
    let a = both.first;
    let b = both.second;
    write_handler(first, a.at, a.end, second, b.at, b.end, hout);
    write_proof(n, sets, m, relations, k, f, g, l.proof, pout);
    Ok(Made {
        steps: both.steps as u32,
        handler: l.handler as u32,
        proof: l.proof as u32,
    })
}

// Whether the result is within the limits of counts and levels, and has at most 16 sets and 16 relations.
fn is_small(both: Handlers, f: ProofHead, g: ProofHead, sets: usize, relations: usize) -> bool
    ensures { result ≡ small_counts both.first both.second f g sets relations }
{
    let a = both.first;
    let b = both.second;
    let statements = a.statements as u64 + b.statements as u64 + 1;
    let levels = a.levels.max(b.levels) as u64 + 1;
    let nodes = f.nodes as u64 + g.nodes as u64 + 3;
    let depth = f.levels.max(g.levels) as u64 + 2;
    (statements <= STATEMENTS)
        & (levels <= STATEMENT_LEVELS)
        & (nodes <= NODES)
        & (depth <= LEVELS)
        & (sets <= MOST_TABLES)
        & (relations <= MOST_TABLES)
}

// The result of two sides: their tables are numbered, and both files are written if no limit is passed. The relations of the result are
// kept in words that the caller lends.
pub(crate) fn join(
    n: u32,
    first: &[u8],
    second: &[u8],
    both: Handlers,
    f: Form,
    words: &[u64],
    g: Form,
    others: &[u64],
    work: &mut [u64],
    hout: &mut [u8],
    pout: &mut [u8],
) -> Composed
    requires { BothReady n both f words.now g others.now × (work_words ≤ length work.old) }
    ensures answer { (A B : Side) → Ready n A both.first f words.now → Ready n B both.second g others.now
        → result ≡ composed (with_room (limited first.now second.now A B both.steps) (length hout.old) (length pout.old)) }
    ensures handler { (A B : Side) → Ready n A both.first f words.now → Ready n B both.second g others.now
        → hout.new ≡ handler_after (with_room (limited first.now second.now A B both.steps) (length hout.old)
        (length pout.old)) hout.old }
    ensures proof { (A B : Side) → Ready n A both.first f words.now → Ready n B both.second g others.now
        → pout.new ≡ proof_after (with_room (limited first.now second.now A B both.steps) (length hout.old)
        (length pout.old)) pout.old }
{
    let roots = roots_of(n, words, f.names, others, g.names);
    let mut sets = [0u64; SET_WORDS * MOST_TABLES];
    let fh = f.head;
    let gh = g.head;
    let m = number_sets(
        n,
        roots.p,
        words,
        fh.sets as usize,
        others,
        gh.sets as usize,
        &mut sets,
    );
    let k = number_relations(n, roots, words, f, others, g, work);
    let right = k.right;
    if is_small(both, fh, gh, m.count, right.count) {
        write_both(
            n,
            first,
            second,
            both,
            f,
            g,
            &sets,
            m,
            &work[..],
            k,
            hout,
            pout,
        )
    } else {
        Err(refusal(0, LIMIT_PASSED))
    }
}
