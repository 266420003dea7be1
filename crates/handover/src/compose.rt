// Two pairs of files on one core: reads the four files, and writes the two files of their parallel, both or neither.
use super::save::save_both;
use super::{ARGUMENT_BYTES, HANDLER_BYTES, PROOF_BYTES, argument, print_written, read_argument};
use checker::{Verdict, WORK_WORDS};
use pair::{MOST_HANDLER_BYTES, MOST_PROOF_BYTES};

// The arguments that name the first of the files to be read and of those to be written.
const FIRST_READ: usize = 2;

const FIRST_WRITTEN: usize = 6;

// Prints the line of two pairs that were composed.
#[tactic(auto, using(report::proofs::Lines::line_within))]
fn print_composed(rt: &HostRuntime, steps: u32) -> Option<()> {
    let mut room = [0u8; report::LINE_BYTES];
    print_written(rt, &mut room, |line| report::write_composed(steps, line))
}

// Prints the line of a refusal, with the pair that it is about.
#[tactic(auto, using(report::proofs::Lines::line_within))]
fn print_pair(rt: &HostRuntime, v: Verdict, pair: u32) -> Option<()> {
    let mut room = [0u8; report::LINE_BYTES];
    print_written(rt, &mut room, |line| report::write_pair(v, pair, line))
}

// Writes the two files under the names that the arguments give them.
fn save_arguments(rt: &HostRuntime, handler: &[u8], proof: &[u8]) -> Option<()> {
    let mut name = [0u8; ARGUMENT_BYTES];
    let name = argument(rt, FIRST_WRITTEN, &mut name);
    let mut other = [0u8; ARGUMENT_BYTES];
    let other = argument(rt, FIRST_WRITTEN + 1, &mut other);
    save_both(rt, name, handler, other, proof)
}

// Composes two pairs, writes the files and prints the step number, or the line of a refusal.
#[tactic(auto, using(crate::proofs::Room::composed_within))]
fn compose_files(rt: &HostRuntime, h1: &[u8], p1: &[u8], h2: &[u8], p2: &[u8]) -> Option<()> {
    let mut work = [0u64; WORK_WORDS];
    let mut handler = [0u8; MOST_HANDLER_BYTES];
    let mut proof = [0u8; MOST_PROOF_BYTES];
    match composition::compose(h1, p1, h2, p2, &mut work, &mut handler, &mut proof) {
        Ok(made) => {
            let handler = &handler[..made.handler as usize];
            let proof = &proof[..made.proof as usize];
            save_arguments(rt, handler, proof)?;
            print_composed(rt, made.steps)
        }
        Err(turned) => print_pair(rt, Err(turned.fault), turned.pair),
    }
}

// Composes the pairs that the arguments name, unless a file cannot be read. Not inlined, as `do_with_files`.
#[inline(never)]
pub(crate) fn compose_arguments(rt: &HostRuntime) -> Option<()> {
    let mut h1 = [0u8; HANDLER_BYTES];
    let h1 = read_argument(rt, FIRST_READ, &mut h1)?;
    let mut p1 = [0u8; PROOF_BYTES];
    let p1 = read_argument(rt, FIRST_READ + 1, &mut p1)?;
    let mut h2 = [0u8; HANDLER_BYTES];
    let h2 = read_argument(rt, FIRST_READ + 2, &mut h2)?;
    let mut p2 = [0u8; PROOF_BYTES];
    let p2 = read_argument(rt, FIRST_READ + 3, &mut p2)?;
    compose_files(rt, h1, p1, h2, p2)
}
