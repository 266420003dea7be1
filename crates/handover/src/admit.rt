// Guests on one core: reads the length of its frame, and of each guest the ticks per step and the two files, and tries the guests on the
// places from 0 on, in their order.
//
// The lines are printed together, after the last guest, so that there are none if an argument is no number or a file cannot be read.
ghost use Rattle.std.specs.Prelude.{◌≤◌, length, IfSome};

use super::number::number_in;
use super::{ARGUMENT_BYTES, HANDLER_BYTES, PROOF_BYTES, argument, print, read_argument, save};
use checker::{Fault, WORK_WORDS};
use frame::{Frame, PLACES, Refusal};

// The argument that is the frame's length, and the first of the guests', which have three each.
const FRAME_LENGTH: usize = 2;

const FIRST_GUEST: usize = 3;

const GUEST_ARGUMENTS: usize = 3;

// So many bytes hold the line of every guest and the last one.
const TABLE_BYTES: usize = (PLACES + 1) * report::LINE_BYTES;

// A guest as its arguments give it: the ticks per step, and the bytes of its files.
#[derive(Clone, Copy)]
struct Guest<'a> {
    ticks: u32,
    handler: &'a [u8],
    proof: &'a [u8],
}

// How many guests so many arguments name, the program's own name among them: three for each of 1 to 16, after the word and the frame's
// length.
pub(crate) fn guests_among(count: usize) -> Option<usize>
    ensures { IfSome result (λ guests. guests ≤ 16) }
{
    let arguments = count.checked_sub(FIRST_GUEST)?;
    let guests = arguments / GUEST_ARGUMENTS;
    if (guests == 0) | (arguments % GUEST_ARGUMENTS != 0) {
        return None;
    }
    if guests > PLACES {
        return None;
    }
    Some(guests)
}

// Reads argument i as a number, and names it on standard error if it is none.
fn read_number(rt: &HostRuntime, i: usize) -> Option<u32> {
    let mut text = [0u8; ARGUMENT_BYTES];
    let text = argument(rt, i, &mut text);
    let number = number_in(text);
    if number.is_none() {
        save::report(rt, text, b": Not a number from 0 to 4294967295\n");
    }
    number
}

// Reads the guest that the arguments from `first` on give: the ticks per step, the handler file and the proof file.
fn read_guest<'a>(
    rt: &HostRuntime,
    first: usize,
    handler: &'a mut [u8],
    proof: &'a mut [u8],
) -> Option<Guest<'a>>
    requires { first ≤ 48 }
    ensures handler { IfSome result (λ guest. length guest.handler.now ≤ length handler.old) }
    ensures proof { IfSome result (λ guest. length guest.proof.now ≤ length proof.old) }
{
    Some(Guest {
        ticks: read_number(rt, first)?,
        handler: read_argument(rt, first + 1, handler)?,
        proof: read_argument(rt, first + 2, proof)?,
    })
}

// Tries a guest with work words of its own.
fn try_guest(frame: &mut Frame, place: u32, guest: Guest<'_>) -> Result<(), Refusal> {
    let mut work = [0u64; WORK_WORDS];
    admission::admit(
        frame,
        place,
        guest.handler,
        guest.proof,
        guest.ticks,
        &mut work,
    )
}

// Writes the line of a guest that was tried: its slot, which is the last one, or the refusal.
#[tactic(auto, using(report::proofs::Lines::line_within))]
fn write_outcome(place: u32, frame: Frame, answer: Result<(), Refusal>, out: &mut [u8]) -> usize
    ensures { result ≤ length out.old }
{
    match answer {
        Ok(()) => {
            let slot = admission::last_slot(frame);
            report::write_slot(place, slot.first, slot.length, out)
        }
        Err(refusal) => report::write_turned(place, Err(Fault::from(refusal)), out),
    }
}

// Tries the guests on a frame of this length, and writes a line for each and the one of the ticks that are left over. The result is how many
// bytes were written; as a slice of the table it was tried, and the proof that it is no longer than the table did not close.
#[tactic(auto, using(report::proofs::Lines::line_within))]
fn write_table(
    rt: &HostRuntime,
    frame_length: u32,
    guests: usize,
    table: &mut [u8],
) -> Option<usize>
    requires { guests ≤ 16 }
    ensures { IfSome result (λ n. n ≤ length table.old) }
{
    let mut frame = admission::bare(frame_length);
    let mut end = 0;
    for i in 0..guests {
        let place = i as u32;
        let first = FIRST_GUEST + GUEST_ARGUMENTS * i;
        let mut handler = [0u8; HANDLER_BYTES];
        let mut proof = [0u8; PROOF_BYTES];
        let guest = read_guest(rt, first, &mut handler, &mut proof)?;
        let answer = try_guest(&mut frame, place, guest);
        end += write_outcome(place, frame, answer, &mut table[end..]);
    }
    end += report::write_left(admission::left_over(frame), &mut table[end..]);
    Some(end)
}

// Tries the guests that the arguments name, and prints the table, unless an argument cannot be read. Not inlined, as `do_with_files`.
#[inline(never)]
pub(crate) fn admit_arguments(rt: &HostRuntime, guests: usize) -> Option<()>
    requires { guests ≤ 16 }
{
    let frame_length = read_number(rt, FRAME_LENGTH)?;
    let mut table = [0u8; TABLE_BYTES];
    let n = write_table(rt, frame_length, guests, &mut table)?;
    print(rt, &table[..n])
}
