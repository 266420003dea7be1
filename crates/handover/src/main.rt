// The check program: reads the handler file and the proof file, and prints the verdict on them in one line.
//
// Without arguments the files are handler.bin and proof.bin of the working folder; two arguments name them. Three arguments, the first
// the word explain, name them too, and then what the verdict means is printed after the line. Four arguments, the first the word
// canonical, name them and the file to which the proof file's one form is written. Seven arguments, the first the word compose, name
// the files of two pairs and the two files to which their parallel is written. After the word admit come the length of a core's frame and,
// for each of 1 to 16 guests, its ticks per step and its two files; then a line for each guest says its slot or why it was turned away.
// Any other arguments print the usage on standard error. A number that is none, and a file that cannot be opened, read or written, are
// named on standard error. In all these cases no line is printed.
#![tactic(auto)]

mod admit;
mod compose;
mod failure;
mod files;
mod number;
mod save;

ghost use Rattle.std.specs.Prelude.{ℕ, ◌≤◌, ◌<◌, length, IfOk, IfSome};

use canonical::MOST_FORM_BYTES;
use checker::{Fault, Verdict, WORK_WORDS};
use failure::{or_fail, write_error};
use pair::{MOST_HANDLER_BYTES, MOST_PROOF_BYTES};
use std::env::FillError;
use std::io;
use std::io::Read;
use std::rt::Env;
use viewer::File;

// A file that was read: its name as it was given, and its bytes.
#[derive(Clone, Copy)]
struct Given<'a> {
    path: &'a [u8],
    bytes: &'a [u8],
}

// Reads until the file ends or `buf` is full: only a read says when that is, so there is no range to go over.
fn read_to_end<R: Read>(file: &mut R, buf: &mut [u8]) -> io::Result<usize>
    ensures { IfOk result (λ n. n ≤ length buf.old) }
{
    let mut done = 0;
    while done < buf.len() {
        let more = file.read(&mut buf[done..])?;
        if more == 0 {
            break;
        }
        done += more;
    }
    Ok(done)
}

// Reads the front of the file at `path`, as much as `buf` holds.
fn read_front(rt: &HostRuntime, path: &[u8], buf: &mut [u8]) -> io::Result<usize>
    ensures { IfOk result (λ n. n ≤ length buf.old) }
{
    let mut file = files::open_read(rt, path)?;
    read_to_end(&mut file, buf)
}

// Does the same, or names the file on standard error.
fn read_file<'a>(rt: &HostRuntime, path: &[u8], buf: &'a mut [u8]) -> Option<&'a [u8]>
    ensures { IfSome result (λ bytes. length bytes.now ≤ length buf.old) }
{
    let n = or_fail(rt, path, read_front(rt, path, buf))?;
    Some(&buf[..n])
}

// Prints bytes, or says on standard error that they cannot be written.
fn print(rt: &HostRuntime, text: &[u8]) -> Option<()> {
    or_fail(rt, b"standard output", rt.write_all(text))
}

// Prints what `write` puts at the start of `room`, so many bytes as it answers.
fn print_written<W: FnOnce(&mut [u8]) -> usize>(
    rt: &HostRuntime,
    room: &mut [u8],
    write: W,
) -> Option<()>
    requires callable { W.IsAlwaysCallable write }
    requires within { (text : _) (n : ℕ) (after : _) → W.post write text n after → n ≤ length text.now }
{
    let n = write(room);
    print(rt, &room[..n])
}

// Prints the line.
#[tactic(auto, using(report::proofs::Lines::line_within))]
fn print_line(rt: &HostRuntime, v: Verdict) -> Option<()> {
    let mut room = [0u8; report::LINE_BYTES];
    print_written(rt, &mut room, |line| report::write_line(v, line))
}

// Prints the line of a file that was written.
#[tactic(auto, using(report::proofs::Lines::line_within))]
fn print_length(rt: &HostRuntime, length: u32) -> Option<()> {
    let mut room = [0u8; report::LINE_BYTES];
    print_written(rt, &mut room, |line| report::write_length(length, line))
}

// Prints the name of a file and its bytes from an index on.
fn print_bytes(rt: &HostRuntime, file: Given<'_>, from: usize) -> Option<()> {
    let mut room = [0u8; explain::TEXT_BYTES];
    print(rt, file.path)?;
    print_written(
        rt,
        &mut room,
        |text| explain::write_bytes(file.bytes, from, text),
    )
}

// Prints what a refusal means, and then the bytes at its place.
fn explain_refusal(
    rt: &HostRuntime,
    handler: Given<'_>,
    proof: Given<'_>,
    fault: Fault,
) -> Option<()> {
    let mut room = [0u8; explain::TEXT_BYTES];
    print_written(rt, &mut room, |text| {
        explain::write_refusal(handler.bytes, proof.bytes, fault, text)
    })?;
    if fault.number < explain::FIRST_IN_A_FILE {
        return Some(());
    }
    let at = viewer::locate(handler.bytes, proof.bytes, fault.number, fault.place);
    let file = match at.file {
        File::Handler => handler,
        File::Proof => proof,
    };
    print_bytes(rt, file, at.index)
}

// Prints what an accepted pair of files is about.
fn explain_accepted(rt: &HostRuntime, handler: &[u8], proof: &[u8], work: &[u64]) -> Option<()> {
    let mut room = [0u8; explain::TEXT_BYTES];
    print_written(
        rt,
        &mut room,
        |text| explain::write_accepted(handler, proof, work, text),
    )
}

// Checks the two files and prints the line.
fn check(rt: &HostRuntime, handler: Given<'_>, proof: Given<'_>) -> Option<()> {
    let mut work = [0u64; WORK_WORDS];
    print_line(
        rt,
        checker::check(handler.bytes, proof.bytes, pair::rows(), &mut work),
    )
}

// Does the same, and explains the line.
fn explain(rt: &HostRuntime, handler: Given<'_>, proof: Given<'_>) -> Option<()> {
    let mut work = [0u64; WORK_WORDS];
    let v = checker::check(handler.bytes, proof.bytes, pair::rows(), &mut work);
    print_line(rt, v)?;
    match v {
        Ok(_) => explain_accepted(rt, handler.bytes, proof.bytes, &work),
        Err(fault) => explain_refusal(rt, handler, proof, fault),
    }
}

// Writes the proof file in its one form to the file that argument 4 names, and prints its length, or the line of a refusal.
#[tactic(auto, using(crate::proofs::Room::written_within))]
fn write_form(rt: &HostRuntime, handler: Given<'_>, proof: Given<'_>) -> Option<()> {
    let mut form = [0u8; MOST_FORM_BYTES];
    let outcome = canonical::write_form(handler.bytes, proof.bytes, &mut form);
    match outcome {
        Ok(length) => {
            let mut out = [0u8; ARGUMENT_BYTES];
            let out = argument(rt, 4, &mut out);
            let form = &form[..length as usize];
            save::save(rt, out, form)?;
            print_length(rt, length)
        }
        Err(fault) => print_line(rt, Err(fault)),
    }
}

// One byte more than each file may have: enough to refuse it as too long, so no more is read.
const HANDLER_BYTES: usize = MOST_HANDLER_BYTES + 1;

const PROOF_BYTES: usize = MOST_PROOF_BYTES + 1;

// Reads the files at the two paths and does the task with them, unless one of them cannot be read. It is not inlined: otherwise the buffers
// of every command are in the frame of `main`, and each command needs the stack of all.
#[inline(never)]
fn do_with_files<T: FnOnce(&HostRuntime, Given<'_>, Given<'_>) -> Option<()>>(
    rt: &HostRuntime,
    handler_path: &[u8],
    proof_path: &[u8],
    task: T,
) -> Option<()>
    requires { T.IsAlwaysCallable task }
{
    let mut handler = [0u8; HANDLER_BYTES];
    let handler = Given {
        path: handler_path,
        bytes: read_file(rt, handler_path, &mut handler)?,
    };
    let mut proof = [0u8; PROOF_BYTES];
    let proof = Given {
        path: proof_path,
        bytes: read_file(rt, proof_path, &mut proof)?,
    };
    task(rt, handler, proof)
}

// The longest argument that Linux passes to a program, with its final 0.
const ARGUMENT_BYTES: usize = 131072;

// Puts argument i at the start of `room`. One that does not fit fills `room`: the file is then reported under the bytes that fit.
fn argument<'a>(rt: &HostRuntime, i: usize, room: &'a mut [u8]) -> &'a [u8]
    ensures { length result.now ≤ length room.old }
{
    let n = match rt.arg(i, room) {
        Ok(n) => n,
        Err(FillError::TooLong) => room.len(),
        Err(FillError::NotPresent) => 0,
    };
    &room[..n]
}

// Reads the file that argument i names, as much as `buf` holds.
fn read_argument<'a>(rt: &HostRuntime, i: usize, buf: &'a mut [u8]) -> Option<&'a [u8]>
    ensures { IfSome result (λ bytes. length bytes.now ≤ length buf.old) }
{
    let mut name = [0u8; ARGUMENT_BYTES];
    read_file(rt, argument(rt, i, &mut name), buf)
}

// Does the task with the files that the arguments from `first` on name: the handler and the proof. Not inlined either.
#[inline(never)]
fn do_with_arguments<T: FnOnce(&HostRuntime, Given<'_>, Given<'_>) -> Option<()>>(
    rt: &HostRuntime,
    first: usize,
    task: T,
) -> Option<()>
    requires always { T.IsAlwaysCallable task }
    requires few { first < 3 }
{
    let mut handler = [0u8; ARGUMENT_BYTES];
    let handler = argument(rt, first, &mut handler);
    let mut proof = [0u8; ARGUMENT_BYTES];
    let proof = argument(rt, first + 1, &mut proof);
    do_with_files(rt, handler, proof, task)
}

// Whether the first argument is a command, a word of less than 16 bytes. One that is longer fills the 16 bytes.
fn asks_to(rt: &HostRuntime, command: &[u8]) -> bool {
    let mut given = [0u8; 16];
    argument(rt, 1, &mut given) == command
}

// Prints on standard error how the program is called and what its line means.
fn print_usage(rt: &HostRuntime) {
    let usage =
        b"usage: handover                                     checks handler.bin and proof.bin of the working folder
       handover HANDLER PROOF                       checks these two files
       handover explain HANDLER PROOF               checks them, and says below the line what the verdict means
       handover canonical HANDLER PROOF OUT         writes the proof file in its one form to the file OUT
       handover compose H1 P1 H2 P2 HOUT POUT       writes the parallel of two accepted pairs to the files HOUT and POUT
       handover admit FRAME TICKS HANDLER PROOF ..  gives guests slots in a frame, each by its ticks per step and its files
Checks a handler against its proof and prints one line, the verdict:
  accepted K               the proof is right: while others keep its rely, the handler takes at most K steps
  refused NUMBER bit B     a file is too long or ill-formed: the first fault is at its bit B
  refused NUMBER node D    the files are well-formed: the first fault is at node D of the proof
With canonical the line is one of these:
  written LENGTH           OUT holds the form, of so many bytes
  refused NUMBER bit B     a file is too long or ill-formed, and OUT is as it was
With compose the line is one of these:
  composed K               HOUT and POUT hold the handler and its proof, which the check accepts with K
  refused .. first pair    the first pair is refused, or a file of it is too long; HOUT and POUT are as they were
  refused .. second pair   the same of the second pair
  refused NUMBER bit 0     the pairs are accepted but cannot be composed; HOUT and POUT are as they were
With admit there is a line for each guest, on the places 0, 1, .. in order, and a last one. There are up to 16 guests; FRAME, in
ticks, is 1 to 1000000, and TICKS 1 to 1000:
  place P first F length L   the guest has the L ticks from tick F on: its step number times TICKS
  place P refused ..         the guest is turned away with the number and the place of a fault, and has no ticks
  left over N                the last N ticks of the frame are no guest's
The numbers are explained in docs/FAULTS.md. The exit status is always 0.
";
    write_error(rt, usage);
}

// How many arguments the program was started with, its own name among them.
fn argument_count(rt: &HostRuntime) -> usize {
    (0..usize::MAX)
        .find(|i| matches!(rt.arg(*i, &mut [0u8; 1]), Err(FillError::NotPresent)))
        .unwrap_or(usize::MAX)
}

// Chooses by the number of arguments. The program's own name is one of those that are counted.
fn run(rt: &HostRuntime) -> Option<()> {
    let count = argument_count(rt);
    if count < 2 {
        do_with_files(rt, b"handler.bin", b"proof.bin", check)
    } else if count == 3 {
        do_with_arguments(rt, 1, check)
    } else if (count == 4) & asks_to(rt, b"explain") {
        do_with_arguments(rt, 2, explain)
    } else if (count == 5) & asks_to(rt, b"canonical") {
        do_with_arguments(rt, 2, write_form)
    } else if (count == 8) & asks_to(rt, b"compose") {
        compose::compose_arguments(rt)
    } else {
        match admit::guests_among(count) {
            Some(guests) if asks_to(rt, b"admit") => admit::admit_arguments(rt, guests),
            _ => {
                print_usage(rt);
                None
            }
        }
    }
}

// Whatever is not done was named on standard error, and the exit status is 0 all the same.
fn main(rt: HostRuntime) {
    run(&rt);
}
