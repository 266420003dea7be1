// What a core's frame holds, which calls are turned away, and what holds after any calls (specs/, proofs/). The crate `admission` has the
// functions; here are the types, and the fault of a refusal.
#![tactic(auto)]

ghost use Rattle.std.specs.Prelude.{◌≡◌};
ghost use Rattle.frame.specs.Calls.{refusal_fault};

use checker::{Fault, Place};
use search::Named;

// How many guest places a core has.
pub const PLACES: usize = 16;

// The slot of a guest: its place, its first tick and its length in ticks.
#[derive(Clone, Copy)]
pub struct Slot {
    pub place: u32,
    pub first: u32,
    pub length: u32,
}

// The record of a core: the length of its frame in ticks, and the slots in order of admission, of which the first `count` are held. A host
// lends it as 50 numbers (`handover_admit`), and a count over 16 is answered with 102, so the count is a field of its own.
#[derive(Clone, Copy)]
pub struct Frame {
    pub length: u32,
    pub count: u32,
    pub slots: [Slot; PLACES],
}

// Why a call is turned away. docs/ADMISSION.md has the number of each refusal.
#[derive(Clone, Copy)]
pub enum Refusal {
    NoSuchPlace,
    Taken,
    NotTaken,
    Malformed,
    WrongTicks,
    Check(Fault),
    NoRoom,
}

// The answer to a call, and the record after it: what the definitions of specs/ give for a call.
#[derive(Clone, Copy)]
pub struct Outcome {
    pub frame: Frame,
    pub answer: Result<(), Refusal>,
}

// The refusal with its number. Those that are not the check's have no place of their own, and are at bit 0.
impl From<Refusal> for Fault {
    ghost from_gives = { λ refusal fault. fault ≡ refusal_fault refusal };

    fn from(refusal: Refusal) -> Fault {
        let number = match refusal {
            Refusal::NoSuchPlace => 100,
            Refusal::Taken => 101,
            Refusal::NotTaken => 101,
            Refusal::Malformed => 102,
            Refusal::WrongTicks => 104,
            Refusal::Check(fault) => return fault,
            Refusal::NoRoom => 103,
        };
        Fault {
            number,
            place: Place::Bit(0),
            states: Named::Nothing,
        }
    }
}
