// A set of states is written as the files have it: a bit for each of n states, state 0 first. A set may have any number of words.
ghost use Rattle.std.specs.Prelude.{◌≡◌, ◌+◌, ◌*◌, ◌^◌, ◌≤◌, ◌<◌, length};
ghost use Rattle.states.specs.Sets.{has, bits_where};
ghost use Rattle.writer.specs.Writing.{put_bits};
ghost use Rattle.writer.specs.Sets.{put_set};

use crate::{has_room, put};
use states::{StateSet, bits_in_word};

// Puts the bits of n states from a cursor on: in each round those of one word.
fn put_members(out: &mut [u8], at: usize, n: u32, set: StateSet)
    requires { (at + n ≤ 8 * length out.old) × (at + n < 2 ^ 64) }
    ensures { out.new ≡ put_bits out.old at n (bits_where n (has set)) }
{
    let width = n as usize;
    for part in 0..(width + 63) / 64 {
        put(
            out,
            at + 64 * part,
            bits_in_word(width, part),
            set.bits_of(n, part),
        );
    }
}

// Writes a set over n states at a cursor: n bits, state 0 first. Bits that do not fit in full are not written.
pub fn put_set(out: &mut [u8], at: usize, n: u32, set: StateSet)
    ensures { out.new ≡ put_set out.old at n (has set) }
{
    if has_room(out, at, n as usize) {
        put_members(out, at, n, set);
    }
}
