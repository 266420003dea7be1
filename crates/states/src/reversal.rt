// The bits of a word in the other order: a set has state 0 at the lowest bit of a word, and a file has it first.
ghost use Rattle.std.specs.Prelude.{◌≡◌, ◌*◌, ◌/◌, ◌%◌, ◌^◌, ◌<◌, eqb};
ghost use Rattle.std.specs.Int.Bits.{bit_and, bit_or};
ghost use Rattle.states.specs.Sets.{bits_where};

// Swaps the bits selected by `mask` with those `by` places higher.
fn swapped(word: u64, by: u32, mask: u64) -> u64
    requires { by < 64 }
    ensures { result ≡ bit_or (bit_and (word / 2 ^ by) mask) (bit_and word mask * 2 ^ by % 2 ^ 64) }
{
    ((word >> by) & mask) | ((word & mask) << by)
}

// The 64 bits of a word in the other order: single bits change places with their neighbours, then pairs, then fours, to
// halves.
pub fn reversed(word: u64) -> u64
    ensures { result ≡ bits_where 64 (λ k. eqb (word / 2 ^ k % 2) 1) }
{
    let word = swapped(word, 1, 0x5555555555555555);
    let word = swapped(word, 2, 0x3333333333333333);
    let word = swapped(word, 4, 0x0f0f0f0f0f0f0f0f);
    let word = swapped(word, 8, 0x00ff00ff00ff00ff);
    let word = swapped(word, 16, 0x0000ffff0000ffff);
    swapped(word, 32, 0x00000000ffffffff)
}
