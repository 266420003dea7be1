// The head of the file: the number of variables and their sizes.
ghost use Rattle.std.specs.Prelude.{◌≡◌, true, ◌+◌, ◌<◌, get_or, Ok};
ghost use Rattle.semantics.specs.States.{product};
ghost use Rattle.handler.specs.Header.{sizes_read, head_at, head_file, is_size, in_limits, is_head, sizes_in, machine_in};

use crate::codes::{MISSING, SIZE, STATES, VARIABLES};
use bits::FileFault;
use states::CAPACITY;

// docs/FORMAT.md, "Limits": 1 to 4 variables, sizes of 2 to 16, and no more states than a set can hold.
const MOST_VARIABLES: u64 = 4;

const LEAST_SIZE: u64 = 2;

const MOST_SIZE: u64 = 16;

const MOST_STATES: u64 = CAPACITY as u64;

// The widths in bits of the number of variables and of a size.
const COUNT_BITS: usize = 3;

const SIZE_BITS: usize = 5;

// The variables that the head declares: how many, the size of each (1 past the count), and the number of states N.
#[derive(Clone, Copy)]
pub struct Head {
    pub count: u32,
    pub sizes: [u32; 4],
    pub states: u32,
}

// The head of a file, and the first bit of the statement after it.
#[derive(Clone, Copy)]
pub struct HeadFile {
    pub head: Head,
    pub at: usize,
}

// Reads one more size after the first k. The product is computed in 64 bits.
fn add_size(src: &[u8], k: u64, file: HeadFile) -> Result<HeadFile, FileFault>
    requires { (k < 4) × (Ok file ≡ head_file (sizes_read src.now k)) }
    ensures { result ≡ head_file (sizes_read src.now (k + 1)) }
{
    let HeadFile { head, at } = file;
    let (size, next) = bits::read_or(src, at, SIZE_BITS, MISSING)?;
    if size < LEAST_SIZE || size > MOST_SIZE {
        return Err(FileFault {
            number: SIZE,
            bit: at,
        });
    }
    let states = head.states as u64 * size;
    if states > MOST_STATES {
        return Err(FileFault {
            number: STATES,
            bit: at,
        });
    }
    let mut sizes = head.sizes;
    sizes[k as usize] = size as u32;
    Ok(HeadFile {
        head: Head {
            count: head.count + 1,
            sizes,
            states: states as u32,
        },
        at: next,
    })
}

// Reads the head of the file, or finds its first fault.
pub fn read_head(src: &[u8]) -> Result<HeadFile, FileFault>
    ensures { result ≡ head_file (head_at src.now) }
{
    let (count, first) = bits::read_or(src, 0, COUNT_BITS, MISSING)?;
    if count < 1 || count > MOST_VARIABLES {
        return Err(FileFault {
            number: VARIABLES,
            bit: 0,
        });
    }
    let none = Head {
        count: 0,
        sizes: [1; 4],
        states: 1,
    };
    let mut file = HeadFile {
        head: none,
        at: first,
    };
    for k in 0..count {
        file = add_size(src, k, file)?;
    }
    Ok(file)
}

// Whether a variable can have this size. A variable past the count has size 1.
fn is_size(size: u32) -> bool
    ensures { result ≡ is_size size }
{
    1 <= size && size as u64 <= MOST_SIZE
}

// The size of variable v; 1 if it is not declared.
pub fn size_of(head: Head, v: u32) -> u32
    ensures { result ≡ get_or (sizes_in head) v 1 }
{
    if v >= head.count {
        return 1;
    }
    head.sizes.get(v as usize).copied().unwrap_or(1)
}

// Whether the numbers are within the limits of a head.
#[tactic(auto, unfolding(crate::specs::Header::in_limits))]
fn in_limits(head: Head) -> bool
    ensures { result ≡ in_limits head }
{
    head.count as u64 <= MOST_VARIABLES
        && head.states as u64 <= MOST_STATES
        && head.sizes.iter().all(|size| is_size(*size))
}

// The product of the sizes. They are small, so it fits.
fn product_of(head: Head) -> u32
    requires { in_limits head ≡ true }
    ensures { result ≡ product (sizes_in head) }
{
    size_of(head, 0) * (size_of(head, 1) * (size_of(head, 2) * size_of(head, 3)))
}

// Whether the numbers make a head: they are within the limits, and N is the product of the sizes.
#[tactic(auto, unfolding(crate::specs::Header::is_head))]
pub fn is_head(head: Head) -> bool
    ensures { result ≡ is_head head }
{
    in_limits(head) && head.states == product_of(head)
}

// The number of states; 0 if the numbers do not make a head.
#[tactic(auto, unfolding(crate::specs::Header::machine_in))]
pub fn states_in(head: Head) -> u32
    ensures { result ≡ (machine_in head).states }
{
    if is_head(head) { head.states } else { 0 }
}
