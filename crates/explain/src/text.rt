// Writing into a buffer that the caller lends. What does not fit is left out.
ghost use Rattle.std.specs.Prelude.{◌≡◌, ◌-◌, ◌≤◌, min};
ghost use Rattle.explain.specs.Text.{text_end, text_in};

// Puts a text into a buffer at a place, as far as there is room, and returns where it ends.
#[tactic(auto, unfolding(crate::specs::Text::text_end, crate::specs::Text::text_in, crate::specs::Text::fitting))]
pub fn put(out: &mut [u8], at: usize, text: &[u8]) -> usize
    ensures end { result ≡ text_end out.old at text.now }
    ensures bytes { out.new ≡ text_in out.old at text.now }
{
    if at >= out.len() {
        return at;
    }
    let end = out.len().min(at + text.len());
    out[at..end].copy_from_slice(&text[..end - at]);
    end
}

// Puts a text if it is wanted.
pub(crate) fn put_if(out: &mut [u8], at: usize, wanted: bool, text: &[u8]) -> usize {
    if wanted { put(out, at, text) } else { at }
}

// Puts a number in decimal: all digits but the last, then the last.
pub(crate) fn put_number(out: &mut [u8], at: usize, n: u64) -> usize {
    let digit = [b'0' + (n % 10) as u8];
    if n < 10 {
        return put(out, at, &digit);
    }
    let last = put_number(out, at, n / 10);
    put(out, last, &digit)
}

// Puts a hexadecimal digit.
pub(crate) fn put_digit(out: &mut [u8], at: usize, n: u8) -> usize {
    let digit = n % 16;
    let byte = if digit < 10 {
        b'0' + digit
    } else {
        b'a' - 10 + digit
    };
    put(out, at, &[byte])
}

// So much of a buffer as was filled: where a text ends, within the buffer.
pub(crate) fn within(end: usize, len: usize) -> usize
    ensures { result ≤ len }
{
    end.min(len)
}
