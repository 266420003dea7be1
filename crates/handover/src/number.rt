// A number of an argument, in decimal.
ghost use Rattle.std.specs.Prelude.{◌≡◌};
ghost use Rattle.handover.specs.Number.{with_digit, number_in};

// The number that has one digit more, if the byte is a digit and the number still fits.
#[tactic(auto, unfolding(crate::specs::Number::with_digit))]
fn with_digit(value: u32, byte: u8) -> Option<u32>
    ensures { result ≡ with_digit value byte }
{
    if !byte.is_ascii_digit() {
        return None;
    }
    value.checked_mul(10)?.checked_add((byte - b'0') as u32)
}

// The number that a text says: digits only, and at least one.
#[tactic(auto, unfolding(crate::specs::Number::number_in, crate::specs::Number::number_from))]
pub(crate) fn number_in(text: &[u8]) -> Option<u32>
    ensures { result ≡ number_in text.now }
{
    if text.is_empty() {
        return None;
    }
    let mut value = 0;
    for byte in text {
        value = with_digit(value, *byte)?;
    }
    Some(value)
}
