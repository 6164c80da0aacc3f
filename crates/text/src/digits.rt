// Digits, read and written.
ghost use Rattle.std.specs.Prelude.{◌≡◌, ◌%◌};
ghost use Rattle.text.specs.Digits.{hex_value, digit_of, hex_digit, with_digit};

// The value of a hex digit, in either case; none for what is no digit.
#[tactic(auto, unfolding(crate::specs::Digits::hex_value))]
pub fn hex_value(c: u8) -> Option<u8>
    ensures { result ≡ digit_of (hex_value c) }
{
    match c {
        b'0'..=b'9' => Some(c - b'0'),
        b'A'..=b'F' => Some(c - b'A' + 10),
        b'a'..=b'f' => Some(c - b'a' + 10),
        _ => None,
    }
}

// One decimal digit more; none where what was read is no digit, or the number does not fit.
#[tactic(auto, unfolding(crate::specs::Digits::hex_value, crate::specs::Digits::with_digit))]
pub fn with_digit(n: usize, c: u8) -> Option<usize>
    ensures { result ≡ with_digit n c }
{
    match hex_value(c) {
        Some(d @ 0..=9) => n.checked_mul(10)?.checked_add(d as usize),
        _ => None,
    }
}

// The hex digit of the low half of an octet, in upper case.
#[tactic(auto, unfolding(crate::specs::Digits::hex_value, crate::specs::Digits::hex_digit))]
pub(crate) fn hex_digit(octet: u8) -> u8
    ensures { (result ≡ hex_digit octet) × (hex_value result ≡ octet % 16) }
{
    let half = octet % 16;
    if half < 10 {
        b'0' + half
    } else {
        b'A' + (half - 10)
    }
}
