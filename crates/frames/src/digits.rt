// Hexadecimal digits, bytes of two digits, and numbers of four bytes.
ghost use Rattle.std.specs.Prelude.{◌≡◌, ◌+◌, ◌≤◌, ◌<◌, length, IfSome};
ghost use Rattle.std.specs.Result.{result_ok};
ghost use Rattle.frames.specs.Hex.{digit, pair, word, signed};

// A digit's value; a lower-case letter is no digit.
#[tactic(auto, unfolding(crate::specs::Hex::digit))]
fn digit(c: u8) -> Option<u8>
    ensures value { result ≡ result_ok (digit c) }
    ensures small { IfSome result (λ v. v < 16) }
{
    match c {
        b'0'..=b'9' => Some(c - b'0'),
        b'A'..=b'F' => Some(c - b'A' + 10),
        _ => None,
    }
}

// The byte of two digits.
pub fn pair(c: u8, d: u8) -> Option<u8>
    ensures { result ≡ result_ok (pair c d) }
{
    Some(digit(c)? * 16 + digit(d)?)
}

// Inner step: 4 bytes from place i on, as a signed number.
pub fn word(b: &[u8], i: usize) -> i32
    requires { i + 4 ≤ length b.now }
    ensures { result ≡ signed (word b.now i) }
{
    i32::from_be_bytes([b[i], b[i + 1], b[i + 2], b[i + 3]])
}
