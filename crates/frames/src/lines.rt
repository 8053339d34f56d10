// The first line of what is left of the input: its bytes, up to its LF.
ghost use Rattle.std.specs.Prelude.{◌≡◌, length, set};
ghost use Rattle.frames.specs.Hex.{first_bytes};
ghost use Rattle.frames.specs.Steps.{frame_limit, Decoded};

use crate::digits;

// A byte of the line, as far as there is room: no frame of right length is longer. By index: of what `get_mut` lends a proof knows no number
// afterwards.
fn keep(to: &mut [u8], n: usize, b: u8)
    ensures { to.new ≡ set to.old n b }
{
    if n < to.len() {
        to[n] = b;
    }
}

// Inner step: the first line: the first 1,280 of its bytes, and how many it has, if it is one of digits that ends in LF. One pass, and bytes
// beyond those are only counted: a line may be as long as the input.
pub fn decode(input: &[u8], to: &mut [u8]) -> Option<usize>
    requires { length to.old ≡ frame_limit }
    ensures { (length to.new ≡ frame_limit) × Decoded (first_bytes input.now) to.new result }
{
    let mut n = 0;
    for [c, d] in input.as_chunks::<2>().0 {
        let Some(b) = digits::pair(*c, *d) else {
            break;
        };
        keep(to, n, b);
        n += 1;
    }
    // Where the digits stop the line is to end.
    (input.get(2 * n) == Some(&b'\n')).then_some(n)
}
