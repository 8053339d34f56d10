// Bytes written as digits into a lent store, one after the other. That there is room is asked at each step: `write_answer` has counted it before,
// and nothing may be written where the whole has no room.
ghost use Rattle.std.specs.Prelude.{◌≡◌, [], ◌∷◌, ◌+◌, ◌*◌, ◌≤◌, ◌<◌, length};
ghost use Rattle.frames.specs.Hex.{digit_of, digits_of, line_of};
ghost use Rattle.frames.specs.Writing.{Room, Put, term_bytes, terms_of, term_number, row_head, row_bytes};

use rows::Row;

// A lent store, written up to a place.
#[derive(Drop)]
pub struct Out<'a> {
    to: &'a mut [u8],
    at: usize,
}

// Inner step. Two cases: `write!` would take a writer, and give an error that cannot come.
fn digit_of(n: u8) -> u8
    requires { n < 16 }
    ensures { result ≡ digit_of n }
{
    if n < 10 { b'0' + n } else { b'A' + (n - 10) }
}

impl<'a> Out<'a> {
    pub fn new(to: &'a mut [u8]) -> Out<'a>
        ensures same { result.to.ghost_name ≡ to.entry.ghost_name }
        ensures store { result.to.now ≡ to.old }
        ensures place { result.at ≡ 0 }
    {
        Out { to, at: 0 }
    }

    // How many characters stand in it.
    pub fn count(&self) -> usize
        ensures { result ≡ self.now.at }
    {
        self.at
    }

    // Inner step: each byte as two digits.
    pub fn put(&mut self, bytes: &[u8])
        requires { Room (digits_of bytes.now) self.old }
        ensures { Put (digits_of bytes.now) self.old self.new }
    {
        for b in bytes {
            self.to[self.at] = digit_of(*b / 16);
            self.to[self.at + 1] = digit_of(*b % 16);
            self.at += 2;
        }
    }

    // Inner step: LF.
    pub fn end(&mut self)
        requires { Room (10 ∷ []) self.old }
        ensures { Put (10 ∷ []) self.old self.new }
    {
        self.to[self.at] = b'\n';
        self.at += 1;
    }

    // Inner step: the term of entry i, or nothing where it is 0.
    fn term(&mut self, i: usize, z: i32)
        requires { (i < 16) × Room (digits_of (term_bytes i z)) self.old }
        ensures { Put (digits_of (term_bytes i z)) self.old self.new }
    {
        if z != 0 {
            self.put(&[i as u8]);
            self.put(&z.to_be_bytes());
        }
    }

    // Inner step: all terms of a row.
    fn terms(&mut self, e: [i32; 16])
        requires { Room (digits_of (terms_of 0 e)) self.old }
        ensures { Put (digits_of (terms_of 0 e)) self.old self.new }
    {
        for (i, z) in e.iter().enumerate() {
            self.term(i, *z);
        }
    }

    // Inner step: the line of a row. Kind 03, owner kind 0, owner 0, strict, number of terms; then the terms.
    pub fn row(&mut self, r: Row)
        requires { Room (line_of (row_bytes r)) self.old }
        ensures { Put (line_of (row_bytes r)) self.old self.new }
    {
        let terms = term_number(r.entries) as u8;
        self.put(&[3, 0, 0, u8::from(r.strict), terms]);
        self.terms(r.entries);
        self.end();
    }
}

fn term_number(e: [i32; 16]) -> usize
    ensures { (result ≡ term_number e) × (result ≤ 16) }
{
    e.iter().filter(|z| **z != 0).count()
}

// How many characters the line of a row has.
pub fn row_length(r: Row) -> usize
    ensures { (result ≡ length (line_of (row_bytes r))) × (result ≤ 171) }
{
    term_number(r.entries) * 10 + 11
}
