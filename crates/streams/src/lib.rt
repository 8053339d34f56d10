// What the programs read by: a buffer that is filled from a reader, as far as its bytes go.
#![tactic(auto)]

ghost use Rattle.std.specs.Prelude.{◌≡◌, ◌<◌, ℕ, IfOk, length, take};
ghost use Rattle.std.specs.Io.{ReadsAtMost};
ghost use Rattle.std.specs.Io.KnownBytes.{Consumes, IsAtEnd};

use std::io;
use std::io::Read;

// Reads until the buffer is full or the reader is at its end, and answers how many bytes stand in front.
// After an error the buffer may hold bytes that were read before it.
pub fn read_full<R: Read>(reader: &mut R, buf: &mut [u8]) -> io::Result<usize>
    ensures bound { ReadsAtMost result buf.new }
    ensures bytes { IfOk result (λ n. Consumes (R.remaining reader.old) (R.remaining reader.new) (take n buf.new)) }
    ensures end { IfOk result (λ n. n < length buf.new → IsAtEnd (R.remaining reader.new)) }
{
    let mut done = 0;
    while done < buf.len() {
        let n = reader.read(&mut buf[done..])?;
        if n == 0 {
            return Ok(done);
        }
        done += n;
    }
    Ok(done)
}

#[cfg(test)]
mod tests {
    use super::*;
    use std::test::Fail;

    // Gives a byte a call, and fails where none is left.
    #[derive(Drop)]
    struct Dripping(u8);

    impl Read for Dripping {
        fn read(&mut self, buf: &mut [u8]) -> io::Result<usize> {
            if buf.is_empty() {
                return Ok(0);
            }
            if self.0 == 0 {
                return Err(io::Error::from(io::ErrorKind::BrokenPipe));
            }
            buf[0] = self.0;
            self.0 -= 1;
            Ok(1)
        }
    }

    #[test]
    fn full_and_at_the_end(rt: HostRuntime) -> Result<(), Fail> {
        let mut reader: &[u8] = b"abcde";
        let mut buf = [0u8; 3];
        assert_eq!(rt; read_full(&mut reader, &mut buf)?, 3);
        assert_eq!(rt; buf.as_slice(), b"abc".as_slice());
        assert_eq!(rt; read_full(&mut reader, &mut buf)?, 2);
        assert_eq!(rt; buf.as_slice(), b"dec".as_slice());
        assert_eq!(rt; read_full(&mut reader, &mut buf)?, 0);
        Ok(())
    }

    #[test]
    fn byte_by_byte_until_it_fails(rt: HostRuntime) -> Result<(), Fail> {
        let mut reader = Dripping(5);
        let mut buf = [0u8; 3];
        assert_eq!(rt; read_full(&mut reader, &mut buf)?, 3);
        assert_eq!(rt; buf.as_slice(), [5u8, 4, 3].as_slice());
        assert!(rt; read_full(&mut reader, &mut buf).is_err());
        Ok(())
    }
}
