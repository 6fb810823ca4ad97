// Reading an input to its end, or as much of it as a buffer holds.

#![tactic(auto)]

ghost use Rattle.std.specs.Prelude.{◌<◌, length, take, IfOk};
ghost use Rattle.std.specs.Io.{ReadsAtMost};
ghost use Rattle.std.specs.Io.KnownBytes.{Consumes, IsAtEnd};

use std::io;
use std::io::Read;

// Reads until the buffer is full or the input ends, and answers how many bytes it put at the start of the buffer: those are the next of the input, none
// of which is lost, and where the buffer has more room, the input has no more.
pub fn read_full<R: Read>(reader: &mut R, buffer: &mut [u8]) -> io::Result<usize>
    ensures in_bounds { ReadsAtMost result buffer.new }
    ensures bytes { IfOk result (λ n. Consumes (R.remaining reader.old) (R.remaining reader.new) (take n buffer.new)) }
    ensures all { IfOk result (λ n. n < length buffer.new → IsAtEnd (R.remaining reader.new)) }
{
    let mut done = 0;
    // A while: it leaps by what each read gives, so it counts nothing.
    while done < buffer.len() {
        let count = reader.read(&mut buffer[done..])?;
        if count == 0 {
            break;
        }
        done += count;
    }
    Ok(done)
}

#[cfg(test)]
mod tests {
    use super::*;

    // Gives its bytes one at a time, and after them fails.
    #[derive(Drop)]
    struct Dripping<'a>(&'a [u8]);

    impl Read for Dripping<'_> {
        fn read(&mut self, buf: &mut [u8]) -> io::Result<usize> {
            let Some((first, others)) = self.0.split_first() else {
                return Err(io::Error::from(io::ErrorKind::BrokenPipe));
            };
            if buf.is_empty() {
                return Ok(0);
            }
            buf[0] = *first;
            self.0 = others;
            Ok(1)
        }
    }

    #[test]
    fn reads_to_the_end(rt: HostRuntime) {
        let mut buffer = [7; 5];
        let mut input: &[u8] = b"abc";
        assert_eq!(rt; read_full(&mut input, &mut buffer).ok(), Some(3));
        assert_eq!(rt; buffer, [97, 98, 99, 7, 7]);
    }

    #[test]
    fn stops_where_it_is_full(rt: HostRuntime) {
        let mut buffer = [7; 2];
        let mut input: &[u8] = b"abc";
        assert_eq!(rt; read_full(&mut input, &mut buffer).ok(), Some(2));
        assert_eq!(rt; buffer, [97, 98]);
        assert_eq!(rt; input, b"c".as_slice());
    }

    #[test]
    fn goes_on_after_short_reads(rt: HostRuntime) {
        let mut buffer = [7; 3];
        assert_eq!(rt;
            read_full(&mut Dripping(b"abcd"), &mut buffer).ok(),
            Some(3)
        );
        assert_eq!(rt; buffer, [97, 98, 99]);
    }

    #[test]
    fn says_that_a_read_failed(rt: HostRuntime) {
        let mut buffer = [7; 3];
        assert!(rt; read_full(&mut Dripping(b"ab"), &mut buffer).is_err());
    }
}
