// Reading a stream into a lent buffer.

#![tactic(auto)]

ghost use Rattle.std.specs.Prelude.{◌<◌, IfOk, length, take};
ghost use Rattle.std.specs.Io.{ReadsAtMost};
ghost use Rattle.std.specs.Io.KnownBytes.{Consumes, IsAtEnd, ReadConsumes};

use std::io;
use std::io::{ErrorKind, Read};

// One read, tried again where a signal breaks it off.
fn read_some<R: Read>(input: &mut R, space: &mut [u8]) -> io::Result<usize>
    ensures bound { ReadsAtMost result space.new }
    ensures bytes { ReadConsumes (R.remaining input.old) (R.remaining input.new) result space.new }
{
    for _ in 0..u64::MAX {
        match input.read(space) {
            Ok(n) => return Ok(n),
            Err(e) => {
                if e.kind() != ErrorKind::Interrupted {
                    return Err(e);
                }
            }
        }
    }
    input.read(space)
}

// Reads until there is no more room or the input ends, and gives how many bytes of the buffer it filled.
pub fn read_full<R: Read>(input: &mut R, space: &mut [u8]) -> io::Result<usize>
    ensures bound { ReadsAtMost result space.new }
    ensures bytes { IfOk result (λ n. Consumes (R.remaining input.old) (R.remaining input.new) (take n space.new)) }
    ensures whole { IfOk result (λ n. n < length space.new → IsAtEnd (R.remaining input.new)) }
{
    let room = space.len();
    let mut done = 0usize;
    for _ in 0..room {
        if done >= room {
            break;
        }
        let n = read_some(input, &mut space[done..])?;
        if n == 0 {
            break;
        }
        done += n;
    }
    Ok(done)
}

#[cfg(test)]
mod tests {
    use super::*;
    use std::test::Fail;

    // Gives the byte 7 a read, each second read broken off by a signal, and from some read on fails or is at its end.
    #[derive(Drop)]
    struct Slow {
        reads: u32,
        given: u32,
        fails: bool,
    }

    impl Read for Slow {
        fn read(&mut self, buf: &mut [u8]) -> io::Result<usize> {
            let turn = self.reads;
            self.reads = turn.wrapping_add(1);
            if turn % 2 == 0 {
                return Err(io::Error::from(ErrorKind::Interrupted));
            }
            if turn / 2 >= self.given {
                if self.fails {
                    return Err(io::Error::from(ErrorKind::BrokenPipe));
                }
                return Ok(0);
            }
            if buf.is_empty() {
                return Ok(0);
            }
            buf[0] = 7;
            Ok(1)
        }
    }

    fn in_parts(given: u32, fails: bool) -> Slow {
        Slow {
            reads: 0,
            given,
            fails,
        }
    }

    #[test]
    fn reads_in_parts(rt: HostRuntime) -> Result<(), Fail> {
        let mut space = [0u8; 4];
        assert_eq!(rt; read_full(&mut in_parts(3, false), &mut space)?, 3);
        assert_eq!(rt; space, [7, 7, 7, 0]);
        assert_eq!(rt; read_full(&mut in_parts(9, true), &mut space)?, 4);
        assert_eq!(rt; space, [7, 7, 7, 7]);
        Ok(())
    }

    #[test]
    fn passes_a_failure_on(rt: HostRuntime) {
        let mut space = [0u8; 4];
        match read_full(&mut in_parts(2, true), &mut space) {
            Ok(_) => panic!(rt; "the failure is lost"),
            Err(e) => assert_eq!(rt; e.kind(), ErrorKind::BrokenPipe),
        }
    }

    #[test]
    fn stops_at_the_end_or_without_room(rt: HostRuntime) -> Result<(), Fail> {
        let mut longer = [0u8; 5];
        let mut input: &[u8] = &[1, 2, 3];
        assert_eq!(rt; read_full(&mut input, &mut longer)?, 3);
        assert_eq!(rt; longer, [1, 2, 3, 0, 0]);
        let mut shorter = [0u8; 2];
        let mut again: &[u8] = &[1, 2, 3];
        assert_eq!(rt; read_full(&mut again, &mut shorter)?, 2);
        assert_eq!(rt; shorter, [1, 2]);
        assert_eq!(rt; again, &[3][..]);
        Ok(())
    }
}
