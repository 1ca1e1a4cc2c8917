ghost use Rattle.std.specs.Prelude.{◌≡◌, ◌<◌, ◌≤◌, length, take, IfOk, OnErr};
ghost use Rattle.tk_io.specs.Content.{Rose, before_taking, emptied};
ghost use Rattle.tk_packets.specs.Packets.{TakesAtMost};

use tk_io::{Failed, Source};

/// Takes bytes into the buffer until it is full or nothing is left, and says how many came.
pub(crate) fn fill<S: Source>(source: &mut S, buf: &mut [u8]) -> Result<usize, Failed>
    ensures within { IfOk result (λ n. n ≤ length buf.old) }
    ensures taken { IfOk result (λ n. S.left source.old ≡ before_taking (take n buf.new) (S.left source.new)) }
    ensures end { IfOk result (λ n. n < length buf.old → S.left source.new ≡ emptied (S.left source.old)) }
    ensures err { OnErr result (TakesAtMost (length buf.old) (S.left source.old) (S.left source.new)) }
    ensures rose { OnErr result (Rose (S.faults source.old) (S.faults source.new)) }
    ensures counts { S.faults source.old ≤ S.faults source.new }
{
    let mut done = 0;
    'pieces: while done < buf.len() {
        let Ok(n) = source.take(&mut buf[done..]) else {
            return Err(Failed);
        };
        if n == 0 {
            return Ok(done);
        }
        done += n;
    }
    Ok(done)
}
