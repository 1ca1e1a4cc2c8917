ghost use Rattle.std.specs.Prelude.{◌≡◌, ℕ, ◌≤◌, take, OnOk, OnErr};
ghost use Rattle.tk_io.specs.Content.{Rose, gained};

use crate::{Failed, Sink};

/// Offers all that is left of the bytes until nothing is left. After a fault the sink has gained a front of them.
pub fn put_all<K: Sink>(sink: &mut K, bytes: &[u8]) -> Result<(), Failed>
    ensures ok { OnOk result (K.held sink.new ≡ gained (K.held sink.old) bytes.now) }
    ensures err { OnErr result ((n : ℕ) × (K.held sink.new ≡ gained (K.held sink.old) (take n bytes.now))) }
    ensures rose { OnErr result (Rose (K.faults sink.old) (K.faults sink.new)) }
    ensures counts { K.faults sink.old ≤ K.faults sink.new }
{
    let mut done = 0;
    'pieces: while done < bytes.len() {
        let put = sink.put(&bytes[done..]);
        let Ok(n) = put else {
            return Err(Failed);
        };
        done += n;
    }
    Ok(())
}
