ghost use Rattle.std.specs.Prelude.{◌≡◌, ◌≤◌, vec_len, IfOk};
ghost use Rattle.tk_handle.specs.Handle.{key_bytes};
ghost use Rattle.tk_relay.specs.Pads.{ArePads, keyed_pads, secret_of};

use crate::Pads;
use std::alloc::Global;
use tk_handle::fill;
use tk_shape::{Memory, Shape};

impl Pads {
    /// The pads of a client in a turn, from its seed. Each server shares a secret with the client, of which both of its
    /// pads come, the request pad first. A server must not know the seed, which gives all pads and all drawn vectors: it
    /// takes its own two pads into `from_bytes`, with any bytes in the place of the others.
    pub fn keyed(alloc: Global, shape: &Shape, seed: &[u8; 32], turn: u32) -> Result<Pads, Memory>
        ensures found { IfOk result (λ p. p
            ≡ record { shape = shape.now; pads = keyed_pads shape.now seed.now turn }) }
        ensures are { IfOk result (λ p. ArePads shape.now p.pads) }
    {
        let request_len = 2 * shape.vector_len() as usize;
        let both_len = request_len + 2 * shape.width() as usize;
        let mut both = vec![in alloc; 0u8; both_len]?;
        let mut bytes = Vec::new(alloc);
        let mut replies = Vec::new(alloc);
        for server in 2..shape.servers + 1 {
            fill_pads(seed, turn, server, &mut both);
            let (request, reply) = both.as_slice().split_at(request_len);
            bytes.extend_from_slice(request)?;
            replies.extend_from_slice(reply)?;
        }
        bytes.append(&mut replies)?;
        Ok(Pads {
            shape: *shape,
            bytes,
        })
    }
}

/// Both pads of a server for a turn.
fn fill_pads(seed: &[u8; 32], turn: u32, server: u32, out: &mut Vec<u8>)
    requires { vec_len out.old ≤ 65536 }
    ensures bytes { out.new.items ≡ key_bytes (secret_of seed.now server) turn 0 (vec_len out.old) }
    ensures len { vec_len out.new ≡ vec_len out.old }
{
    let mut secret = [0; 32];
    fill(seed, (1 << 32) + u64::from(server), 0, &mut secret);
    fill(&secret, u64::from(turn), 0, out.as_mut_slice());
}
