ghost use Rattle.std.specs.Prelude.{◌≡◌, ◌↔◌, ◌+◌, ◌≤◌, ◌++◌, length, take, drop, IfSome, IsSome};

use crate::fill;

/// What one needs to find and open the messages of a log.
#[derive(Clone, Copy, Debug, PartialEq, Eq)]
pub struct Handle {
    pub id: u64,
    pub seed1: [u8; 32],
    pub seed2: [u8; 32],
    pub key: [u8; 32],
}

impl Handle {
    ghost use Rattle.tk_handle.specs.Handle.{handle_from, handle_bytes};

    /// The handle of a log, from a root: its two seeds and its key are the bytes of stream `id` under the root.
    pub fn from_root(id: u64, root: &[u8; 32]) -> Handle
        ensures { result ≡ handle_from id root.now }
    {
        let mut seed1 = [0; 32];
        let mut seed2 = [0; 32];
        let mut key = [0; 32];
        fill(root, id, 0, &mut seed1);
        fill(root, id, 8, &mut seed2);
        fill(root, id, 16, &mut key);
        Handle {
            id,
            seed1,
            seed2,
            key,
        }
    }

    /// The id, high byte first, then the two seeds and the key.
    pub fn to_bytes(&self) -> [u8; 104]
        ensures { result ≡ handle_bytes self.now }
    {
        let mut bytes = [0; 104];
        put(&mut bytes, 0, &self.id.to_be_bytes());
        put(&mut bytes, 8, &self.seed1);
        put(&mut bytes, 40, &self.seed2);
        put(&mut bytes, 72, &self.key);
        bytes
    }

    /// The handle that has these bytes: there is none where they aren't 104.
    pub fn from_bytes(bytes: &[u8]) -> Option<Handle>
        ensures whole { IsSome result ↔ (length bytes.now ≡ 104) }
        ensures found { IfSome result (λ h. handle_bytes h ≡ bytes.now) }
    {
        if bytes.len() != 104 {
            return None;
        }
        let mut id = [0; 8];
        let mut seed1 = [0; 32];
        let mut seed2 = [0; 32];
        let mut key = [0; 32];
        id.copy_from_slice(&bytes[..8]);
        seed1.copy_from_slice(&bytes[8..40]);
        seed2.copy_from_slice(&bytes[40..72]);
        key.copy_from_slice(&bytes[72..]);
        Some(Handle {
            id: u64::from_be_bytes(id),
            seed1,
            seed2,
            key,
        })
    }
}

// Writes a part over the bytes from a place on.
fn put(bytes: &mut [u8], at: usize, part: &[u8])
    requires { at + length part.now ≤ length bytes.old }
    ensures { bytes.new ≡ take at bytes.old ++ part.now ++ drop (at + length part.now) bytes.old }
{
    bytes[at..at + part.len()].copy_from_slice(part);
}
