ghost use Rattle.std.specs.Prelude.{◌≡◌, ◌+◌, ◌<◌, ◌≤◌, ◌^◌, ◌++◌, length, map, bit_xor};
ghost use Rattle.tk_seal.specs.Seal.{hmac, mixed_key};

use sha2::{Digest, Sha256};

/// HMAC-SHA-256 (RFC 2104, with FIPS 180-4) of `head` and `body` as one message.
pub fn hmac(key: &[u8], head: &[u8], body: &[u8]) -> [u8; 32]
    requires key_short { length key.now ≤ 64 }
    requires message_short { length head.now + length body.now < 2 ^ 60 }
    ensures { result ≡ hmac key.now (head.now ++ body.now) }
{
    let mut inner = Sha256::new();
    inner.update(mixed_key(key, 0x36));
    inner.update(head);
    inner.update(body);
    let mut outer = Sha256::new();
    outer.update(mixed_key(key, 0x5c));
    outer.update(inner.finalize());
    outer.finalize()
}

// The key and zeros, 64 bytes in all, each with a byte mixed in.
fn mixed_key(key: &[u8], with: u8) -> [u8; 64]
    requires { length key.now ≤ 64 }
    ensures { result ≡ mixed_key with key.now }
{
    let mut block = [0; 64];
    block[..key.len()].copy_from_slice(key);
    mix(&mut block, with);
    block
}

fn mix(bytes: &mut [u8], with: u8)
    ensures { bytes.new ≡ map (λ k. bit_xor k with) bytes.old }
{
    for byte in bytes.iter_mut() {
        *byte ^= with;
    }
}
