ghost use Rattle.std.specs.Prelude.{◌≡◌, ℕ, ◌+◌, ◌<◌, ◌≤◌, ◌^◌, List, length, IfOk, Err};
ghost use Rattle.tk_io.specs.Content.{Rose, before_taking, emptied, TakesUpTo};

use crate::{Failed, Memory, Source};
use std::alloc::{AllocError, AllocFailed, Global};

/// Why `read_all` gave no bytes.
#[derive(Clone, Copy, Debug, PartialEq, Eq)]
pub enum ReadError {
    Memory,
    /// The source failed.
    Fault,
    /// There are more bytes than the limit.
    TooLong,
}

impl From<AllocError> for ReadError {
    ghost use Rattle.tk_io.specs.declared.reading.ReadError.TheVariants as error;

    ghost from_gives = { λ _ e. e ≡ error.Memory };

    fn from(_e: AllocError) -> ReadError {
        ReadError::Memory
    }
}

/// How many bytes are asked for at once.
const PIECE: usize = 16384;

/// All bytes of the source to its end, where there are at most `limit` of them. At most one byte more is taken.
pub fn read_all<S: Source>(
    alloc: Global,
    source: &mut S,
    limit: usize,
) -> Result<Vec<u8>, ReadError>
    requires { limit + 1 < 2 ^ 64 }
    ensures all { IfOk result (λ v. S.left source.old ≡ before_taking v.items (S.left source.new)) }
    ensures end { IfOk result (λ v. S.left source.new ≡ emptied (S.left source.old)) }
    ensures within { IfOk result (λ v. length v.items ≤ limit) }
    ensures fault { result ≡ Err ReadError.Fault → Rose (S.faults source.old) (S.faults source.new) }
    ensures taken { (taken : List ℕ) × TakesUpTo limit (S.left source.old) (S.left source.new) (result ≡ Err ReadError.TooLong) taken }
    ensures counts { S.faults source.old ≤ S.faults source.new }
{
    let mut all = Vec::new(alloc);
    let mut piece = [0; PIECE];
    'pieces: loop {
        let room = limit - all.len();
        let asked = PIECE.min(room + 1);
        let got = source.take(&mut piece[..asked]);
        let Ok(n) = got else {
            return Err(ReadError::Fault);
        };
        if n == 0 {
            return Ok(all);
        }
        if n > room {
            return Err(ReadError::TooLong);
        }
        if all.extend_from_slice(&piece[..n]).is_err() {
            return Err(ReadError::Memory);
        }
    }
}
