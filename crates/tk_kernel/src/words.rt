// The bits of many vectors over the same blocks, as words side by side.
ghost use Rattle.std.specs.Prelude.{◌≡◌, ℕ, ◌+◌, ◌<◌, ◌≤◌, length, take, drop, slice_index};
ghost use Rattle.std.specs.Prelude.{slice_index_or, vec_len, Vec};
ghost use Rattle.std.specs.Global.{Global};
ghost use Rattle.std.specs.List.{All};
ghost use Rattle.tk_kernel.specs.Words.{bytes_of};

/// The most vectors whose words are written down at once.
pub(crate) const MOST: usize = 128;

/// The bytes of a word.
pub(crate) const WORD: usize = 8;

/// So many bytes of each vector from number `first` on, as a word whose lowest byte is the first of them.
pub(crate) fn words_of(vectors: &[Vec<u8>], first: usize, bytes: usize) -> [u64; MOST]
    requires few { length vectors.now ≤ MOST }
    requires bytes { bytes ≤ 8 }
    requires vectors { All (λ v. first + bytes ≤ vec_len v) vectors.now }
    ensures { (k : ℕ) (e : Vec ℕ Global) → k < length vectors.now
        → bytes_of bytes (slice_index result k)
        ≡ take bytes (drop first (slice_index_or vectors.now k e).items) }
{
    if bytes == WORD {
        return whole_words(vectors, first);
    }
    let mut words = [0; MOST];
    for k in 0..vectors.len() {
        words[k] = short_word(&vectors[k][first..first + bytes]);
    }
    words
}

// The same of eight bytes.
fn whole_words(vectors: &[Vec<u8>], first: usize) -> [u64; MOST]
    requires few { length vectors.now ≤ MOST }
    requires vectors { All (λ v. first + 8 ≤ vec_len v) vectors.now }
    ensures { (k : ℕ) (e : Vec ℕ Global) → k < length vectors.now
        → bytes_of 8 (slice_index result k)
        ≡ take 8 (drop first (slice_index_or vectors.now k e).items) }
{
    let mut words = [0; MOST];
    for k in 0..vectors.len() {
        words[k] = word_at(vectors[k].as_slice(), first);
    }
    words
}

// Eight bytes as a word.
fn word_at(bytes: &[u8], first: usize) -> u64
    requires { first + 8 ≤ length bytes.now }
    ensures { bytes_of 8 result ≡ take 8 (drop first bytes.now) }
{
    let mut eight = [0; WORD];
    eight.copy_from_slice(&bytes[first..first + WORD]);
    u64::from_le_bytes(eight)
}

// Up to eight bytes as a word.
fn short_word(bytes: &[u8]) -> u64
    requires { length bytes.now ≤ 8 }
    ensures { bytes_of (length bytes.now) result ≡ bytes.now }
{
    let mut eight = [0; WORD];
    for i in 0..bytes.len() {
        eight[i] = bytes[i];
    }
    word_at(&eight, 0)
}
