ghost use Rattle.std.specs.Prelude.{◌≡◌, ◌≢◌, ◌↔◌, ℕ, List, [], ◌∷◌, Some, IfSome, codes};
ghost use Rattle.tk_cli.specs.Requests.{Asks, AsksHandle, IsCrew, IsSmall, SpellsRoot};

use hex::FromHex;
use tk_script::plain_number;
use tk_shape::Bytes;

/// What the words ask for.
#[derive(Clone, Copy, Debug, PartialEq, Eq)]
pub(crate) enum Request {
    /// The report of a serial run.
    Serial,
    /// The same report, of a run whose reads go by way of one server.
    Relay,
    /// The same report, of a run whose servers begin anew at an epoch.
    Resume { epoch: u32 },
    /// The report of a run with threads, whose servers have their buckets in shards.
    Run { workers: u32, shards: u32 },
    /// What a server sees.
    View { server: u32 },
    /// The tape over which another script shows the same to all servers but one.
    Mirror { hidden: u32 },
    /// The same tape where all servers but the hidden one reply as they please.
    Wrong { hidden: u32 },
    /// The handle of a log, from a root.
    Handle { id: u64, root: [u8; 32] },
    /// The script that is made from a number.
    Make { number: u64 },
    /// What comes of its serial run.
    Tally { number: u64 },
    /// The script in format 2.
    Lift,
    /// None of the forms.
    Nothing,
}

pub(crate) fn request_of(words: &[Bytes]) -> Request
    ensures { Asks words.now result }
{
    match words {
        [word] => asked_alone(word.as_slice()),
        [word, number] => asked_numbered(word.as_slice(), number.as_slice()),
        [word, first, second] => asked_twice(word.as_slice(), first.as_slice(), second.as_slice()),
        _ => Request::Nothing,
    }
}

/// What one word asks for.
fn asked_alone(word: &[u8]) -> Request
    ensures { Asks (word.now ∷ []) result }
{
    if word == b"serial".as_slice() {
        return Request::Serial;
    }
    if word == b"run".as_slice() {
        return Request::Run {
            workers: 1,
            shards: 1,
        };
    }
    if word == b"relay".as_slice() {
        return Request::Relay;
    }
    if word == b"lift".as_slice() {
        return Request::Lift;
    }
    Request::Nothing
}

/// What a word and a number ask for. Each word has its own range of numbers.
fn asked_numbered(word: &[u8], number: &[u8]) -> Request
    ensures { Asks (word.now ∷ number.now ∷ []) result }
{
    if word == b"run".as_slice() {
        return asked_run(number);
    }
    if word == b"make".as_slice() {
        return asked_make(number);
    }
    if word == b"tally".as_slice() {
        return asked_tally(number);
    }
    asked_small(word, number)
}

/// What the word `run` and a number ask for.
fn asked_run(number: &[u8]) -> Request
    ensures { Asks (codes "run" ∷ number.now ∷ []) result }
{
    match crew_number(number) {
        Some(workers) => Request::Run { workers, shards: 1 },
        None => Request::Nothing,
    }
}

/// What the word `make` and a number ask for.
fn asked_make(number: &[u8]) -> Request
    ensures { Asks (codes "make" ∷ number.now ∷ []) result }
{
    match plain_number(number) {
        Some(number) => Request::Make { number },
        None => Request::Nothing,
    }
}

/// What the word `tally` and a number ask for.
fn asked_tally(number: &[u8]) -> Request
    ensures { Asks (codes "tally" ∷ number.now ∷ []) result }
{
    match plain_number(number) {
        Some(number) => Request::Tally { number },
        None => Request::Nothing,
    }
}

/// What another word and a number of 32 bits ask for: that of an epoch or a server.
fn asked_small(word: &[u8], number: &[u8]) -> Request
    requires run { word.now ≢ codes "run" }
    requires make { word.now ≢ codes "make" }
    requires tally { word.now ≢ codes "tally" }
    ensures { Asks (word.now ∷ number.now ∷ []) result }
{
    let Some(number) = small_number(number) else {
        return Request::Nothing;
    };
    if word == b"view".as_slice() {
        return Request::View { server: number };
    }
    if word == b"mirror".as_slice() {
        return Request::Mirror { hidden: number };
    }
    if word == b"wrong".as_slice() {
        return Request::Wrong { hidden: number };
    }
    if word == b"resume".as_slice() {
        return Request::Resume { epoch: number };
    }
    Request::Nothing
}

/// What a word and two more ask for.
fn asked_twice(word: &[u8], first: &[u8], second: &[u8]) -> Request
    ensures { Asks (word.now ∷ first.now ∷ second.now ∷ []) result }
{
    if word == b"run".as_slice() {
        return asked_sharded(first, second);
    }
    asked_handle(word, first, second)
}

/// What the word `run` and two numbers ask for.
fn asked_sharded(workers: &[u8], shards: &[u8]) -> Request
    ensures { Asks (codes "run" ∷ workers.now ∷ shards.now ∷ []) result }
{
    let Some(workers) = crew_number(workers) else {
        return Request::Nothing;
    };
    match crew_number(shards) {
        Some(shards) => Request::Run { workers, shards },
        None => Request::Nothing,
    }
}

/// What another word, an id and a root ask for.
fn asked_handle(word: &[u8], id: &[u8], root: &[u8]) -> Request
    requires { word.now ≢ codes "run" }
    ensures { Asks (word.now ∷ id.now ∷ root.now ∷ []) result }
{
    let Some(named) = handle_of(word, id, root) else {
        return Request::Nothing;
    };
    let root = named.1;
    Request::Handle { id: named.0, root }
}

/// The id and the root of the handle that a word, an id and a root ask for.
fn handle_of(word: &[u8], id: &[u8], root: &[u8]) -> Option<(u64, [u8; 32])>
    ensures found { IfSome result (λ named.
        AsksHandle (word.now ∷ id.now ∷ root.now ∷ []) named.0 named.1) }
    ensures only { (number : ℕ) (bytes : List ℕ) →
        AsksHandle (word.now ∷ id.now ∷ root.now ∷ []) number bytes →
        result ≡ Some (number, bytes) }
{
    if word != b"handle".as_slice() {
        return None;
    }
    let number = plain_number(id)?;
    let bytes = root_of(root)?;
    Some((number, bytes))
}

/// The number of workers, or of shards, that a plain decimal is.
fn crew_number(text: &[u8]) -> Option<u32>
    ensures { (n : ℕ) → (result ≡ Some n) ↔ IsCrew n text.now }
{
    match plain_number(text) {
        Some(number) if 1 <= number && number <= 64 => Some(number as u32),
        _ => None,
    }
}

/// The number of 32 bits that a plain decimal is.
fn small_number(text: &[u8]) -> Option<u32>
    ensures { (n : ℕ) → (result ≡ Some n) ↔ IsSmall n text.now }
{
    match plain_number(text) {
        Some(number) if number <= 4294967295 => Some(number as u32),
        _ => None,
    }
}

/// The root that 64 hexadecimal digits are.
fn root_of(digits: &[u8]) -> Option<[u8; 32]>
    ensures found { IfSome result (λ root. SpellsRoot digits.now root) }
    ensures only { (root : List ℕ) → SpellsRoot digits.now root → result ≡ Some root }
{
    <[u8; 32] as FromHex>::from_hex(digits).ok()
}
