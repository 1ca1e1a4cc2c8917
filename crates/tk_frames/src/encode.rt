//! Encoders: each makes the room for a frame first, and then appends its one spelling. Where there is no room, nothing
//! is appended. Every value has a spelling, in range for a shape or not.
ghost use Rattle.std.specs.Prelude.{◌≡◌, ◌+◌, ◌-◌, ◌*◌, ◌^◌, ◌≤◌, ◌∷◌, ◌++◌, length, min};
ghost use Rattle.std.specs.Prelude.{vec_len, vec_capacity, OnOk, OnErr};
ghost use Rattle.std.specs.List.{flat_map};
ghost use Rattle.tk_frames.specs.Spelling.{be32, be64, write_fields, write_frame, read_frame};
ghost use Rattle.tk_frames.specs.Spelling.{reply_frame, placed_frame};
ghost use Rattle.tk_frames.specs.Lent.{lent_read, lent_reply};
ghost use Rattle.tk_frames.specs.Ranges.{AreTold};
ghost use Rattle.tk_frames.specs.declared.write_frame.WriteFrame.{WriteFrame};
ghost use Rattle.tk_frames.specs.declared.entry.Entry.TheVariants.{Write};

use crate::kind::{self, VERSION};
use crate::{Entry, LentRead, LentReply, Placed, ReadFrame, ReplyFrame, Seeds, Way, WriteFrame};
use tk_shape::Memory;

/// Appends bytes for which there is room.
fn put(out: &mut Vec<u8>, bytes: &[u8])
    requires { vec_len out.old + length bytes.now ≤ vec_capacity out.old }
    ensures items { out.new.items ≡ out.old.items ++ bytes.now }
    ensures len { vec_len out.new ≡ vec_len out.old + length bytes.now }
    ensures capacity { vec_capacity out.old ≤ vec_capacity out.new }
{
    out.extend_from_slice(bytes).unwrap();
}

fn put_u32(out: &mut Vec<u8>, number: u32)
    requires { vec_len out.old + 4 ≤ vec_capacity out.old }
    ensures items { out.new.items ≡ out.old.items ++ be32 number }
    ensures len { vec_len out.new ≡ vec_len out.old + 4 }
    ensures capacity { vec_capacity out.old ≤ vec_capacity out.new }
{
    put(out, &number.to_be_bytes());
}

fn put_u64(out: &mut Vec<u8>, number: u64)
    requires { vec_len out.old + 8 ≤ vec_capacity out.old }
    ensures items { out.new.items ≡ out.old.items ++ be64 number }
    ensures len { vec_len out.new ≡ vec_len out.old + 8 }
    ensures capacity { vec_capacity out.old ≤ vec_capacity out.new }
{
    put(out, &number.to_be_bytes());
}

fn put_words(out: &mut Vec<u8>, words: &[u32])
    requires { vec_len out.old + 4 * length words.now ≤ vec_capacity out.old }
    ensures items { out.new.items ≡ out.old.items ++ flat_map be32 words.now }
    ensures len { vec_len out.new ≡ vec_len out.old + 4 * length words.now }
    ensures capacity { vec_capacity out.old ≤ vec_capacity out.new }
{
    for word in words {
        put_u32(out, *word);
    }
}

fn put_fields(out: &mut Vec<u8>, write: &WriteFrame)
    requires { vec_len out.old + (16 + 4 * length write.now.hits + length write.now.block) ≤ vec_capacity out.old }
    ensures items { out.new.items ≡ out.old.items ++ write_fields write.now }
{
    put_words(out, &[write.client, write.turn, write.first, write.second]);
    put_words(out, write.hits.as_slice());
    put(out, write.block.as_slice());
}

/// Bytes of a write's fields; where they are more than fit a `usize`, as many as fit.
fn fields_len(write: &WriteFrame) -> usize
    ensures { result ≡ min (16 + 4 * length write.now.hits + length write.now.block) (2 ^ 64 - 1) }
{
    let hits = write.hits.as_slice().len().saturating_mul(4);
    let block = write.block.as_slice().len();
    hits.saturating_add(block).saturating_add(16)
}

/// Appends the one spelling of a write.
pub fn encode_write(frame: &WriteFrame, out: &mut Vec<u8>) -> Result<(), Memory>
    ensures ok { OnOk result (out.new.items ≡ out.old.items ++ write_frame frame.now) }
    ensures err { OnErr result (out.new.items ≡ out.old.items) }
{
    out.reserve(fields_len(frame).saturating_add(2))?;
    put(out, &[kind::WRITE, VERSION]);
    put_fields(out, frame);
    Ok(())
}

/// Appends the one spelling of an entry with its position: of a mark or of a record.
pub fn encode_placed(frame: &Placed, out: &mut Vec<u8>) -> Result<(), Memory>
    ensures ok { OnOk result (out.new.items ≡ out.old.items ++ placed_frame frame.now) }
    ensures err { OnErr result (out.new.items ≡ out.old.items) }
{
    match &frame.entry {
        Entry::Mark(epoch) => {
            out.reserve(14)?;
            put(out, &[kind::MARK, VERSION]);
            put_u64(out, frame.position);
            put_u32(out, *epoch);
            Ok(())
        }
        Entry::Write(write) => {
            out.reserve(fields_len(write).saturating_add(10))?;
            put(out, &[kind::RECORD, VERSION]);
            put_u64(out, frame.position);
            put_fields(out, write);
            Ok(())
        }
    }
}

/// Appends the one spelling of a record at a position whose write a frame spells: all of that frame but its head.
pub fn encode_record(position: u64, frame: &[u8], out: &mut Vec<u8>) -> Result<(), Memory>
    requires spelled { (write : WriteFrame) × (frame.now ≡ write_frame write) }
    ensures ok { (write : WriteFrame) → frame.now ≡ write_frame write → OnOk result
        (out.new.items ≡ out.old.items ++ placed_frame (record { position = position; entry = Write write })) }
    ensures err { OnErr result (out.new.items ≡ out.old.items) }
{
    out.reserve(frame.len().saturating_add(8))?;
    put(out, &[kind::RECORD, VERSION]);
    put_u64(out, position);
    put(out, &frame[2..]);
    Ok(())
}

/// Appends the one spelling of a read. Vectors that seeds alone tell are what the seeds expand to.
pub fn encode_read(frame: &ReadFrame, out: &mut Vec<u8>) -> Result<(), Memory>
    requires told { AreTold frame.now.seeds frame.now.first frame.now.second }
    ensures ok { OnOk result (out.new.items ≡ out.old.items ++ read_frame frame.now) }
    ensures err { OnErr result (out.new.items ≡ out.old.items) }
{
    let asker = [frame.client, frame.turn, frame.epoch];
    let (first, second) = (frame.first.as_slice(), frame.second.as_slice());
    match &frame.seeds {
        Seeds::Plain => encode_asked(kind::READ, asker, (&[], &[]), (first, second), out),
        Seeds::Seeded(seeds) => {
            encode_asked(
                kind::SEEDED,
                asker,
                (seeds.as_slice(), &[]),
                (&[], &[]),
                out,
            )
        }
        Seeds::Shown(seeds) => {
            encode_asked(
                kind::SHOWN,
                asker,
                (seeds.as_slice(), &[]),
                (first, second),
                out,
            )
        }
    }
}

/// Appends the one spelling of the read whose parts these are.
pub fn encode_lent_read(frame: &LentRead<'_>, out: &mut Vec<u8>) -> Result<(), Memory>
    ensures ok { OnOk result (out.new.items ≡ out.old.items ++ read_frame (lent_read frame.now)) }
    ensures err { OnErr result (out.new.items ≡ out.old.items) }
{
    let asker = [frame.client, frame.turn, frame.epoch];
    match frame.way {
        Way::Plain => encode_asked(kind::READ, asker, (&[], &[]), frame.vectors, out),
        Way::Seeded => encode_asked(kind::SEEDED, asker, frame.seeds, (&[], &[]), out),
        Way::Shown => encode_asked(kind::SHOWN, asker, frame.seeds, frame.vectors, out),
    }
}

/// Appends the one spelling of a reply.
pub fn encode_reply(frame: &ReplyFrame, out: &mut Vec<u8>) -> Result<(), Memory>
    ensures ok { OnOk result (out.new.items ≡ out.old.items ++ reply_frame frame.now) }
    ensures err { OnErr result (out.new.items ≡ out.old.items) }
{
    let asker = [frame.client, frame.turn, frame.epoch];
    let sums = (frame.first.as_slice(), frame.second.as_slice());
    encode_asked(kind::REPLY, asker, (&[], &[]), sums, out)
}

/// Appends the one spelling of the reply that has these sums.
pub fn encode_lent_reply(frame: &LentReply<'_>, out: &mut Vec<u8>) -> Result<(), Memory>
    ensures ok { OnOk result (out.new.items ≡ out.old.items ++ reply_frame (lent_reply frame.now)) }
    ensures err { OnErr result (out.new.items ≡ out.old.items) }
{
    let asker = [frame.client, frame.turn, frame.epoch];
    encode_asked(kind::REPLY, asker, (&[], &[]), frame.sums, out)
}

/// What a frame begins with that names who asks, as a read and a reply do: its kind, the version, and the client, turn
/// and epoch.
pub fn head_of(kind: u8, asker: [u32; 3]) -> [u8; 14]
    ensures { result ≡ kind ∷ 1 ∷ flat_map be32 asker }
{
    let [client, turn, epoch] = asker;
    let (c, t, e) = (
        client.to_be_bytes(),
        turn.to_be_bytes(),
        epoch.to_be_bytes(),
    );
    [
        kind, VERSION, c[0], c[1], c[2], c[3], t[0], t[1], t[2], t[3], e[0], e[1], e[2], e[3],
    ]
}

/// Appends a read or a reply: the asker, the seeds if there are any, and both vectors or sums.
fn encode_asked(
    kind: u8,
    asker: [u32; 3],
    seeds: (&[u8], &[u8]),
    vectors: (&[u8], &[u8]),
    out: &mut Vec<u8>,
) -> Result<(), Memory>
    ensures ok { let rest = (seeds.entry.0.now ++ seeds.entry.1.now) ++ (vectors.entry.0.now ++ vectors.entry.1.now) in
        OnOk result (out.new.items ≡ out.old.items ++ (kind ∷ 1 ∷ (flat_map be32 asker ++ rest))) }
    ensures err { OnErr result (out.new.items ≡ out.old.items) }
{
    let seeds_len = seeds.0.len().saturating_add(seeds.1.len());
    let vectors_len = vectors.0.len().saturating_add(vectors.1.len());
    out.reserve(seeds_len.saturating_add(vectors_len).saturating_add(14))?;
    put(out, &head_of(kind, asker));
    put(out, seeds.0);
    put(out, seeds.1);
    put(out, vectors.0);
    put(out, vectors.1);
    Ok(())
}
