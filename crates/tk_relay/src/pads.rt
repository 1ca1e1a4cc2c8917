ghost use Rattle.std.specs.Prelude.{◌≡◌, ◌↔◌, ◌-◌, ◌*◌, ◌≤◌, length, take, drop, IsOk, IfOk, IfErr};
ghost use Rattle.tk_shape.specs.Lengths.{vector_len, width};
ghost use Rattle.tk_relay.specs.Halves.{HasHalves, halves_in};
ghost use Rattle.tk_relay.specs.Pads.{ArePads, pads_len, pads_in, pad_of};

use std::marker::Model;
use tk_shape::Shape;

/// What masks a relayed read: for each server but the first a request pad and a reply pad. They are for one bundle and
/// one reply: used for two they give the difference of what is asked, or replied, away.
#[derive(Debug, Drop)]
pub struct Pads {
    pub(crate) shape: Shape,
    /// The request pads by server, and then the reply pads.
    pub(crate) bytes: Vec<u8>,
}

impl Model for Pads {
    ghost use Rattle.std.specs.Prelude.{◌≡◌, length};
    ghost use Rattle.tk_relay.specs.Pads.{Padding, pads_len, pads_in};

    ghost Value = { Padding };

    ghost view = { λ p. record { shape = p.shape; pads = pads_in p.shape p.bytes.items } };

    ghost invariant = { λ p. length p.bytes.items ≡ pads_len p.shape };
}

/// Pads of another length than the shape's: the bytes that the shape wants, and those that it got.
#[derive(Clone, Copy, Debug, PartialEq, Eq)]
pub struct PadError {
    pub want: u64,
    pub got: u64,
}

impl Pads {
    /// The pads that these bytes are: the request pads of servers 2 and up, of two vectors each, and then their reply
    /// pads, of two sums each. It takes no memory.
    pub fn from_bytes(shape: &Shape, bytes: Vec<u8>) -> Result<Pads, PadError>
        ensures whole { IsOk result ↔ (length bytes.items ≡ pads_len shape.now) }
        ensures found { IfOk result (λ p.
            p ≡ record { shape = shape.now; pads = pads_in shape.now bytes.items }) }
        ensures are { IfOk result (λ p. ArePads shape.now p.pads) }
        ensures refused { IfErr result (λ e.
            (e.want ≡ pads_len shape.now) × (e.got ≡ length bytes.items)) }
    {
        let want = pads_len(shape);
        let got = bytes.len() as u64;
        if got != want {
            return Err(PadError { want, got });
        }
        Ok(Pads {
            shape: *shape,
            bytes,
        })
    }

    /// The shape that they are for.
    pub fn shape(&self) -> &Shape
        ensures shape { result.now ≡ self.now.shape }
        ensures are { ArePads self.now.shape self.now.pads }
    {
        &self.shape
    }

    /// The two halves of a server's request pad.
    pub(crate) fn request(&self, server: u32) -> (&[u8], &[u8])
        requires low { 2 ≤ server }
        requires high { server ≤ self.now.shape.servers }
        ensures sized { let pad = pad_of self.now.pads.requests server in
            HasHalves (vector_len self.now.shape) pad }
        ensures first { result.0.now ≡ (pad_of self.now.pads.requests server).first }
        ensures second { result.1.now ≡ (pad_of self.now.pads.requests server).second }
    {
        let size = self.shape.vector_len() as usize;
        pad_at(self.bytes.as_slice(), size, server)
    }

    /// The two halves of a server's reply pad.
    pub(crate) fn reply(&self, server: u32) -> (&[u8], &[u8])
        requires low { 2 ≤ server }
        requires high { server ≤ self.now.shape.servers }
        ensures sized { let pad = pad_of self.now.pads.replies server in
            HasHalves (width self.now.shape) pad }
        ensures first { result.0.now ≡ (pad_of self.now.pads.replies server).first }
        ensures second { result.1.now ≡ (pad_of self.now.pads.replies server).second }
    {
        let others = self.shape.servers as usize - 1;
        let requests = others * (2 * self.shape.vector_len() as usize);
        let (_, replies) = self.bytes.as_slice().split_at(requests);
        pad_at(replies, self.shape.width() as usize, server)
    }
}

/// A server's pad of those that lie one after the other, from that of server 2 on, with halves of so many bytes.
fn pad_at(bytes: &[u8], size: usize, server: u32) -> (&[u8], &[u8])
    requires low { 2 ≤ server }
    requires long { (server - 1) * (2 * size) ≤ length bytes.now }
    ensures first { result.0.now
        ≡ (halves_in size (take (2 * size) (drop ((server - 2) * (2 * size)) bytes.now))).first }
    ensures second { result.1.now
        ≡ (halves_in size (take (2 * size) (drop ((server - 2) * (2 * size)) bytes.now))).second }
{
    let start = (server as usize - 2) * (2 * size);
    let (_, rest) = bytes.split_at(start);
    let (pad, _) = rest.split_at(2 * size);
    pad.split_at(size)
}

/// How many bytes the pads of a shape have.
fn pads_len(shape: &Shape) -> u64
    ensures { result ≡ pads_len shape.now }
{
    let each = 2 * u64::from(shape.vector_len()) + 2 * u64::from(shape.width());
    (u64::from(shape.servers) - 1) * each
}
