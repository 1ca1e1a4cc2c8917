use std::marker::Model;
use tk_shape::Bytes;

/// What a server replies to the read of a client in a turn, whatever its buckets hold: a sum for
/// each of the two buckets. Servers count from 1, turns and clients from 0.
#[derive(Debug, Drop)]
pub struct RawReply {
    pub turn: u32,
    pub client: u32,
    pub server: u32,
    pub first: Bytes,
    pub second: Bytes,
}

/// The replies of an input in order, by turn, client and server; seen as their list.
#[derive(Debug, Drop)]
pub struct RawReplies {
    items: Vec<RawReply>,
}

impl Model for RawReplies {
    ghost use Rattle.std.specs.Prelude.{List};
    ghost use Rattle.tk_script.specs.declared.reply.RawReply.{RawReply};

    ghost Value = { List RawReply };

    ghost view = { λ l. l.items.items };
}

impl RawReplies {
    ghost use Rattle.std.specs.Prelude.{◌≡◌};

    /// Replies in this order.
    pub fn from_vec(items: Vec<RawReply>) -> RawReplies
        ensures { result ≡ items.items }
    {
        RawReplies { items }
    }

    /// The replies in order.
    pub fn as_slice(&self) -> &[RawReply]
        ensures { result.now ≡ self.now }
    {
        self.items.as_slice()
    }

    /// The replies as a vector, in order.
    pub fn into_vec(self) -> Vec<RawReply>
        ensures { result.items ≡ self }
    {
        self.items
    }
}
