/// A turn, and a place in it: a client's, or a server's.
#[derive(Clone, Copy, Debug)]
pub(crate) struct TurnPlace {
    pub turn: u32,
    pub place: u32,
}
