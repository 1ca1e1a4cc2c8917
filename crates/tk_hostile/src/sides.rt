/// The servers of a run that is gone through: the one that is hidden, the one to whose read frames
/// the hidden one replies, and the one whose read frames are kept.
#[derive(Clone, Copy, Debug)]
pub(crate) struct Sides {
    pub hidden: u32,
    pub asked: u32,
    pub seen: u32,
}
