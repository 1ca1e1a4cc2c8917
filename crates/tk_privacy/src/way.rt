/// Which way the cells of writes are exchanged: from what a script draws to what it shows, or back.
#[derive(Clone, Copy, Debug)]
pub(crate) enum Way {
    Show,
    Regain,
}
