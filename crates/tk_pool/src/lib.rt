//! A pool of equal pages: spare ones are made ahead, so that taking one needs no memory.
#![tactic(auto)]

mod page;
mod pool;

pub use page::Page;
pub use pool::PagePool;
pub use tk_shape::Memory;
