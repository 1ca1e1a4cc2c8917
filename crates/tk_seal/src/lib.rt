//! Texts that may be sent, their plain form, and its sealing.
#![tactic(auto)]

mod keyed_hash;
mod laws;
mod masking;
mod plain_form;
mod sealing;
mod text;

pub use keyed_hash::hmac;
pub use laws::opens_what_seals;
pub use masking::{LONGEST_PAD, mask, unmask};
pub use plain_form::{plain, plain_text};
pub use sealing::{open, seal};
pub use text::allowed;
