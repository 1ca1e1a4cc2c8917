use std::marker::Model;
use tk_shape::Bytes;

/// A text of a script that is sent: its turn, its log and its number.
#[derive(Debug, Drop)]
pub struct Sent<'a> {
    pub turn: u32,
    pub log: u32,
    pub number: u32,
    pub text: &'a Bytes,
}

impl<'a> Model for Sent<'a> {
    ghost use Rattle.tk_script.specs.Sent.{Sending};

    ghost Value = { Sending };

    ghost view = { λ s. record {
      turn = s.turn;
      log = s.log;
      number = s.number;
      text = s.text.now;
    } };
}
