ghost use Rattle.std.specs.Prelude.{◌≡◌, ◌++◌, length, OnOk, IfOk, drop};
ghost use Rattle.tk_client.specs.Reader.{Reader};
ghost use Rattle.tk_member.specs.News.{news, news_from, numbers_known, got_packet, refused_packet};
ghost use Rattle.tk_member.specs.News.{cause_of, kind_of};

use crate::packets::packet_to;
use std::alloc::Global;
use tk_client::{Client, Got, SayError};
use tk_packets::Packet;
use tk_shape::{Bytes, Memory};

/// What tells the host that a text on a log is refused.
pub(crate) fn refused_packet(alloc: Global, log: u32, error: SayError) -> Result<Packet, Memory>
    ensures { IfOk result (λ packet. packet ≡ refused_packet log error) }
{
    let mut bytes = Vec::new(alloc);
    bytes.push(b'r')?;
    bytes.extend_from_slice(&log.to_be_bytes())?;
    bytes.push(cause_of(error))?;
    packet_to(0, Bytes::from_vec(bytes))
}

/// Why a text may not be said.
fn cause_of(error: SayError) -> u8
    ensures { result ≡ cause_of error }
{
    match error {
        SayError::Memory => 0,
        SayError::NotWriter { .. } => 1,
        SayError::TooLong { .. } => 2,
        SayError::Text { .. } => 3,
    }
}

/// How many numbers of each log a client knows.
pub(crate) fn known_numbers(alloc: Global, client: &Client) -> Result<Vec<usize>, Memory>
    ensures { IfOk result (λ v. v.items ≡ numbers_known client.now.shape client.now.reader) }
{
    let mut known = Vec::new(alloc);
    'logs: for log in 0..client.shape().logs {
        known.push(client.log(log).len())?;
    }
    Ok(known)
}

/// What tells the host what a client knows of each log behind the numbers that it knew before.
pub(crate) fn tell_news(
    alloc: Global,
    client: &Client,
    known: &[usize],
) -> Result<Vec<Packet>, Memory>
    requires { length known.now ≡ client.now.shape.logs }
    ensures { (before : Reader) → known.now ≡ numbers_known client.now.shape before
        → IfOk result (λ told. told.items ≡ news client.now.shape before client.now.reader) }
{
    let mut told = Vec::new(alloc);
    'logs: for log in 0..client.shape().logs {
        tell_log(alloc, log, known[log as usize], client.log(log), &mut told)?;
    }
    Ok(told)
}

/// Adds what tells the host what a log gave from a number on.
fn tell_log(
    alloc: Global,
    log: u32,
    known: usize,
    gots: &[Got],
    told: &mut Vec<Packet>,
) -> Result<(), Memory>
    ensures { OnOk result
        (told.new.items ≡ told.old.items ++ news_from log known (drop known gots.now)) }
{
    'numbers: for number in known..gots.len() {
        told.push(got_packet(alloc, log, number, &gots[number])?)?;
    }
    Ok(())
}

/// What tells the host what a number of a log gave. A number beyond those of 32 bits counts as want
/// of memory.
fn got_packet(alloc: Global, log: u32, number: usize, got: &Got) -> Result<Packet, Memory>
    ensures { IfOk result (λ packet. packet ≡ got_packet log number got.now) }
{
    let Ok(number) = u32::try_from(number) else {
        return Err(Memory);
    };
    let mut bytes = Vec::new(alloc);
    bytes.push(kind_of(got))?;
    bytes.extend_from_slice(&log.to_be_bytes())?;
    bytes.extend_from_slice(&number.to_be_bytes())?;
    if let Got::Text(text) = got {
        bytes.extend_from_slice(text.as_slice())?;
    }
    packet_to(0, Bytes::from_vec(bytes))
}

/// The letter of what a number gave.
fn kind_of(got: &Got) -> u8
    ensures { result ≡ kind_of got.now }
{
    match got {
        Got::Text(_) => b't',
        Got::Absent => b'a',
    }
}
