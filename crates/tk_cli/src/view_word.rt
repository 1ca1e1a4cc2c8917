//! The word `view`: what a server sees of a run whose history is given.
ghost use Rattle.std.specs.Prelude.{◌≡◌, ◌≤◌, ◌++◌, ℕ, List, IfOk, IfErr, Err, OnOk};
ghost use Rattle.tk_io.specs.Content.{TakesUpTo};
ghost use Rattle.tk_schedule.specs.Schedule.{IsLegal};
ghost use Rattle.tk_words.specs.Book.{shape_of, words_in};
ghost use Rattle.tk_report.specs.Exchange as told;
ghost use Rattle.tk_cli.specs.Endings.{IsTextFor, IsAnswered};
ghost use Rattle.tk_cli.specs.Handles.{hex_line, hex_lines};
ghost use Rattle.tk_cli.specs.Inputs.{IsSpelled, Refuses, Stops};
ghost use Rattle.tk_cli.specs.Limits.{input_limit};

use crate::input::{history_in, input_from, server_in};
use crate::request::Request;
use crate::status::Status;
use std::alloc::Global;
use tk_io::Source;
use tk_privacy::view;
use tk_schedule::History;
use tk_script::{Form, Input, Script};
use tk_shape::{Bytes, Memory};
use tk_words::Book;

/// The frames that a server sees of the run of an input's history, in hexadecimal, one a line.
pub(crate) fn view_text<S: Source>(
    alloc: Global,
    server: u32,
    source: &mut S,
) -> Result<Vec<u8>, Status>
    ensures made { IfOk result (λ text. IsAnswered (Request.View server)
        (S.left source.old) (S.left source.new) text.items) }
    ensures stopped { IfErr result (λ s. Stops (Request.View server) s
        (S.left source.old) (S.left source.new) (S.faults source.old) (S.faults source.new)) }
    ensures taken { (taken : List ℕ) × TakesUpTo input_limit (S.left source.old)
        (S.left source.new) (result ≡ Err Status.TooLong) taken }
    ensures counts { S.faults source.old ≤ S.faults source.new }
{
    let input = input_from(alloc, source, Form::View)?;
    viewed(alloc, server, input)
}

/// What a server sees of the run of an input's history, unless something refuses it.
fn viewed(alloc: Global, server: u32, input: Input) -> Result<Vec<u8>, Status>
    requires { IsSpelled Form.View input }
    ensures answer { IfOk result (λ text. IsTextFor (Request.View server) input text.items) }
    ensures refused { IfErr result (Refuses (Request.View server) input) }
{
    let Input {
        first: script,
        history,
        tape,
        ..
    } = input;
    let book = script.book(alloc, tape)?;
    let history = history_in(alloc, &script.shape, history)?;
    server_in(&script.shape, server)?;
    let frames = view_by(alloc, &script, &book, &history, server)?;
    Ok(lines_of(alloc, frames.as_slice())?)
}

/// The frames that a server sees of a run of a script by the words of a book.
fn view_by(
    alloc: Global,
    script: &Script,
    book: &Book,
    history: &History,
    server: u32,
) -> Result<Vec<Bytes>, Memory>
    requires one_shape { shape_of book.now ≡ script.now.shape }
    requires legal { IsLegal script.now.shape history.now }
    requires low { 1 ≤ server }
    requires high { server ≤ script.now.shape.servers }
    ensures { IfOk result (λ frames. frames.items
        ≡ told.view script.now (words_in book.now) history.now server) }
{
    let mut frames = Vec::new(alloc);
    match book {
        Book::Keyed(draws) => view(alloc, script, draws, history, server, &mut frames)?,
        Book::Drawn(draws) => view(alloc, script, draws, history, server, &mut frames)?,
    }
    Ok(frames)
}

/// Frames in hexadecimal, one a line.
fn lines_of(alloc: Global, frames: &[Bytes]) -> Result<Vec<u8>, Memory>
    ensures { IfOk result (λ text. text.items ≡ hex_lines frames.now) }
{
    let mut text = Vec::new(alloc);
    for frame in frames {
        push_line(alloc, frame.as_slice(), &mut text)?;
    }
    Ok(text)
}

/// Appends bytes in hexadecimal, and a line feed.
fn push_line(alloc: Global, bytes: &[u8], out: &mut Vec<u8>) -> Result<(), Memory>
    ensures { OnOk result (out.new.items ≡ out.old.items ++ hex_line bytes.now) }
{
    let digits = hex::encode(alloc, bytes)?;
    out.extend_from_slice(digits.as_bytes())?;
    out.push(b'\n')?;
    Ok(())
}
