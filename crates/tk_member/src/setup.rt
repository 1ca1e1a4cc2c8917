ghost use Rattle.std.specs.Prelude.{◌≡◌, ◌<◌, ◌≤◌, ◌⊎◌, ◌++◌, length, drop, IfOk, IfErr, Some};
ghost use Rattle.tk_words.specs.Words.{WordBook, keyed};
ghost use Rattle.tk_frames.specs.Spelling.{be32};
ghost use Rattle.tk_frames.specs.Fields.{number_at};
ghost use Rattle.tk_script.specs.declared.input.Input.{Input};
ghost use Rattle.tk_script.specs.declared.keys.Keys.{Keys};
ghost use Rattle.tk_member.specs.Members.{MemberState};
ghost use Rattle.tk_member.specs.SetUp.{IsSetUp, SpellsKeyed, member_of};

use crate::fault::Fault;
use crate::member::Member;
use std::alloc::Global;
use tk_frames::u32_at;
use tk_packets::Packet;
use tk_report::Group;
use tk_script::{Form, Script, ScriptError, parse};
use tk_shape::Memory;
use tk_words::{Book, Draws, KeyedDraws};

/// The member that a packet sets up, and the words that it uses.
pub(crate) fn set_up(alloc: Global, first: &Packet) -> Result<(Member, KeyedDraws), Fault>
    ensures found { IfOk result (λ x.
        IsSetUp first.now (⟦<KeyedDraws as Draws>⟧.book x.1) x.0) }
    ensures one_shape { IfOk result (λ x.
        ⟦<KeyedDraws as Draws>⟧.shape x.1 ≡ x.0.client.shape) }
    ensures only { (b : WordBook) (m : MemberState) → IsSetUp first.now b m
        → IfErr result (λ e. e ≡ Fault.Memory) }
    ensures refused { IfErr result (λ e. (e ≡ Fault.Memory) ⊎ (e ≡ Fault.Setup)) }
{
    let bytes = first.bytes();
    if first.peer() != 0 || bytes.len() < 4 {
        return Err(Fault::Setup);
    }
    let (number, text) = parts_of(bytes);
    let script = script_of(alloc, text)?;
    if number >= script.shape.clients || !script.says.as_slice().is_empty() {
        return Err(Fault::Setup);
    }
    let draws = draws_of(alloc, &script)?;
    let member = member_of(alloc, &script, number)?;
    Ok((member, draws))
}

/// The number that stands in front of a text, and the text.
fn parts_of(bytes: &[u8]) -> (u32, &[u8])
    requires { 4 ≤ length bytes.now }
    ensures number { result.0 ≡ number_at 0 bytes.now }
    ensures text { result.1.now ≡ drop 4 bytes.now }
    ensures whole { be32 result.0 ++ result.1.now ≡ bytes.now }
{
    (u32_at(bytes, 0), &bytes[4..])
}

/// The keyed script that a text spells.
fn script_of(alloc: Global, text: &[u8]) -> Result<Script, Fault>
    ensures found { IfOk result (λ script. (input : Input)
        × SpellsKeyed text.now input × (script ≡ input.first)) }
    ensures only { (input : Input) → SpellsKeyed text.now input
        → IfOk result (λ script. script ≡ input.first) }
    ensures refused { (input : Input) → SpellsKeyed text.now input
        → IfErr result (λ e. e ≡ Fault.Memory) }
    ensures faults { IfErr result (λ e. (e ≡ Fault.Memory) ⊎ (e ≡ Fault.Setup)) }
{
    match parse(alloc, text, Form::Relay) {
        Ok(input) => Ok(input.first),
        Err(ScriptError::Memory) => Err(Fault::Memory),
        Err(ScriptError::Line { .. }) => Err(Fault::Setup),
    }
}

/// The words of a keyed script.
fn draws_of(alloc: Global, script: &Script) -> Result<KeyedDraws, Memory>
    requires { (keys : Keys) × (script.now.keys ≡ Some keys) }
    ensures shape { IfOk result (λ d. ⟦<KeyedDraws as Draws>⟧.shape d ≡ script.now.shape) }
    ensures words { (keys : Keys) → script.now.keys ≡ Some keys → IfOk result (λ d.
        ⟦<KeyedDraws as Draws>⟧.book d ≡ keyed keys.handles keys.seeds) }
{
    match script.book(alloc, None) {
        Ok(Book::Keyed(draws)) => Ok(draws),
        // a keyed script's words are keyed, so that only memory may be wanting
        _ => Err(Memory),
    }
}

/// The member of a client of a script, before it has written or asked anything.
fn member_of(alloc: Global, script: &Script, number: u32) -> Result<Member, Memory>
    requires { number < script.now.shape.clients }
    ensures { IfOk result (λ m. m ≡ member_of script.now number) }
{
    let mut clients = Group::open(alloc, script)?.clients;
    let client = clients.swap_remove(number as usize);
    Member::open(alloc, client)
}
