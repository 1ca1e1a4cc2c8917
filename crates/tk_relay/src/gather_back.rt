ghost use Rattle.std.specs.Prelude.{◌≡◌, ◌≤◌, length, None, IfOk, IfErr, OnOk};
ghost use Rattle.std.specs.Result.{result_err};
ghost use Rattle.tk_relay.specs.declared.gather_error.GatherError.TheVariants as fault;
ghost use Rattle.tk_relay.specs.Refusals.{IsRefused, first_other, other_name, other_number};
ghost use Rattle.tk_relay.specs.Serving.{AreOfOneRead, gathered_part};

use crate::halves::Halves;
use crate::{GatherError, Part};
use std::alloc::Global;

/// The replies of all servers to their parts of a read, joined: the one reply that the client gets. They are refused
/// where one names another read than the first; memory is taken only once none does.
pub fn gather(alloc: Global, parts: &[Part]) -> Result<Part, GatherError>
    requires some { 1 ≤ length parts.now }
    requires few { length parts.now ≤ 8 }
    requires alike { AreOfOneRead parts.now }
    ensures gathered { IfOk result (λ part. part ≡ gathered_part parts.now) }
    ensures kept { OnOk result (first_other parts.now ≡ None) }
    ensures refused { IfErr result (IsRefused fault.Memory (first_other parts.now)) }
{
    check_names(parts)?;
    let first = &parts[0];
    let mut sum = Halves::of(alloc, first)?;
    for i in 1..parts.len() {
        sum.mix(parts[i].first.as_slice(), parts[i].second.as_slice());
    }
    Ok(sum.into_part(first.client, first.turn, first.epoch))
}

/// Whether all parts name the read of the first, server by server.
fn check_names(parts: &[Part]) -> Result<(), GatherError>
    requires some { 1 ≤ length parts.now }
    requires few { length parts.now ≤ 8 }
    ensures { result_err result ≡ first_other parts.now }
{
    let first = &parts[0];
    for (i, part) in parts.iter().enumerate() {
        check_name(first, part, i as u32 + 1)?;
    }
    Ok(())
}

/// Whether a server's part names the read of the first.
fn check_name(first: &Part, part: &Part, server: u32) -> Result<(), GatherError>
    ensures { result_err result ≡ other_name first.now server part.now }
{
    check_number(server, first.client, part.client)?;
    check_number(server, first.turn, part.turn)?;
    check_number(server, first.epoch, part.epoch)
}

fn check_number(server: u32, want: u32, got: u32) -> Result<(), GatherError>
    ensures { result_err result ≡ other_number server want got }
{
    if want == got {
        Ok(())
    } else {
        Err(GatherError::Named { server, want, got })
    }
}
