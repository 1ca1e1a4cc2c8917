//! The packets of a run.
ghost use Rattle.std.specs.Prelude.{◌≡◌, ◌≤◌, OnErr, Err};
ghost use Rattle.tk_io.specs.Content.{Rose};
ghost use Rattle.tk_serve.specs.Courses.{HasServed, ServedFront, HasRun, RanFront};
ghost use Rattle.tk_serve.specs.Nexts.{HasNext, TookNext, TookNextFront};
ghost use Rattle.tk_serve.specs.Seats.{empty_seats};
ghost use Rattle.tk_serve.specs.Stands.{HasApplied, StandsForSome};

use crate::fault::Fault;
use crate::server::Server;
use crate::setup::{SETUP, longest_frame, shape_of};
use std::alloc::Global;
use tk_packets::Line;

/// Sets a server up by the first packet, which is of its host, and serves clients until the run is over or nothing is
/// left of the line.
pub fn serve<L: Line>(alloc: Global, line: &mut L) -> Result<(), Fault>
    ensures served { HasServed result (L.left line.old) (L.left line.new) (L.gone line.old) (L.gone line.new) }
    ensures front { OnErr result (ServedFront (L.left line.old) (L.left line.new)
        (L.gone line.old) (L.gone line.new)) }
    ensures read { result ≡ Err Fault.Read → Rose (L.read_faults line.old) (L.read_faults line.new) }
    ensures write { result ≡ Err Fault.Write → Rose (L.write_faults line.old) (L.write_faults line.new) }
{
    let first = match line.take_packet(alloc, SETUP) {
        Ok(Some(first)) => first,
        Ok(None) => return Ok(()),
        Err(error) => return Err(Fault::from(error)),
    };
    let Some(shape) = shape_of(&first) else {
        return Err(Fault::Setup);
    };
    let mut server = Server::open(alloc, &shape)?;
    serve_clients(alloc, &mut server, line)
}

/// Serves clients.
fn serve_clients<L: Line>(alloc: Global, server: &mut Server, line: &mut L) -> Result<(), Fault>
    requires { HasApplied server.old.shape (empty_seats server.old.shape) server.old }
    ensures ran { HasRun result server.old.shape (L.left line.old) (L.left line.new)
        (L.gone line.old) (L.gone line.new) }
    ensures front { OnErr result (RanFront server.old.shape (L.left line.old) (L.left line.new)
        (L.gone line.old) (L.gone line.new)) }
    ensures read { result ≡ Err Fault.Read → Rose (L.read_faults line.old) (L.read_faults line.new) }
    ensures write { result ≡ Err Fault.Write → Rose (L.write_faults line.old) (L.write_faults line.new) }
{
    'packets: for _ in 0..u64::MAX {
        if server.is_over() {
            return Ok(());
        }
        match serve_next(alloc, server, line) {
            Ok(true) => {}
            Ok(false) => return Ok(()),
            Err(fault) => return Err(fault),
        }
    }
    Ok(())
}

/// Takes the next packet and puts what goes out for it; false where nothing is left.
fn serve_next<L: Line>(alloc: Global, server: &mut Server, line: &mut L) -> Result<bool, Fault>
    requires { StandsForSome server.old }
    ensures shape { server.new.shape ≡ server.old.shape }
    ensures next { TookNext result server.old server.new (L.left line.old) (L.left line.new)
        (L.gone line.old) (L.gone line.new) }
    ensures ends { HasNext result server.old.shape (L.left line.old) (L.left line.new)
        (L.gone line.old) (L.gone line.new) }
    ensures front { TookNextFront result server.old (L.left line.old) (L.left line.new)
        (L.gone line.old) (L.gone line.new) }
    ensures read { result ≡ Err Fault.Read → Rose (L.read_faults line.old) (L.read_faults line.new) }
    ensures write { result ≡ Err Fault.Write → Rose (L.write_faults line.old) (L.write_faults line.new) }
    ensures reads_count { L.read_faults line.old ≤ L.read_faults line.new }
    ensures writes_count { L.write_faults line.old ≤ L.write_faults line.new }
{
    let most = longest_frame(&server.shape);
    let packet = match line.take_packet(alloc, most) {
        Ok(Some(packet)) => packet,
        Ok(None) => return Ok(false),
        Err(error) => return Err(Fault::from(error)),
    };
    let peer = packet.peer();
    if peer < 1 || peer > server.shape.clients {
        return Err(Fault::Peer);
    }
    let mut out = Vec::new(alloc);
    if server
        .take(alloc, peer - 1, packet.bytes(), &mut out)
        .is_err()
    {
        return Err(Fault::Memory);
    }
    match line.put_packets(alloc, out.as_slice()) {
        Ok(()) => Ok(true),
        Err(error) => Err(Fault::from(error)),
    }
}
