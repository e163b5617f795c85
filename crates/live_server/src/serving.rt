//! A live meter over TCP, of a configuration whose labels are accepted (own profile).
ghost use Rattle.std.specs.Prelude.{◌≡◌, IfOk};
ghost use Rattle.meter_theory.specs.States.{IsState};
ghost use Rattle.step_keeping.specs.Keeping.{AreKept};

use crate::bind_fault::fault_of;
use crate::fault::ServerFault;
use crate::sessions::{Driven, NoPast, Service, serve_kept};
use crate::sitting::Manners;
use cosem_data::memory::Memory;
use flow_checker::check::Checked;
use gates::Open;
use meter_live::board::Closed;
use std::alloc::Global;
use std::io::{Read, Write};
use std::net::{Net, SocketAddr, TcpListener, TcpStream};
use std::num::NonZeroU16;
use std::sync::Wait;
use std::thread::Threads;
use std::time::Clock;
use step_keeping::keeper::{Keeps, Unkept};
use step_keeping::recalling::Recalls;
use whole_writes::write_whole;

/// Where connections are taken, how many are answered before the end, 0 for no end, and what holds of each.
#[derive(Clone, Copy)]
pub struct Place<'a> {
    pub address: &'a str,
    pub port: NonZeroU16,
    pub sessions: u64,
    pub manners: Manners,
}

/// Takes connections at a place, tells where faults are told where that is, and answers them as `serve_sessions` does, by a live
/// meter of what was accepted, whose own steps come as lines, and of which nothing is kept.
///
/// # Errors
/// The place can't be bound, or as `serve_sessions`.
pub fn serve_at<R, I, E>(
    rt: &R,
    checked: Checked,
    place: Place<'_>,
    driven: Driven<'_, I, E>,
) -> Result<Closed, ServerFault>
where
    R: AllocGlobal
        + Clock
        + Net<Stream = TcpStream, Listener = TcpListener>
        + Threads
        + Wait
        + Sync,
    I: Read + Send + Drop,
    E: Write + Send + Drop,
    ensures plan { IfOk result (λ closed. closed.plan ≡ checked) }
    ensures meter { IfOk result (λ closed. IsState checked.plan closed.meter) }
{
    serve_kept_at(rt, checked, NoPast, Unkept, place, driven)
}

/// The same by a live meter that goes on from the steps that were kept, and has each further one kept behind them.
///
/// # Errors
/// The place can't be bound, or as `serve_kept`.
pub fn serve_kept_at<R, I, E, K, P>(
    rt: &R,
    checked: Checked,
    past: P,
    keeper: K,
    place: Place<'_>,
    mut driven: Driven<'_, I, E>,
) -> Result<Closed, ServerFault>
where
    R: AllocGlobal
        + Clock
        + Net<Stream = TcpStream, Listener = TcpListener>
        + Threads
        + Wait
        + Sync,
    I: Read + Send + Drop,
    E: Write + Send + Drop,
    K: Keeps + Drop + Send,
    P: Recalls + Drop,
    requires kept { AreKept (K.kept checked.plan keeper) (P.left past) }
    ensures plan { IfOk result (λ closed. closed.plan ≡ checked) }
    ensures meter { IfOk result (λ closed. IsState checked.plan closed.meter) }
{
    let listener = bound(rt, place, &mut driven.faults)?;
    let service = service_at(&listener, place);
    serve_kept(rt, rt.alloc(), checked, past, keeper, service, driven)
}

/// The listener at a place, which is told.
fn bound<R, E>(rt: &R, place: Place<'_>, errors: &mut E) -> Result<TcpListener, ServerFault>
where
    R: AllocGlobal + Net<Stream = TcpStream, Listener = TcpListener>,
    E: Write,
{
    let listener = match TcpListener::bind(rt, (place.address, place.port.get())) {
        Ok(listener) => listener,
        Err(error) => return Err(fault_of(&error)),
    };
    tell_place(rt.alloc(), &listener, errors);
    Ok(listener)
}

/// What is answered at a place, where each gate stands open.
fn service_at<'l>(listener: &'l TcpListener, place: Place<'_>) -> Service<'l, Open> {
    Service {
        listener,
        sessions: place.sessions,
        gate: &Open,
        manners: place.manners,
    }
}

/// Tells where connections are taken. It is passed over where that can't be told.
fn tell_place<E: Write>(alloc: Global, listener: &TcpListener, errors: &mut E) {
    if let Ok(address) = listener.local_addr() {
        if let Ok(text) = place_text(alloc, &address) {
            let _ = write_whole(errors, text.as_bytes());
        }
    }
}

/// The line that tells where connections are taken.
fn place_text(alloc: Global, address: &SocketAddr) -> Result<String, Memory> {
    Ok(format!(in alloc; "cosem-flow: connections are taken at {address}\n")?)
}
