//! What is told of connections.

use crate::asking::Standing;
use crate::sitting::Shared;
use cosem_data::memory::Memory;
use gates::Gate;
use object_model::plan::Plan;
use peer_watch::events::{Event, Tells};
use peer_watch::line::line_of;
use std::alloc::Global;
use std::io::Write;
use std::net::TcpStream;
use std::sync::{Mutex, Wait};
use std::time::Clock;
use utc_moment::moment::UtcMoment;
use whole_writes::write_whole;

/// What is told where a step can't be kept.
const NOTICE: &str = "cosem-flow: steps can't be kept: no change is made from now on\n";

/// What is told of an address that isn't known.
const UNKNOWN: &str = "-";

/// Where it is told what happens to a connection, if that is asked for: with the moment, its address and its seat.
#[derive(Drop)]
pub(crate) struct ConnectionLog<'r, 's, 'p, R: Clock + Wait, F: Write + Drop> {
    rt: &'r R,
    alloc: Global,
    output: &'s Mutex<F>,
    is_verbose: bool,
    is_failure_told: &'s Mutex<bool>,
    standing: &'s Mutex<Standing>,
    plan: &'p Plan,
    address: String,
    seat: usize,
}

impl<'r, 's, 'p, R: Clock + Wait, F: Write + Drop> ConnectionLog<'r, 's, 'p, R, F> {
    /// Tells that a connection was opened, and has the rest told.
    pub(crate) fn opened<G: Gate>(
        rt: &'r R,
        alloc: Global,
        shared: &'s Shared<'_, '_, G, F>,
        standing: &'s Mutex<Standing>,
        plan: &'p Plan,
        stream: &TcpStream,
        seat: usize,
    ) -> Self {
        let log = ConnectionLog {
            rt,
            alloc,
            output: shared.output,
            is_verbose: shared.manners.is_verbose,
            is_failure_told: &shared.is_failure_told,
            standing,
            plan,
            address: address_of(alloc, stream),
            seat,
        };
        *standing.lock(rt) = Standing::CLEAR;
        log.tell(Event::Opened);
        log
    }

    /// Tells once, of all connections, that steps can't be kept.
    fn tell_failure(&self) {
        let mut is_told = self.is_failure_told.lock(self.rt);
        if !*is_told {
            *is_told = true;
            let _ = write_whole(&mut *self.output.lock(self.rt), NOTICE.as_bytes());
        }
    }
}

impl<R: Clock + Wait, F: Write + Drop> Tells for ConnectionLog<'_, '_, '_, R, F> {
    fn name_of(&self, client: u16) -> &str {
        name_with_sap(self.plan, client)
    }

    fn tell(&self, event: Event<'_>) {
        if self.is_verbose {
            let seat = Some(self.seat);
            let _ = tell(
                self.rt,
                self.alloc,
                self.output,
                &self.address,
                seat,
                &event,
            );
        }
    }

    fn is_in_doubt(&self) -> bool {
        let standing = *self.standing.lock(self.rt);
        if standing.is_unkept {
            self.tell_failure();
        }
        standing.is_in_doubt
    }
}

/// Tells of a connection that no seat is free for.
pub(crate) fn turned_away<R: Clock + Wait, F: Write + Drop>(
    rt: &R,
    alloc: Global,
    stream: &TcpStream,
    output: &Mutex<F>,
) {
    let address = address_of(alloc, stream);
    let _ = tell(rt, alloc, output, &address, None, &Event::Full);
}

/// Tells an event in a line. A write that fails is passed over.
fn tell<R: Clock + Wait, F: Write + Drop>(
    rt: &R,
    alloc: Global,
    output: &Mutex<F>,
    address: &str,
    seat: Option<usize>,
    event: &Event<'_>,
) -> Result<(), Memory> {
    let line = line_of(alloc, UtcMoment::now(rt), address, seat, event)?;
    let _ = write_whole(&mut *output.lock(rt), line.as_bytes());
    Ok(())
}

/// The address of a connection's other side, or `-`.
fn address_of(alloc: Global, stream: &TcpStream) -> String {
    match known_address(alloc, stream) {
        Some(address) => address,
        None => String::new(alloc),
    }
}

/// The address of a connection's other side, where the system has it, and memory isn't refused.
fn known_address(alloc: Global, stream: &TcpStream) -> Option<String> {
    let address = stream.peer_addr().ok()?;
    format!(in alloc; "{address}").ok()
}

/// The name of the client with this service access point.
fn name_with_sap(plan: &Plan, sap: u16) -> &str {
    for place in 0..plan.client_count() {
        if let Some(client) = plan.client(place) {
            if u16::from(client.sap()) == sap {
                return client.name_text();
            }
        }
    }
    UNKNOWN
}
