//! One connection at a seat, and what all connections of a server share.
ghost use Rattle.std.specs.Prelude.{◌≡◌, ◌<◌, true, Err, IfErr, IfSome};
ghost use Rattle.live_server.specs.Faults.{IsFaultBy};

use crate::asking::{PortAsker, Standing};
use crate::fault::ServerFault;
use crate::log::{ConnectionLog, turned_away};
use crate::seats::Taken;
use crate::sessions::Service;
use frame_server::fault::ServeFault;
use frame_server::serving::{Seat, serve_gated};
use gates::Gate;
use meter_live::names::Naming;
use object_model::plan::Plan;
use peer_watch::events::{End, Event, Tells};
use peer_watch::gate::PeerGate;
use peer_watch::peer::Peer;
use peer_watch::reader::PeerReader;
use peer_watch::rules::Rules;
use peer_watch::seen::Seen;
use peer_watch::writer::PeerWriter;
use std::alloc::Global;
use std::io::Write;
use std::net::TcpStream;
use std::sync::{Mutex, Wait};
use std::time::Clock;
use step_keeping::keeper::Keeps;
use xdlms_services::asker::Asker;

/// What holds of the connections of a server.
#[derive(Clone, Copy)]
pub struct Manners {
    /// How many are answered at once, from 1 to 64; more are 64.
    pub seats: usize,
    /// How long each may be idle, and how long the answers to refused associations wait.
    pub rules: Rules,
    /// Whether it is told what happens to them.
    pub is_verbose: bool,
}

/// What all connections of a server share.
#[derive(Drop)]
pub(crate) struct Shared<'g, 'o, G: Gate, F: Write + Drop> {
    gate: &'g G,
    taken: Mutex<Taken<'g, G>>,
    pub(crate) output: &'o Mutex<F>,
    /// What became of the steps of each seat's connection that were to be kept.
    pub(crate) standings: &'o [Mutex<Standing>],
    /// Whether it was told that steps can't be kept.
    pub(crate) is_failure_told: Mutex<bool>,
    pub(crate) manners: Manners,
}

impl<'g, 'o, G: Gate, F: Write + Drop> Shared<'g, 'o, G, F> {
    /// What the connections of a service share, with the output where all is told, and a standing for each seat.
    pub(crate) fn new(
        service: &Service<'g, G>,
        output: &'o Mutex<F>,
        standings: &'o [Mutex<Standing>],
    ) -> Self {
        Shared {
            gate: service.gate,
            taken: Mutex::new(Taken::new(service.gate, standings.len())),
            output,
            standings,
            is_failure_told: Mutex::new(false),
            manners: service.manners,
        }
    }

    /// That no seat gave up, or that one did, once all connections have ended.
    pub(crate) fn ended(self) -> Result<(), ServerFault>
        ensures { IfErr result (λ fault. IsFaultBy G.may_give_up fault) }
    {
        self.taken.into_inner().ended()
    }

    /// Takes the lowest free seat.
    pub(crate) fn take<R: Wait>(&self, rt: &R) -> Option<usize>
        ensures { IfSome result (λ seat. seat < 64) }
    {
        self.taken.lock(rt).take()
    }

    /// Frees a seat.
    pub(crate) fn free<R: Wait>(&self, rt: &R, seat: usize)
        requires { seat < 64 }
    {
        self.taken.lock(rt).free(seat);
    }
}

/// One connection at a seat, which is free again afterwards. What ends the connection is no fault of the others.
pub(crate) fn sit<N, W, R, G, F, K>(
    rt: &R,
    alloc: Global,
    stream: &TcpStream,
    asker: &Mutex<PortAsker<'_, N, W, R, K>>,
    shared: &Shared<'_, '_, G, F>,
    number: usize,
)
where
    N: Naming,
    W: Wait + Drop,
    R: Clock + Wait,
    G: Gate,
    F: Write + Drop,
    K: Keeps + Drop,
    requires { number < 64 }
{
    let _ = stream.set_nodelay(true);
    let ended = converse(rt, alloc, stream, asker, shared, number);
    if let Err(fault) = ended {
        if is_given_up(fault) {
            shared.taken.lock(rt).give_up(shared.gate);
        }
    }
    shared.free(rt, number);
}

/// Whether a connection ended because its seat gave up.
fn is_given_up(fault: ServeFault) -> bool
    ensures { result ≡ true → fault ≡ ServeFault.GaveUp }
{
    matches!(fault, ServeFault::GaveUp)
}

/// The frames of one connection, answered at a seat.
fn converse<N, W, R, G, F, K>(
    rt: &R,
    alloc: Global,
    stream: &TcpStream,
    asker: &Mutex<PortAsker<'_, N, W, R, K>>,
    shared: &Shared<'_, '_, G, F>,
    number: usize,
) -> Result<u64, ServeFault>
where
    N: Naming,
    W: Wait + Drop,
    R: Clock + Wait,
    G: Gate,
    F: Write + Drop,
    K: Keeps + Drop,
    ensures { result ≡ Err ServeFault.GaveUp → G.may_give_up shared.now.gate.now number }
{
    let mut asker = asker.lock(rt);
    let plan = asker.plan();
    let Some(standing) = shared.standings.get(number) else {
        return Ok(0);
    };
    let log = ConnectionLog::opened(rt, alloc, shared, standing, plan, stream, number);
    let seat = Seat {
        number,
        gate: shared.gate,
    };
    answer(
        rt,
        alloc,
        stream,
        &mut *asker,
        plan,
        &seat,
        shared.manners.rules,
        &log,
    )
}

/// The frames of one connection, answered at a seat by these rules, and that it was closed.
fn answer<C: Clock, A: Asker, G: Gate, T: Tells>(
    clock: &C,
    alloc: Global,
    stream: &TcpStream,
    asker: &mut A,
    plan: &Plan,
    seat: &Seat<'_, G>,
    rules: Rules,
    log: &T,
) -> Result<u64, ServeFault>
    requires { A.plan_of asker.old ≡ plan.now }
    ensures { result ≡ Err ServeFault.GaveUp → G.may_give_up seat.now.gate.now seat.now.number }
{
    let peer = Peer::opened(clock, rules);
    let gate = PeerGate {
        gate: seat.gate,
        peer: &peer,
    };
    let watched = Seat {
        number: seat.number,
        gate: &gate,
    };
    let ended = exchange(alloc, stream, asker, plan, &watched, log, &peer);
    log.tell(Event::Closed {
        why: end_of(&ended, peer.seen(), log.is_in_doubt()),
        requests: peer.seen().requests,
    });
    ended
}

/// The frames of one connection, answered at a seat before its gate, with what is known of the connection.
fn exchange<C: Clock, A: Asker, G: Gate, T: Tells>(
    alloc: Global,
    stream: &TcpStream,
    asker: &mut A,
    plan: &Plan,
    seat: &Seat<'_, G>,
    log: &T,
    peer: &Peer<'_, C>,
) -> Result<u64, ServeFault>
    requires { A.plan_of asker.old ≡ plan.now }
    ensures { result ≡ Err ServeFault.GaveUp → G.may_give_up seat.now.gate.now seat.now.number }
{
    let mut reader = PeerReader { stream, peer };
    let mut writer = PeerWriter {
        stream,
        peer,
        told: log,
    };
    serve_gated(alloc, &mut reader, &mut writer, plan, asker, seat)
}

/// Why a connection was closed that ended so.
fn end_of(ended: &Result<u64, ServeFault>, seen: Seen, doubt: bool) -> End {
    match ended {
        _ if doubt => End::Fault("it isn't known whether a step was kept"),
        _ if seen.is_idle => End::Idle,
        Ok(_) => End::Peer,
        Err(ServeFault::GaveUp) => End::Gate,
        Err(fault) => match fault.place() {
            Some(place) => End::Frame(fault.words(), place),
            None => End::Fault(fault.words()),
        },
    }
}

/// Tells of a connection that is closed at once, as no seat is free, where what happens to connections is told.
pub(crate) fn turn_away<R: Clock + Wait, G: Gate, F: Write + Drop>(
    rt: &R,
    alloc: Global,
    stream: &TcpStream,
    shared: &Shared<'_, '_, G, F>,
) {
    if shared.manners.is_verbose {
        turned_away(rt, alloc, stream, shared.output);
    }
}
