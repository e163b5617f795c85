//! The seats of a board, and which are taken.
ghost use Rattle.std.specs.Prelude.{◌≡◌, ◌<◌, ◌⊎◌, ◌↔◌, true, false, Some, IfErr, IfSome, IsTrue, MatchOption, slice_get, slice_set, unwrap_or};
ghost use Rattle.live_server.specs.Seats.{AreTaken, AreTakenFrom, seats_for};
ghost use Rattle.live_server.specs.Faults.{IsFaultBy, MayGiveUp};

use crate::asking::{PortAsker, Standing};
use crate::fault::ServerFault;
use cosem_data::memory::Memory;
use gates::Gate;
use meter_live::board::Board;
use meter_live::fault::PortFault;
use meter_live::names::Naming;
use meter_live::share::Share;
use std::alloc::Global;
use std::sync::{Mutex, Wait};
use step_keeping::keeper::Keeps;

/// How many connections are answered at once (own profile).
pub(crate) const SEATS: usize = 64;

/// How many seats there are for so many connections in all (0 for no end): as many as are asked for, 64 at most, and none that no
/// connection would take.
pub(crate) fn seat_count(seats: usize, sessions: u64) -> u16
    ensures { result ≡ seats_for seats sessions }
{
    let seats = seats.min(SEATS) as u16;
    match u16::try_from(sessions) {
        Ok(0) | Err(_) => seats,
        Ok(sessions) => seats.min(sessions),
    }
}

/// What becomes of the steps of so many seats' connections, each under a lock of its own.
pub(crate) fn clear_standings(alloc: Global, count: u16) -> Result<Vec<Mutex<Standing>>, Memory> {
    let mut standings = Vec::new(alloc);
    for _ in 0..count {
        standings.push(Mutex::new(Standing::CLEAR))?;
    }
    Ok(standings)
}

/// Opens a seat at a port of its own.
pub(crate) fn open_seat<'b, N: Naming, W: Wait + Drop, R: Wait, K: Keeps + Drop>(
    rt: &'b R,
    board: &'b Board<N, W, K>,
    standing: Option<&'b Mutex<Standing>>,
) -> Result<PortAsker<'b, N, W, R, K>, ServerFault>
    ensures { IfErr result (λ fault. (fault ≡ ServerFault.Board) ⊎ (fault ≡ ServerFault.Memory)) }
{
    PortAsker::open(rt, board, standing).map_err(fault_of_port)
}

/// Why no seat is opened where a board opens no port: memory was refused, or all its ports were opened.
fn fault_of_port(fault: PortFault) -> ServerFault
    ensures memory { fault ≡ PortFault.Memory → result ≡ ServerFault.Memory }
    ensures no_port { fault ≡ PortFault.NoPort → result ≡ ServerFault.Board }
{
    match fault {
        PortFault::Memory => ServerFault::Memory,
        PortFault::NoPort => ServerFault::Board,
    }
}

/// Opens a seat for each connection that is answered at once, under a lock of its own, which notes there what becomes of its steps.
pub(crate) fn open_seats<'b, N: Naming, W: Wait + Drop, R: Wait, K: Keeps + Drop>(
    rt: &'b R,
    alloc: Global,
    board: &'b Board<N, W, K>,
    standings: &'b [Mutex<Standing>],
) -> Result<Vec<Mutex<PortAsker<'b, N, W, R, K>>>, ServerFault>
    ensures { IfErr result (λ fault. (fault ≡ ServerFault.Board) ⊎ (fault ≡ ServerFault.Memory)) }
{
    let mut seats = Vec::new(alloc);
    for standing in standings {
        let seat = open_seat(rt, board, Some(standing))?;
        seats.push(Mutex::new(seat))?;
    }
    Ok(seats)
}

/// The shares of all seats, and of the driver's.
pub(crate) fn shares_of<N: Naming, W: Wait + Drop, R: Wait, K: Keeps + Drop>(
    alloc: Global,
    driver: PortAsker<'_, N, W, R, K>,
    seats: Vec<Mutex<PortAsker<'_, N, W, R, K>>>,
) -> Result<Vec<Share<N>>, Memory> {
    let mut shares = Vec::new(alloc);
    shares.push(driver.into_share())?;
    for seat in seats {
        shares.push(seat.into_inner().into_share())?;
    }
    Ok(shares)
}

/// Which seats are taken, and whether one gave up at its gate.
#[derive(Drop)]
pub(crate) struct Taken<'g, G: Gate> {
    is_taken: [bool; SEATS],
    gave_up: bool,
    gate: &'g G,
    ghost fault: { gave_up ≡ true → MayGiveUp (G.may_give_up gate.now) },
}

impl<'g, G: Gate> Taken<'g, G> {
    /// None of so many seats is taken yet, and none gave up at this gate. Those that aren't there are taken for good.
    pub(crate) fn new(gate: &'g G, count: usize) -> Taken<'g, G>
        ensures { AreTakenFrom count result.is_taken }
    {
        Taken {
            is_taken: taken_from(count),
            gave_up: false,
            gate,
        }
    }

    /// Notes that a seat gave up at this gate.
    pub(crate) fn give_up(&mut self, gate: &'g G)
        requires { MayGiveUp (G.may_give_up gate.now) }
    {
        self.gate = gate;
        self.gave_up = true;
    }

    /// That no seat gave up, or that one did.
    pub(crate) fn ended(self) -> Result<(), ServerFault>
        ensures { IfErr result (λ fault. IsFaultBy G.may_give_up fault) }
    {
        if self.gave_up {
            return Err(ServerFault::GaveUp);
        }
        Ok(())
    }

    /// Takes the lowest free seat.
    pub(crate) fn take(&mut self) -> Option<usize>
        ensures within { IfSome result (λ seat. seat < 64) }
        ensures taken { MatchOption result (self.new.is_taken ≡ self.old.is_taken)
            (λ seat. (slice_get self.old.is_taken seat ≡ Some false)
            × (self.new.is_taken ≡ slice_set self.old.is_taken seat true)) }
        // Those below it are taken, and where there is none, all are.
        ensures lowest { AreTaken (unwrap_or result 64) self.old.is_taken }
    {
        let seat = self.lowest_free()?;
        self.is_taken[seat] = true;
        Some(seat)
    }

    /// The lowest free seat. None where all are taken.
    fn lowest_free(&self) -> Option<usize>
        ensures within { IfSome result (λ seat. seat < 64) }
        ensures free { IfSome result (λ seat. slice_get self.now.is_taken seat ≡ Some false) }
        ensures lowest { AreTaken (unwrap_or result 64) self.now.is_taken }
    {
        for seat in 0..SEATS {
            if !self.is_taken[seat] {
                return Some(seat);
            }
        }
        None
    }

    /// Frees a seat.
    pub(crate) fn free(&mut self, seat: usize)
        requires { seat < 64 }
        ensures { self.new.is_taken ≡ slice_set self.old.is_taken seat false }
    {
        self.is_taken[seat] = false;
    }
}

/// Whether a connection was the last of so many (0 for no end).
pub(crate) fn is_last(count: u64, sessions: u64) -> bool
    requires { 0 < count }
    ensures { IsTrue result ↔ (count ≡ sessions) }
{
    count == sessions
}

/// Whether each of 64 seats is taken: those from this one on.
fn taken_from(count: usize) -> [bool; SEATS]
    ensures { AreTakenFrom count result }
{
    let mut is_taken = [true; SEATS];
    for seat in 0..count.min(SEATS) {
        is_taken[seat] = false;
    }
    is_taken
}
