//! Connections over TCP, each in a thread of its own, on one board.
ghost use Rattle.std.specs.Prelude.{◌≡◌, ◌+◌, ◌<◌, true, IfErr, IfOk, Err};
ghost use Rattle.std.specs.Int.NonZero.{non_zero_u16_get};
ghost use denote.Param.Send.{IsSend, IsSync};
ghost use Rattle.meter_theory.specs.States.{IsState};
ghost use Rattle.live_server.specs.Faults.{IsFaultBy};
ghost use Rattle.live_server.specs.Seats.{seats_for};
ghost use Rattle.step_keeping.specs.Keeping.{AreKept};

use crate::accepting::Untaken;
use crate::asking::{PortAsker, Standing};
use crate::by_line::ByLine;
use crate::driver::Driver;
use crate::fault::ServerFault;
use crate::notices::Notices;
use crate::output::SharedOutput;
use crate::seats::{clear_standings, is_last, open_seat, open_seats, seat_count, shares_of};
use crate::sitting::{Manners, Shared, sit, turn_away};
use flow_checker::check::Checked;
use gates::Gate;
use meter_core::step::Step;
use meter_live::board::{Blanks, Board, Closed};
use meter_live::names::Naming;
use meter_live::resuming::ResumeFault;
use meter_live::share::Share;
use std::alloc::Global;
use std::io::{self, Read, Write};
use std::marker::Brand;
use std::net::TcpListener;
use std::num::NonZeroU16;
use std::sync::{Mutex, Wait};
use std::thread;
use std::thread::Threads;
use std::time::Clock;
use step_keeping::keeper::{Keeps, Unkept};
use step_keeping::recalling::Recalls;

/// Where connections come from, how many are answered before the end (0 for no end), the gate that stands before each answer, and what
/// holds of each connection.
#[derive(Drop)]
pub struct Service<'a, G: Gate> {
    pub listener: &'a TcpListener,
    pub sessions: u64,
    pub gate: &'a G,
    pub manners: Manners,
}

impl<G: Gate> Service<'_, G> {
    /// How many seats there are.
    fn seats(&self) -> u16
        ensures { result ≡ seats_for self.now.manners.seats self.now.sessions }
    {
        seat_count(self.manners.seats, self.sessions)
    }

    /// How many readers there are: the driver's, and one for each seat.
    fn readers(&self) -> NonZeroU16
        ensures { non_zero_u16_get result ≡ seats_for self.now.manners.seats self.now.sessions + 1 }
    {
        NonZeroU16::MIN.saturating_add(self.seats())
    }
}

/// The driver's lines, where it is told which of them are refused, and what is set once no further connection is answered: lines that
/// would never end by themselves end by it.
#[derive(Drop)]
pub struct Driven<'o, I: Read + Drop, F: Write + Drop> {
    pub steps: I,
    pub faults: F,
    pub is_over: &'o Mutex<bool>,
}

/// Answers so many connections, each in a thread of its own at the lowest free seat, and takes the meter's own steps from the
/// driver's lines; then closes the board, with the share of the steps that were taken before. A connection that finds no free seat, or no thread, is closed, and counts; one that
/// can't be taken is told and passed over, and doesn't.
///
/// # Errors
/// The listening itself fails, memory was refused, a seat gave up at its gate, or the board had no port for a seat. The board
/// has ended then.
pub fn serve_sessions<N, W, R, I, F, G, K>(
    rt: &R,
    alloc: Global,
    board: Board<N, W, K>,
    past: Option<Share<N>>,
    service: Service<'_, G>,
    driven: Driven<'_, I, F>,
) -> Result<Closed, ServerFault>
where
    N: Naming + Send + Sync,
    W: Wait + Drop + Send + Sync,
    R: Clock + Threads + Wait + Sync,
    I: Read + Send + Drop,
    F: Write + Send + Drop,
    G: Gate + Sync,
    K: Keeps + Drop + Send,
    ensures plan { IfOk result (λ closed. closed.plan ≡ N.accepted) }
    ensures meter { IfOk result (λ closed. IsState N.accepted.plan closed.meter) }
    // A seat gave up only where a gate may have it do so.
    ensures fault { IfErr result (λ fault. IsFaultBy G.may_give_up fault) }
{
    match run_sessions(rt, alloc, &board, past, service, driven) {
        Ok(shares) => close(rt, board, shares),
        Err(fault) => {
            board.end(rt);
            Err(fault)
        }
    }
}

/// Closes a board with the shares of all that was taken. The only error is that there are fewer shares than ports that were opened.
fn close<N: Naming, W: Wait + Drop, R: Wait, K: Keeps + Drop>(
    rt: &R,
    board: Board<N, W, K>,
    shares: Vec<Share<N>>,
) -> Result<Closed, ServerFault>
    ensures plan { IfOk result (λ closed. closed.plan ≡ N.accepted) }
    ensures meter { IfOk result (λ closed. IsState N.accepted.plan closed.meter) }
    ensures fault { IfErr result (λ fault. fault ≡ ServerFault.Board) }
{
    match board.close(rt, shares) {
        Ok(closed) => Ok(closed),
        Err(not_all) => {
            let (board, _shares) = not_all.into_parts();
            board.end(rt);
            Err(ServerFault::Board)
        }
    }
}

/// Answers the connections, takes the driver's lines, and gives the shares of all seats and of the steps before.
fn run_sessions<N, W, R, I, F, G, K>(
    rt: &R,
    alloc: Global,
    board: &Board<N, W, K>,
    past: Option<Share<N>>,
    service: Service<'_, G>,
    driven: Driven<'_, I, F>,
) -> Result<Vec<Share<N>>, ServerFault>
where
    N: Naming + Send + Sync,
    W: Wait + Drop + Send + Sync,
    R: Clock + Threads + Wait + Sync,
    I: Read + Send + Drop,
    F: Write + Send + Drop,
    G: Gate + Sync,
    K: Keeps + Drop + Send,
    ensures { IfErr result (λ fault. IsFaultBy G.may_give_up fault) }
{
    let Driven {
        steps,
        faults,
        is_over,
    } = driven;
    let mut lines = ByLine::new(alloc, steps)?;
    let standings = clear_standings(alloc, service.seats())?;
    let output = Mutex::new(faults);
    let mut shares = run_lent(
        rt, alloc, board, &service, &mut lines, is_over, &output, &standings,
    )?;
    if let Some(past) = past {
        shares.push(past)?;
    }
    Ok(shares)
}

/// The same, where the output of faults is lent: the driver and who takes the connections share it.
fn run_lent<'b, N, W, R, I, F, G, K>(
    rt: &'b R,
    alloc: Global,
    board: &'b Board<N, W, K>,
    service: &Service<'_, G>,
    lines: &mut ByLine<I>,
    is_over: &Mutex<bool>,
    output: &'b Mutex<F>,
    standings: &'b [Mutex<Standing>],
) -> Result<Vec<Share<N>>, ServerFault>
where
    N: Naming + Send + Sync,
    W: Wait + Drop + Send + Sync,
    R: Clock + Threads + Wait + Sync,
    I: Read + Send + Drop,
    F: Write + Send + Drop,
    G: Gate + Sync,
    K: Keeps + Drop + Send,
    ensures { IfErr result (λ fault. IsFaultBy G.may_give_up fault) }
{
    let notices = Notices::new(alloc, SharedOutput::new(rt, output))?;
    let mut driver = Driver::new(alloc, open_seat(rt, board, None)?, notices);
    let seats = open_seats(rt, alloc, board, standings)?;
    run_threads(
        rt,
        alloc,
        service,
        &mut driver,
        lines,
        is_over,
        seats.as_slice(),
        output,
        standings,
    )?;
    Ok(shares_of(alloc, driver.into_seat(), seats)?)
}

/// Answers the connections at the seats while the driver takes its lines.
fn run_threads<'b, N, W, R, I, F, G, K>(
    rt: &'b R,
    alloc: Global,
    service: &Service<'_, G>,
    driver: &mut Driver<'b, N, W, R, SharedOutput<'b, F, R>, K>,
    lines: &mut ByLine<I>,
    is_over: &Mutex<bool>,
    seats: &[Mutex<PortAsker<'b, N, W, R, K>>],
    output: &'b Mutex<F>,
    standings: &'b [Mutex<Standing>],
) -> Result<(), ServerFault>
where
    N: Naming + Send + Sync,
    W: Wait + Drop + Send + Sync,
    R: Clock + Threads + Wait + Sync,
    I: Read + Send + Drop,
    F: Write + Send + Drop,
    G: Gate + Sync,
    K: Keeps + Drop + Send,
    ensures { IfErr result (λ fault. IsFaultBy G.may_give_up fault) }
{
    let shared = Shared::new(service, output, standings);
    let lent = &shared;
    let (_driven, ended) = thread::join(
        rt,
        move || driver.take_lines(alloc, lines),
        || accept_until_over(rt, alloc, seats, lent, service, is_over),
    );
    if ended.is_err() {
        return Err(ServerFault::Listen);
    }
    shared.ended()
}

/// Takes connections as `accept_all` does, and sets then that all is over.
fn accept_until_over<'g, N, W, R, G, F, K>(
    rt: &R,
    alloc: Global,
    seats: &[Mutex<PortAsker<'_, N, W, R, K>>],
    shared: &Shared<'g, '_, G, F>,
    service: &Service<'g, G>,
    is_over: &Mutex<bool>,
) -> io::Result<()>
where
    N: Naming + Send + Sync,
    W: Wait + Drop + Send + Sync,
    R: Clock + Threads + Wait + Sync,
    G: Gate + Sync,
    F: Write + Send + Drop,
    K: Keeps + Drop + Send,
{
    let ended = accept_all(rt, alloc, seats, shared, service);
    *is_over.lock(rt) = true;
    ended
}

/// Takes connections until there were so many, or the listening fails, and waits for their threads. One that can't be taken is
/// told and passed over, and doesn't count.
fn accept_all<'g, N, W, R, G, F, K>(
    rt: &R,
    alloc: Global,
    seats: &[Mutex<PortAsker<'_, N, W, R, K>>],
    shared: &Shared<'g, '_, G, F>,
    service: &Service<'g, G>,
) -> io::Result<()>
where
    N: Naming + Send + Sync,
    W: Wait + Drop + Send + Sync,
    R: Clock + Threads + Wait + Sync,
    G: Gate + Sync,
    F: Write + Send + Drop,
    K: Keeps + Drop + Send,
{
    thread::scope(
        thread::scope_env(),
        rt,
        move |scope| -> io::Result<()>
            requires send { IsSend N.row × IsSend W.row × IsSend K.row }
            requires sync { IsSync R.row × IsSync G.row × IsSend F.row }
        {
            let mut untaken = Untaken::new(SharedOutput::new(rt, shared.output));
            let mut count = 0u64;
            for stream in service.listener.incoming() {
                let Some(stream) = untaken.let_through(rt, stream)? else {
                    continue;
                };
                match shared.take(rt) {
                    Some(number) => {
                        if let Some(seat) = seats.get(number) {
                            let run = move || sit(rt, alloc, &stream, seat, shared, number);
                            if scope.spawn(run).is_err() {
                                shared.free(rt, number);
                            }
                        }
                    }
                    None => turn_away(rt, alloc, &stream, shared),
                }
                let Some(next) = count.checked_add(1) else {
                    break;
                };
                count = next;
                if is_last(count, service.sessions) {
                    break;
                }
            }
            Ok(())
        },
    )
}

/// No step was kept.
#[derive(Drop)]
pub(crate) struct NoPast;

impl Recalls for NoPast {
    ghost use Rattle.std.specs.Prelude.{[]};

    ghost left = { λ _. [] };

    fn recall(&mut self) -> Option<Step> {
        None
    }
}

/// Opens a live meter of what was accepted, of which nothing is kept, and answers connections as `serve_sessions` does.
///
/// # Errors
/// As `serve_sessions`; and memory was refused for the meter.
pub fn serve_accepted<R, I, F, G>(
    rt: &R,
    alloc: Global,
    checked: Checked,
    service: Service<'_, G>,
    driven: Driven<'_, I, F>,
) -> Result<Closed, ServerFault>
where
    R: Clock + Threads + Wait + Sync,
    I: Read + Send + Drop,
    F: Write + Send + Drop,
    G: Gate + Sync,
    ensures plan { IfOk result (λ closed. closed.plan ≡ checked) }
    ensures meter { IfOk result (λ closed. IsState checked.plan closed.meter) }
    // A seat gave up only where a gate may have it do so.
    ensures fault { IfErr result (λ fault. IsFaultBy G.may_give_up fault) }
{
    serve_kept(rt, alloc, checked, NoPast, Unkept, service, driven)
}

/// Opens a live meter of what was accepted, which takes the steps that were kept and has each further one kept behind them, and answers
/// connections as `serve_sessions` does.
///
/// # Errors
/// As `serve_sessions`; memory was refused for the meter, or so many steps can't be counted.
pub fn serve_kept<R, I, F, G, K, P>(
    rt: &R,
    alloc: Global,
    checked: Checked,
    past: P,
    keeper: K,
    service: Service<'_, G>,
    driven: Driven<'_, I, F>,
) -> Result<Closed, ServerFault>
where
    R: Clock + Threads + Wait + Sync,
    I: Read + Send + Drop,
    F: Write + Send + Drop,
    G: Gate + Sync,
    K: Keeps + Drop + Send,
    P: Recalls + Drop,
    requires kept { AreKept (K.kept checked.plan keeper) (P.left past) }
    ensures plan { IfOk result (λ closed. closed.plan ≡ checked) }
    ensures meter { IfOk result (λ closed. IsState checked.plan closed.meter) }
    // A seat gave up only where a gate may have it do so.
    ensures fault { IfErr result (λ fault. IsFaultBy G.may_give_up fault) }
{
    let blanks = Blanks::for_readers(service.readers());
    resume_and_serve::<Brand, &R, R, I, F, G, K, P>(
        rt,
        rt,
        alloc,
        checked,
        Kept { past, keeper },
        blanks,
        service,
        driven,
    )
}

/// The steps that were kept, and what keeps further ones.
#[derive(Drop)]
struct Kept<K: Keeps + Drop, P: Recalls + Drop> {
    past: P,
    keeper: K,
}

/// The same as `serve_kept`, with what names the board.
fn resume_and_serve<N, W, R, I, F, G, K, P>(
    rt: &R,
    keep: W,
    alloc: Global,
    checked: Checked,
    kept: Kept<K, P>,
    blanks: Blanks,
    service: Service<'_, G>,
    driven: Driven<'_, I, F>,
) -> Result<Closed, ServerFault>
where
    N: Naming + Send + Sync,
    W: Wait + Drop + Send + Sync,
    R: Clock + Threads + Wait + Sync,
    I: Read + Send + Drop,
    F: Write + Send + Drop,
    G: Gate + Sync,
    K: Keeps + Drop + Send,
    P: Recalls + Drop,
    requires plan { checked ≡ N.accepted }
    requires book { blanks.history ≡ N.book }
    requires steps { blanks.steps.name ≡ N.steps }
    requires changes { blanks.changes.name ≡ N.changes }
    requires kept { AreKept (K.kept checked.plan kept.keeper) (P.left kept.past) }
    // There is room for the reader of each seat, and for the driver's.
    requires readers { non_zero_u16_get blanks.readers ≡ seats_for service.manners.seats service.sessions + 1 }
    ensures plan { IfOk result (λ closed. closed.plan ≡ checked) }
    ensures meter { IfOk result (λ closed. IsState checked.plan closed.meter) }
    ensures fault { IfErr result (λ fault. IsFaultBy G.may_give_up fault) }
{
    let Kept { past, keeper } = kept;
    match Board::<N, W, K>::resume(rt, keep, alloc, checked, past, keeper, blanks) {
        Ok((board, share)) => serve_sessions(rt, alloc, board, Some(share), service, driven),
        Err(ResumeFault::Memory) => Err(ServerFault::Memory),
        Err(ResumeFault::Full) => Err(ServerFault::Full),
    }
}
