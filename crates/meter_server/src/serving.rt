//! Connections that are answered by a configuration whose labels are accepted (own profile).
ghost use Rattle.std.specs.Prelude.{◌≡◌, IfSome, option_map};
ghost use Rattle.std.specs.Int.NonZero.{non_zero_u16_get, non_zero_usize_get};
ghost use Rattle.meter_server.specs.Answering.{EndsAt, IsEndOfServing, IsServed, ServesFiles, TellsUnbound, TellsUnstored, place_text};
ghost use Rattle.meter_server.specs.Following as following;
ghost use Rattle.step_keeping.specs.Keeping.{AreKept};

use crate::answering::accepted_of_config;
use crate::files::{source_of, text_of_file};
use crate::outcome::{Outcome, ended};
use command_words::Serving;
use flow_checker::check::Checked;
use line_sources::clock::{ClockLines, Pace};
use line_sources::due::Follows;
use line_sources::file::{FileLines, Opens};
use live_server::bind_fault::BindFault;
use live_server::fault::ServerFault;
use live_server::output::SharedOutput;
use live_server::serving::{Place, serve_at, serve_kept_at};
use live_server::sessions::Driven;
use live_server::sitting::Manners;
use meter_live::board::Closed;
use object_model::plan::Plan;
use peer_watch::rules::Rules;
use std::alloc::Global;
use std::io::{Read, Write};
use std::net::{Net, TcpListener, TcpStream};
use std::num::NonZeroU16;
use std::sync::{Mutex, Wait};
use std::thread::Threads;
use std::time::Clock;
use step_keeping::keeper::Keeps;
use step_keeping::recalling::Recalls;
use step_stores::fault::StoreFault;
use step_stores::stores::{Store, Stores};
use text_files::TextFiles;

/// Answers connections by the configuration in a file, where the labels in another are accepted for it; and where that is asked for, goes
/// on from the steps that a third keeps, and has it keep each further one.
pub(crate) fn serve_files<H, F, S, K, P, O, L, I, E>(
    rt: &H,
    files: &F,
    stores: &S,
    opener: &O,
    config: &str,
    labels: &str,
    serving: &Serving<'_>,
    input: &mut I,
    errors: &mut E,
) -> Outcome
where
    H: AllocGlobal
        + Clock
        + Net<Stream = TcpStream, Listener = TcpListener>
        + Threads
        + Wait
        + Sync,
    F: TextFiles,
    S: Stores<K, P>,
    K: Keeps + Drop + Send,
    P: Recalls + Drop,
    O: Opens<L> + Sync,
    L: Read + Drop + Send,
    I: Read + Send,
    E: Write + Send,
    ensures { ServesFiles (F.may_read files.now) config.now labels.now (option_map (λ path. path.now) serving.now.store)
        (I.remaining input.old) (I.remaining input.new) result }
{
    let text = match text_of_file(rt.alloc(), files, config) {
        Ok(text) => text,
        Err(outcome) => return outcome,
    };
    let config = source_of(config, &text);
    match accepted_of_config(rt.alloc(), files, config, labels, false) {
        Ok(checked) => {
            serve_checked(
                rt,
                stores,
                opener,
                config.text,
                checked,
                serving,
                input,
                errors,
            )
        }
        Err(outcome) => outcome,
    }
}

/// Answers connections by what was accepted, of a configuration with this text.
fn serve_checked<H, S, K, P, O, L, I, E>(
    rt: &H,
    stores: &S,
    opener: &O,
    config: &str,
    checked: Checked,
    serving: &Serving<'_>,
    input: &mut I,
    errors: &mut E,
) -> Outcome
where
    H: AllocGlobal
        + Clock
        + Net<Stream = TcpStream, Listener = TcpListener>
        + Threads
        + Wait
        + Sync,
    S: Stores<K, P>,
    K: Keeps + Drop + Send,
    P: Recalls + Drop,
    O: Opens<L> + Sync,
    L: Read + Drop + Send,
    I: Read + Send,
    E: Write + Send,
    ensures { IsServed (option_map (λ path. path.now) serving.now.store)
        (I.remaining input.old) (I.remaining input.new) result }
{
    let store = match serving.store {
        Some(path) => {
            match stores.open_store(rt.alloc(), path, config.as_bytes(), checked.plan()) {
                Ok(store) => Some(store),
                Err(fault) => return unstored(rt.alloc(), path, fault),
            }
        }
        None => None,
    };
    serve_lines(rt, opener, checked, store, serving, input, errors)
}

/// Answers connections by a meter whose own steps are lines: those of the system's clock or of a file where that is asked for, and else those
/// of the input.
fn serve_lines<H, K, P, O, L, I, E>(
    rt: &H,
    opener: &O,
    checked: Checked,
    store: Option<Store<K, P>>,
    serving: &Serving<'_>,
    input: &mut I,
    errors: &mut E,
) -> Outcome
where
    H: AllocGlobal
        + Clock
        + Net<Stream = TcpStream, Listener = TcpListener>
        + Threads
        + Wait
        + Sync,
    K: Keeps + Drop + Send,
    P: Recalls + Drop,
    O: Opens<L> + Sync,
    L: Read + Drop + Send,
    I: Read + Send,
    E: Write + Send,
    requires { IfSome store (λ s. AreKept (K.kept checked.plan s.keeper) (P.left s.past)) }
    ensures { IsEndOfServing result }
{
    let is_over = Mutex::new(false);
    if let Some(offset) = serving.clock {
        let output = Mutex::new(errors);
        return serve_by_clock(rt, checked, store, serving, offset, &is_over, &output);
    }
    match serving.steps {
        Some(path) => {
            let driven = Driven {
                steps: FileLines::new(opener, path),
                faults: errors,
                is_over: &is_over,
            };
            serve_driven(rt, checked, store, serving, driven)
        }
        None => {
            let driven = Driven {
                steps: input,
                faults: errors,
                is_over: &is_over,
            };
            serve_driven(rt, checked, store, serving, driven)
        }
    }
}

/// Answers connections by a meter that follows the system's clock, by so many minutes ahead of UTC.
fn serve_by_clock<'x, H, K, P, F>(
    rt: &'x H,
    checked: Checked,
    store: Option<Store<K, P>>,
    serving: &Serving<'_>,
    offset: i16,
    is_over: &'x Mutex<bool>,
    output: &'x Mutex<F>,
) -> Outcome
where
    H: AllocGlobal
        + Clock
        + Net<Stream = TcpStream, Listener = TcpListener>
        + Threads
        + Wait
        + Sync,
    K: Keeps + Drop + Send,
    P: Recalls + Drop,
    F: Write + Drop + Send,
    requires { IfSome store (λ s. AreKept (K.kept checked.plan s.keeper) (P.left s.past)) }
    ensures { IsEndOfServing result }
{
    let pace = Pace {
        follows: follows_of(checked.plan()),
        offset,
    };
    let skipped = SharedOutput::new(rt, output);
    let Ok(steps) = ClockLines::new(rt.alloc(), rt, is_over, pace, skipped) else {
        return Outcome::Unserved(ServerFault::Memory);
    };
    let driven = Driven {
        steps,
        faults: SharedOutput::new(rt, output),
        is_over,
    };
    serve_driven(rt, checked, store, serving, driven)
}

/// Answers connections by a meter with these lines, which goes on from the steps that a store keeps, if there is one, and has it keep each
/// further one.
fn serve_driven<H, K, P, I, F>(
    rt: &H,
    checked: Checked,
    store: Option<Store<K, P>>,
    serving: &Serving<'_>,
    driven: Driven<'_, I, F>,
) -> Outcome
where
    H: AllocGlobal
        + Clock
        + Net<Stream = TcpStream, Listener = TcpListener>
        + Threads
        + Wait
        + Sync,
    K: Keeps + Drop + Send,
    P: Recalls + Drop,
    I: Read + Drop + Send,
    F: Write + Drop + Send,
    requires { IfSome store (λ s. AreKept (K.kept checked.plan s.keeper) (P.left s.past)) }
    ensures { IsEndOfServing result }
{
    let place = place_of(serving);
    let answer = match store {
        Some(Store { past, keeper }) => serve_kept_at(rt, checked, past, keeper, place, driven),
        None => serve_at(rt, checked, place, driven),
    };
    ended_at(rt.alloc(), serving.bind, serving.port, answer)
}

/// How a command ended whose live meter, at an address and port, ended so.
fn ended_at(
    alloc: Global,
    address: &str,
    port: NonZeroU16,
    answer: Result<Closed, ServerFault>,
) -> Outcome
    ensures at { EndsAt (place_text address.now (non_zero_u16_get port)) answer result }
    ensures end { IsEndOfServing result }
{
    match answer {
        Err(ServerFault::Bind(why)) => unbound(alloc, address, port, why),
        _ => ended(answer),
    }
}

/// An address and port where connections can't be taken.
fn unbound(alloc: Global, address: &str, port: NonZeroU16, why: BindFault) -> Outcome
    ensures told { TellsUnbound (place_text address.now (non_zero_u16_get port)) why result }
    ensures end { IsEndOfServing result }
{
    match format!(in alloc; "{address}:{port}") {
        Ok(place) => Outcome::Unbound(place, why),
        Err(_) => Outcome::Unserved(ServerFault::Memory),
    }
}

/// How a meter of this plan follows the system's clock: one of version 1 is told each moment, and over another each second passes.
fn follows_of(plan: &Plan) -> Follows
    ensures { result ≡ following.follows_of plan.now }
{
    if plan.version() == 1 {
        Follows::Moments
    } else {
        Follows::Ticks {
            sets_clock: plan.clock().is_none(),
        }
    }
}

/// Where the words of a command line have connections taken, and what holds of them.
fn place_of<'a>(serving: &Serving<'a>) -> Place<'a>
    ensures address { result.address.now ≡ serving.now.bind.now }
    ensures port { result.port ≡ serving.now.port }
    ensures sessions { result.sessions ≡ serving.now.sessions }
    ensures seats { result.manners.seats ≡ non_zero_usize_get serving.now.seats }
    ensures rules { (result.manners.rules.idle ≡ serving.now.idle) × (result.manners.rules.penalty ≡ serving.now.penalty) }
    ensures verbose { result.manners.is_verbose ≡ serving.now.is_verbose }
{
    Place {
        address: serving.bind,
        port: serving.port,
        sessions: serving.sessions,
        manners: Manners {
            seats: serving.seats.get(),
            rules: Rules {
                idle: serving.idle,
                penalty: serving.penalty,
            },
            is_verbose: serving.is_verbose,
        },
    }
}

/// A file that isn't opened as the place where steps are kept.
fn unstored(alloc: Global, path: &str, fault: StoreFault) -> Outcome
    ensures { TellsUnstored path.now fault result }
{
    match String::from_str(alloc, path) {
        Ok(path) => Outcome::Unstored(path, fault),
        Err(_) => Outcome::Unserved(ServerFault::Memory),
    }
}
