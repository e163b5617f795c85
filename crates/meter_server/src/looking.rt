//! By which ways a client of a configuration may influence and learn a cell (own profile).
ghost use Rattle.std.specs.Prelude.{◌≡◌, ◌<◌, IfOk, length, string_bytes};
ghost use Rattle.config_reader.specs.ConfigOf.{config_of};
ghost use Rattle.meter_theory.specs.Plan as plans;
ghost use Rattle.meter_server.specs.Looking as spec;
ghost use Rattle.meter_server.specs.Looking.{AsksWhy, TellsStrangeCell, TellsWays, TellsWaysTo};

use crate::noticing::stranger;
use crate::outcome::{Outcome, listed};
use crate::texts::{Source, faulty};
use config_reader::read_config;
use cosem_data::memory::Memory;
use flow_forms::why::{cell_printed, write_why};
use flow_map::map::FlowMap;
use object_model::plan::Plan;
use object_model::policy::Policy;
use shown_text::printable::printable_text;
use std::alloc::Global;
use std::io::Write;
use whole_writes::fault::ListFault;

/// The client and the cell that a command line asks for, as it has them.
#[derive(Clone, Copy)]
pub(crate) struct Question<'a> {
    pub client: &'a str,
    pub cell: &'a str,
}

/// Tells by which ways a client of a configuration may influence and learn a cell, on the output, and says how that ended: `Done`, a
/// fault of the list, that the configuration has no such client or no such cell, or the verdict where it has a fault or memory was
/// refused while it was read; but for the first two nothing was written.
pub(crate) fn tell_why<O: Write>(
    alloc: Global,
    config: Source<'_>,
    question: Question<'_>,
    output: &mut O,
) -> Outcome
    ensures { AsksWhy question.entry.client.now question.entry.cell.now config.entry
        (config_of config.entry.text.now) (O.contents output.old) (O.contents output.new) result }
{
    match read_config(alloc, config.text) {
        Ok((plan, policy)) => tell_ways(alloc, &plan, &policy, question, output),
        Err(fault) => faulty(alloc, config, fault),
    }
}

/// Tells by which ways a client of a plan may influence and learn a cell.
fn tell_ways<O: Write>(
    alloc: Global,
    plan: &Plan,
    policy: &Policy,
    question: Question<'_>,
    output: &mut O,
) -> Outcome
    ensures { TellsWays plan.now policy.now question.entry.client.now question.entry.cell.now
        (O.contents output.old) (O.contents output.new) result }
{
    match plan.client_named(question.client.as_bytes()) {
        Some(client) => tell_ways_to(alloc, plan, policy, client, question.cell, output),
        None => stranger(alloc, plan, question.client),
    }
}

/// Tells by which ways the client at a place may influence and learn a cell.
fn tell_ways_to<O: Write>(
    alloc: Global,
    plan: &Plan,
    policy: &Policy,
    client: u8,
    cell: &str,
    output: &mut O,
) -> Outcome
    requires { client < length plan.now.clients }
    ensures { TellsWaysTo plan.now policy.now client cell.now
        (O.contents output.old) (O.contents output.new) result }
{
    match FlowMap::new(alloc, plan, policy) {
        Ok(map) => tell_ways_on(alloc, &map, client, cell, output),
        Err(_) => Outcome::Unwritten(ListFault::Memory),
    }
}

/// The same of what is known of a configuration.
fn tell_ways_on<O: Write>(
    alloc: Global,
    map: &FlowMap<'_>,
    client: u8,
    cell: &str,
    output: &mut O,
) -> Outcome
    requires { client < length map.now.plan.clients }
    ensures { TellsWaysTo map.now.plan map.now.policy client cell.now
        (O.contents output.old) (O.contents output.new) result }
{
    match cell_printed(alloc, map, cell) {
        Ok(Some(number)) => listed(write_why(alloc, map, client, number, output)),
        Ok(None) => strange_cell(alloc, cell),
        Err(Memory) => Outcome::Unwritten(ListFault::Memory),
    }
}

/// A command whose cell the plan hasn't.
fn strange_cell(alloc: Global, cell: &str) -> Outcome
    ensures { TellsStrangeCell cell.now result }
{
    match strange_cell_words(alloc, cell) {
        Ok(words) => Outcome::Stranger(words),
        Err(_) => Outcome::Unwritten(ListFault::Memory),
    }
}

/// What is told of a cell that the plan hasn't. The only error is that memory was refused.
fn strange_cell_words(alloc: Global, cell: &str) -> Result<String, Memory>
    ensures { IfOk result (λ words. string_bytes words ≡ spec.strange_cell_words cell.now) }
{
    let cell = printable_text(alloc, cell)?;
    Ok(format!(in alloc; "unknown cell {cell}; cosem-flow label lists the cells")?)
}
