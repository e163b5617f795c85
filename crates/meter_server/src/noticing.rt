//! Lines that are read to tell of each whether a client could notice it (own profile).
ghost use Rattle.std.specs.Prelude.{◌≡◌, ◌++◌, false, IfOk, string_bytes};
ghost use Rattle.meter_theory.specs.Plan.{client_named};
ghost use Rattle.meter_server.specs.Noticing as spec;
ghost use Rattle.meter_server.specs.Noticing.{NoticesAs, TellsStranger};

use crate::outcome::{Outcome, outcome_of};
use cosem_data::memory::Memory;
use flow_checker::check::Checked;
use line_notices::onlooking::{Onlooker, notice_all};
use line_server::fault::LineFault;
use object_model::plan::Plan;
use shown_text::printable::printable_text;
use std::alloc::Global;
use std::io::{Read, Write};

/// Which client looks on, at a meter of which configuration, and whether what it could notice is told. Files are named by their
/// paths.
#[derive(Clone, Copy)]
pub(crate) struct Look<'a> {
    pub config: &'a str,
    pub labels: &'a str,
    pub client: &'a str,
    pub is_verbose: bool,
}

/// Tells of each line of the input whether a client of an accepted plan could notice it, and says how that ended: `Done`, a fault of
/// the run, or that the plan has no client of this name; then nothing was read of the input, and nothing written.
pub(crate) fn notice_lines<I: Read, O: Write, E: Write>(
    alloc: Global,
    checked: &Checked,
    look: Look<'_>,
    input: &mut I,
    output: &mut O,
    errors: &mut E,
) -> Outcome
    ensures notices { NoticesAs checked.now look.entry.client.now
        (client_named checked.now.plan look.entry.client.now)
        (record { unread = I.remaining input.old; written = O.contents output.old })
        (record { unread = I.remaining input.new; written = O.contents output.new }) result }
    ensures quiet { look.entry.is_verbose ≡ false → E.contents errors.new ≡ E.contents errors.old }
{
    let Some(client) = checked.plan().client_named(look.client.as_bytes()) else {
        return stranger(alloc, checked.plan(), look.client);
    };
    if look.is_verbose {
        let mut onlooker = Onlooker::new(alloc, checked, client, Some(errors));
        outcome_of(notice_all(alloc, &mut onlooker, input, output))
    } else {
        let mut onlooker = Onlooker::new(alloc, checked, client, None::<&mut E>);
        outcome_of(notice_all(alloc, &mut onlooker, input, output))
    }
}

/// A command whose client the plan hasn't.
pub(crate) fn stranger(alloc: Global, plan: &Plan, name: &str) -> Outcome
    ensures { TellsStranger plan.now name.now result }
{
    match stranger_words(alloc, plan, name) {
        Ok(words) => Outcome::Stranger(words),
        Err(_) => Outcome::Fault(LineFault::Memory),
    }
}

/// What is told of a client that the plan hasn't. The only error is that memory was refused.
fn stranger_words(alloc: Global, plan: &Plan, name: &str) -> Result<String, Memory>
    ensures { IfOk result (λ words. string_bytes words ≡ spec.stranger_words plan.now name.now) }
{
    let name = printable_text(alloc, name)?;
    let known = client_names(alloc, plan)?;
    Ok(format!(in alloc; "unknown client {name}; the clients are{known}")?)
}

/// The names of the plan's clients, each behind a space. The only error is that memory was refused.
fn client_names(alloc: Global, plan: &Plan) -> Result<String, Memory>
    ensures { IfOk result (λ names. string_bytes names ≡ spec.client_names plan.now.clients) }
{
    let mut names = String::new(alloc);
    for place in 0..plan.client_count() {
        if let Some(client) = plan.client(place) {
            names.push(' ')?;
            names.push_str(client.name_text())?;
        }
    }
    Ok(names)
}
