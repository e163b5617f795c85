//! What each command does with the files that it names, its input and its output (own profile).
ghost use Rattle.std.specs.Prelude.{◌≡◌, false, true, List, ℕ, MatchResult, Some};
ghost use Rattle.command_words.specs.Commands.{asked_by};
ghost use Rattle.config_reader.specs.ConfigOf.{config_of};
ghost use Rattle.meter_server.specs.Answering.{Answers, ChecksFiles, ChecksLabels, ConnectsFile, IsAcceptedOf, ListsFile, NoticesFiles, RefusesFiles, RunsFile, RunsTrailFile, decoding_of, encoding_of, is_quiet};
ghost use Rattle.meter_server.specs.Looking.{AsksWhy};
ghost use Rattle.meter_server.specs.Files.{IsFile};
ghost use Rattle.meter_server.specs.Program.{AnswersText, ListsEdges};
ghost use Rattle.meter_server.specs.Warning.{ListsLabels};

use crate::auditing::{Audit, audit_named};
use crate::comparing::compare_files;
use crate::demo::DEMO;
use crate::files::{source_of, text_of_file};
use crate::looking::{Question, tell_why};
use crate::noticing::{Look, notice_lines};
use crate::outcome::{Outcome, translated};
use crate::reporting::{Beside, report_file};
use crate::serving::serve_files;
use crate::sources::{Sources, is_any_input, is_either_input, is_given_input, is_input};
use crate::texts::{
    Source, accepted_of_texts, answer_aloud, answer_frames, answer_text, answer_trail, checked,
    faulty, list_edges, list_labels,
};
use crate::trailing::{Asked, print_trail};
use command_words::{Command, EdgesForm, Warned};
use config_reader::read_config;
use flow_checker::check::Checked;
use line_sources::file::Opens;
use std::alloc::Global;
use std::io::{Read, Write};
use std::net::{Net, TcpListener, TcpStream};
use std::sync::Wait;
use std::thread::Threads;
use std::time::Clock;
use step_keeping::keeper::Keeps;
use step_keeping::recalling::Recalls;
use step_stores::stores::Stores;
use step_words::texts::Way;
use step_words::translating::translate;
use text_files::TextFiles;

/// The demo configuration, under the name of the file that people copy.
const DEMO_SOURCE: Source<'static> = Source {
    file: "demo.toml",
    text: DEMO,
};

/// Does what a command asks for.
pub(crate) fn answer<H, F, S, K, P, L, D, I, O, E>(
    rt: &H,
    files: &F,
    stores: &S,
    opener: &L,
    command: Command<'_>,
    input: &mut I,
    output: &mut O,
    errors: &mut E,
) -> Outcome
where
    H: AllocGlobal
        + Clock
        + Net<Stream = TcpStream, Listener = TcpListener>
        + Threads
        + Wait
        + Sync,
    F: TextFiles + Sync,
    S: Stores<K, P>,
    K: Keeps + Drop + Send,
    P: Recalls + Drop,
    L: Opens<D> + Sync,
    D: Read + Drop + Send,
    I: Read + Send,
    O: Write,
    E: Write + Send,
    ensures answers { Answers (F.may_read files.now) (asked_by command.entry)
        (record { unread = I.remaining input.old; written = O.contents output.old })
        (record { unread = I.remaining input.new; written = O.contents output.new }) result }
    ensures quiet { is_quiet (Some (asked_by command.entry)) ≡ true →
        E.contents errors.new ≡ E.contents errors.old }
{
    let alloc = rt.alloc();
    match command {
        Command::Demo { is_verbose } => {
            answer_lines_of(alloc, DEMO_SOURCE, is_verbose, input, output, errors)
        }
        Command::Run {
            config,
            is_verbose: _,
            reads_trail: true,
        } => run_trail_of_file(alloc, files, config, input, output),
        Command::Run {
            config,
            is_verbose,
            reads_trail: false,
        } => run_file(alloc, files, config, is_verbose, input, output, errors),
        Command::Edges { config, form } => {
            let sources = Sources::new(alloc, files, input, is_input(config));
            list_edges_of_file(alloc, &sources, config, form, output)
        }
        Command::Label { config, warned } => {
            let sources = Sources::new(alloc, files, input, is_input(config));
            list_labels_of_file(alloc, &sources, config, warned, output)
        }
        Command::Check {
            config,
            labels,
            tells_all,
            warned,
        } => {
            let sources = Sources::new(alloc, files, input, is_either_input(config, labels));
            check_files(alloc, &sources, config, labels, tells_all, warned)
        }
        Command::Why {
            config,
            client,
            cell,
        } => {
            let sources = Sources::new(alloc, files, input, is_input(config));
            why_of_file(alloc, &sources, config, Question { client, cell }, output)
        }
        Command::Compare { old, new } => {
            let sources = Sources::new(alloc, files, input, is_either_input(old, new));
            compare_files(alloc, &sources, old, new, output)
        }
        Command::Report {
            config,
            labels,
            against,
            form,
        } => {
            let is_named = is_any_input(config, labels, against);
            let sources = Sources::new(alloc, files, input, is_named);
            let beside = Beside {
                labels,
                old: against,
            };
            report_file(alloc, &sources, config, beside, form, output)
        }
        Command::Quiet {
            config,
            labels,
            client,
            is_verbose,
        } => {
            let look = Look {
                config,
                labels,
                client,
                is_verbose,
            };
            notice_files(alloc, files, look, input, output, errors)
        }
        Command::Audit {
            workers,
            names,
            names_file,
            explains,
            tells_progress,
        } => {
            let sources = Sources::new(alloc, files, input, is_given_input(names_file));
            let audit = Audit {
                workers,
                names: &names,
                names_file,
                explains,
                tells_progress,
            };
            audit_named(rt, files, &sources, audit, errors)
        }
        Command::Session { config } => connect_file(alloc, files, config, input, output),
        Command::Serve {
            config,
            labels,
            serving,
        } => serve_files(
            rt, files, stores, opener, config, labels, &serving, input, errors,
        ),
        Command::Trail {
            file,
            client,
            since,
            is_json,
        } => {
            let asked = Asked {
                client,
                since,
                is_json,
            };
            print_trail(alloc, files, file, asked, output)
        }
        Command::Encode { is_value } => {
            translated(translate(alloc, encoding(is_value), input, output))
        }
        Command::Decode { is_value } => {
            translated(translate(alloc, decoding(is_value), input, output))
        }
    }
}

/// How words are made into hex.
fn encoding(is_value: bool) -> Way
    ensures { result ≡ encoding_of is_value }
{
    if is_value {
        Way::EncodeValues
    } else {
        Way::Encode
    }
}

/// How hex is made into words.
fn decoding(is_value: bool) -> Way
    ensures { result ≡ decoding_of is_value }
{
    if is_value {
        Way::DecodeValues
    } else {
        Way::Decode
    }
}

/// Answers the lines of the input by the configuration in a file.
fn run_file<F: TextFiles, I: Read, O: Write, E: Write>(
    alloc: Global,
    files: &F,
    file: &str,
    is_verbose: bool,
    input: &mut I,
    output: &mut O,
    errors: &mut E,
) -> Outcome
    ensures runs { RunsFile (F.may_read files.now) file.now
        (record { unread = I.remaining input.old; written = O.contents output.old })
        (record { unread = I.remaining input.new; written = O.contents output.new }) result }
    ensures quiet { is_verbose ≡ false → E.contents errors.new ≡ E.contents errors.old }
{
    match text_of_file(alloc, files, file) {
        Ok(text) => {
            let config = source_of(file, &text);
            answer_lines_of(alloc, config, is_verbose, input, output, errors)
        }
        Err(outcome) => outcome,
    }
}

/// Answers the lines of a trail on the input by the configuration in a file.
fn run_trail_of_file<F: TextFiles, I: Read, O: Write>(
    alloc: Global,
    files: &F,
    file: &str,
    input: &mut I,
    output: &mut O,
) -> Outcome
    ensures { RunsTrailFile (F.may_read files.now) file.now
        (record { unread = I.remaining input.old; written = O.contents output.old })
        (record { unread = I.remaining input.new; written = O.contents output.new }) result }
{
    match text_of_file(alloc, files, file) {
        Ok(text) => answer_trail(alloc, source_of(file, &text), input, output),
        Err(outcome) => outcome,
    }
}

/// Answers the lines of the input by a configuration, and tells of each on the error stream where that is asked for.
fn answer_lines_of<I: Read, O: Write, E: Write>(
    alloc: Global,
    config: Source<'_>,
    is_verbose: bool,
    input: &mut I,
    output: &mut O,
    errors: &mut E,
) -> Outcome
    ensures answers { AnswersText config.entry (config_of config.entry.text.now)
        (record { unread = I.remaining input.old; written = O.contents output.old })
        (record { unread = I.remaining input.new; written = O.contents output.new }) result }
    ensures quiet { is_verbose ≡ false → E.contents errors.new ≡ E.contents errors.old }
{
    if is_verbose {
        answer_aloud(alloc, config, input, output, errors)
    } else {
        answer_text(alloc, config, input, output)
    }
}

/// Answers the frames of the input by the configuration in a file.
fn connect_file<F: TextFiles, I: Read, O: Write>(
    alloc: Global,
    files: &F,
    file: &str,
    input: &mut I,
    output: &mut O,
) -> Outcome
    ensures { ConnectsFile (F.may_read files.now) file.now
        (record { unread = I.remaining input.old; written = O.contents output.old })
        (record { unread = I.remaining input.new; written = O.contents output.new }) result }
{
    match text_of_file(alloc, files, file) {
        Ok(text) => answer_frames(alloc, source_of(file, &text), input, output),
        Err(outcome) => outcome,
    }
}

/// Writes the edges of the configuration in a file in a form.
fn list_edges_of_file<F: TextFiles, O: Write>(
    alloc: Global,
    files: &F,
    file: &str,
    form: EdgesForm,
    output: &mut O,
) -> Outcome
    ensures { ListsFile (ListsEdges form)
        (F.may_read files.now) file.now (O.contents output.old) (O.contents output.new) result }
{
    match text_of_file(alloc, files, file) {
        Ok(text) => list_edges(alloc, source_of(file, &text), form, output),
        Err(outcome) => outcome,
    }
}

/// Writes the least labels of the configuration in a file, with what is warned of.
fn list_labels_of_file<F: TextFiles, O: Write>(
    alloc: Global,
    files: &F,
    file: &str,
    warned: Warned,
    output: &mut O,
) -> Outcome
    ensures { ListsFile (ListsLabels warned)
        (F.may_read files.now) file.now (O.contents output.old) (O.contents output.new) result }
{
    match text_of_file(alloc, files, file) {
        Ok(text) => list_labels(alloc, source_of(file, &text), warned, output),
        Err(outcome) => outcome,
    }
}

/// Tells by which ways a client of the configuration in a file may influence and learn a cell.
fn why_of_file<F: TextFiles, O: Write>(
    alloc: Global,
    files: &F,
    file: &str,
    question: Question<'_>,
    output: &mut O,
) -> Outcome
    ensures { ListsFile (AsksWhy question.entry.client.now question.entry.cell.now)
        (F.may_read files.now) file.now (O.contents output.old) (O.contents output.new) result }
{
    match text_of_file(alloc, files, file) {
        Ok(text) => tell_why(alloc, source_of(file, &text), question, output),
        Err(outcome) => outcome,
    }
}

/// The verdict on the configuration in a file and on the labels in another, and all that fails where that is asked for, with what is
/// warned of.
fn check_files<F: TextFiles>(
    alloc: Global,
    files: &F,
    config: &str,
    labels: &str,
    tells_all: bool,
    warned: Warned,
) -> Outcome
    ensures { ChecksFiles (F.may_read files.now) tells_all warned config.now labels.now result }
{
    match text_of_file(alloc, files, config) {
        Ok(text) => {
            let config = source_of(config, &text);
            check_labels(alloc, files, config, labels, tells_all, warned)
        }
        Err(outcome) => outcome,
    }
}

/// The same of a configuration that was read.
fn check_labels<F: TextFiles>(
    alloc: Global,
    files: &F,
    config: Source<'_>,
    labels: &str,
    tells_all: bool,
    warned: Warned,
) -> Outcome
    ensures { ChecksLabels (F.may_read files.now) tells_all warned labels.now config.entry result }
{
    let made = match read_config(alloc, config.text) {
        Ok(made) => made,
        Err(fault) => return faulty(alloc, config, fault),
    };
    match text_of_file(alloc, files, labels) {
        Ok(text) => {
            let labels = source_of(labels, &text);
            checked(alloc, config, labels, made, tells_all, warned)
        }
        Err(outcome) => outcome,
    }
}

/// Tells of each line of the input whether a client could notice it, by the configuration in a file, where the labels in another are
/// accepted for it.
fn notice_files<F: TextFiles, I: Read, O: Write, E: Write>(
    alloc: Global,
    files: &F,
    look: Look<'_>,
    input: &mut I,
    output: &mut O,
    errors: &mut E,
) -> Outcome
    ensures notices { NoticesFiles (F.may_read files.now) look.entry.config.now
        look.entry.labels.now look.entry.client.now
        (record { unread = I.remaining input.old; written = O.contents output.old })
        (record { unread = I.remaining input.new; written = O.contents output.new }) result }
    ensures quiet { look.entry.is_verbose ≡ false → E.contents errors.new ≡ E.contents errors.old }
{
    match accepted_of_files(alloc, files, look.config, look.labels, false) {
        Ok(checked) => notice_lines(alloc, &checked, look, input, output, errors),
        Err(outcome) => outcome,
    }
}

/// What is accepted of the configuration in a file and of the labels in another, which is read only where the configuration has no
/// fault; or how a command ends that needs it, with all that fails where that is asked for.
fn accepted_of_files<F: TextFiles>(
    alloc: Global,
    files: &F,
    config: &str,
    labels: &str,
    tells_all: bool,
) -> Result<Checked, Outcome>
    ensures { MatchResult result
        (IsAcceptedOf (F.may_read files.now) config.now labels.now)
        (RefusesFiles (F.may_read files.now) tells_all config.now labels.now) }
{
    let text = text_of_file(alloc, files, config)?;
    accepted_of_config(alloc, files, source_of(config, &text), labels, tells_all)
}

/// What is accepted of a configuration that was read and of the labels in a file, as `accepted_of_files` has it.
pub(crate) fn accepted_of_config<F: TextFiles>(
    alloc: Global,
    files: &F,
    config: Source<'_>,
    labels: &str,
    tells_all: bool,
) -> Result<Checked, Outcome>
    ensures { (path : List ℕ) → IsFile (F.may_read files.now) path config.entry → MatchResult result
        (IsAcceptedOf (F.may_read files.now) path labels.now)
        (RefusesFiles (F.may_read files.now) tells_all path labels.now) }
{
    let (plan, policy) = match read_config(alloc, config.text) {
        Ok(made) => made,
        Err(fault) => return Err(faulty(alloc, config, fault)),
    };
    let text = text_of_file(alloc, files, labels)?;
    let labels = source_of(labels, &text);
    accepted_of_texts(alloc, config, labels, plan, &policy, tells_all)
}
