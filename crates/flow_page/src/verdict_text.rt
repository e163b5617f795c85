//! The top of a page: its name, the verdict, how many things there are, and links to its parts, as pieces.
ghost use Rattle.std.specs.Prelude.{◌≡◌, ◌++◌, OnOk, flat_map};
ghost use Rattle.std.specs.List.{list_any};
ghost use Rattle.shown_text.specs.Pieces.{facts};
ghost use Rattle.flow_page.specs.Page as spec;

use crate::lists::{Pieces, fill, for_number};
use crate::page::{ClientRow, Page};
use crate::style::{SCRIPT_DIGEST, STYLE, STYLE_DIGEST};
use cosem_data::memory::Memory;
use shown_text::pieces::Piece::{Constant, Hole, Mark, Number};

/// The page allows itself no style and no script but its own.
const POLICY: &str =
    "<!DOCTYPE html>\n<html lang=\"en\">\n<head>\n<meta charset=\"utf-8\">\n<meta http-equiv=\"Content-Security-Policy\" content=\"default-src 'none'; base-uri 'none'; form-action 'none'; style-src 'sha256-{}'; script-src 'sha256-{}'\">\n";

const TITLE: &str =
    "<meta name=\"viewport\" content=\"width=device-width, initial-scale=1\">\n<title>Access flow of {}</title>\n<style>{}</style>\n</head>\n<body>\n<main>\n<h1>Access flow of {}</h1>\n";

const ACCEPTED: &str = "<div class=\"verdict\"><strong>&#10003; ";

const REFUSED: &str = "<div class=\"verdict no\"><strong>&#10007; ";

const GIVEN_FIT: &str = "<p>Rights and edges fit the labels given";

const LEAST_FIT: &str = "<p>Rights and edges fit the least labels of this configuration";

/// What an accepted page says of the policy.
const KEPT: &str =
    ", and these keep within the policy: nobody influences or learns a cell that the policy keeps from them, over every list of steps.</p>";

/// What stands before the list of what the policy doesn't allow.
const EXCEEDED: &str =
    "<p>No labels are accepted, since the configuration allows what its policy does not:</p>\n<ul>";

/// What stands after it.
const REMEDY: &str = r##"</ul>
<p>Take a right back, cut an edge, or say so in the policy. <a href="#not-allowed">Which ways these are</a></p>"##;

/// What is said of labels that don't fit, where the policy allows all.
const OUTDATED: &str =
    "<p>The label file does not fit. The least labels of this configuration would be accepted: make them anew with <code>cosem-flow label</code>.</p>";

const MAY_CHANGE: &str = "may change";

const MAY_LEARN: &str = "may learn";

const NUMBERS: &str =
    "<ul class=\"facts\"><li>Objects <b>{}</b></li><li>Cells <b>{}</b></li><li>Clients <b>{}</b></li><li>Edges <b>{}</b></li><li>Reached by a right <b>{}</b></li><li>Reached only by edges <b>{}</b></li><li>Not allowed <b>{}</b></li><li>Allowed, but no way <b>{}</b></li></ul>\n";

const CONTENTS: &str =
    "<nav aria-label=\"Parts of this page\"><a href=\"#matrix\">Who reaches what</a>{}{}<a href=\"#picture\">Flow</a><a href=\"#why\">Why</a><a href=\"#clients\">Clients</a><a href=\"#objects\">Objects</a><a href=\"#edges\">Edges</a></nav>\n";

const TO_REFUSED: &str = "<a href=\"#not-allowed\">Not allowed</a>";

const TO_CHANGES: &str = "<a href=\"#changes\">Changes</a>";

/// Puts the head of the document after other pieces.
pub(crate) fn put_head<'a>(pieces: &mut Pieces<'a>, page: &'a Page) -> Result<(), Memory>
    ensures { OnOk result (facts pieces.new.items ≡ facts pieces.old.items ++ spec.head_facts page.now) }
{
    let name = Hole(page.heading.name.as_str());
    fill(
        pieces,
        POLICY,
        &[Constant(STYLE_DIGEST), Constant(SCRIPT_DIGEST)],
    )?;
    fill(pieces, TITLE, &[name, Constant(STYLE), name])
}

/// Puts how many cells a client reaches so against the policy, if it does, after other pieces.
fn put_excess(pieces: &mut Pieces<'_>, reach: &'static str, cells: usize) -> Result<(), Memory>
    ensures { OnOk result (facts pieces.new.items ≡ facts pieces.old.items ++ spec.excess_facts reach.now cells) }
{
    if cells == 0 {
        return Ok(());
    }
    let template = for_number(cells, "{} <b>{} cell</b>", "{} <b>{} cells</b>");
    fill(pieces, template, &[Mark(reach), Number(cells as u128)])
}

impl ClientRow {
    /// Whether the client reaches a cell against the policy.
    fn exceeds(&self) -> bool
        ensures { result ≡ spec.exceeds self.now }
    {
        0 < self.influence.not_allowed || 0 < self.learn.not_allowed
    }

    /// Puts what the client reaches against the policy, if it does, after other pieces.
    fn put_excesses<'a>(&'a self, pieces: &mut Pieces<'a>) -> Result<(), Memory>
        ensures { OnOk result (facts pieces.new.items ≡ facts pieces.old.items ++ spec.excesses_facts self.now) }
    {
        if !self.exceeds() {
            return Ok(());
        }
        let changed = self.influence.not_allowed;
        let learned = self.learn.not_allowed;
        let and = if changed == 0 || learned == 0 {
            ""
        } else {
            " and "
        };
        fill(pieces, "<li><b>{}</b> ", &[Hole(self.name.as_str())])?;
        put_excess(pieces, MAY_CHANGE, changed)?;
        fill(pieces, and, &[])?;
        put_excess(pieces, MAY_LEARN, learned)?;
        fill(pieces, "</li>", &[])
    }
}

/// Puts what each client reaches against the policy after other pieces.
fn put_all_excesses<'a>(pieces: &mut Pieces<'a>, clients: &'a [ClientRow]) -> Result<(), Memory>
    ensures { OnOk result (facts pieces.new.items ≡ facts pieces.old.items ++ flat_map spec.excesses_facts clients.now) }
{
    for client in clients {
        client.put_excesses(pieces)?;
    }
    Ok(())
}

/// Whether a client reaches a cell against the policy.
fn exceed(clients: &[ClientRow]) -> bool
    ensures { result ≡ list_any spec.exceeds clients.now }
{
    clients.iter().any(|client| client.exceeds())
}

/// Puts why labels are refused after other pieces.
fn put_refusal<'a>(pieces: &mut Pieces<'a>, clients: &'a [ClientRow]) -> Result<(), Memory>
    ensures { OnOk result (facts pieces.new.items ≡ facts pieces.old.items ++ spec.refusal_facts clients.now) }
{
    if !exceed(clients) {
        return fill(pieces, "{}", &[Mark(OUTDATED)]);
    }
    fill(pieces, "{}", &[Mark(EXCEEDED)])?;
    put_all_excesses(pieces, clients)?;
    fill(pieces, REMEDY, &[])
}

/// Puts the verdict, and what it means, after other pieces.
pub(crate) fn put_verdict<'a>(pieces: &mut Pieces<'a>, page: &'a Page) -> Result<(), Memory>
    ensures { OnOk result (facts pieces.new.items ≡ facts pieces.old.items ++ spec.verdict_facts page.now) }
{
    let verdict = Hole(page.heading.verdict.as_str());
    if !page.heading.accepted {
        fill(pieces, "{}{}</strong>", &[Mark(REFUSED), verdict])?;
        put_refusal(pieces, &page.clients)?;
        return fill(pieces, "</div>\n", &[]);
    }
    let fitting = if page.heading.given_labels {
        GIVEN_FIT
    } else {
        LEAST_FIT
    };
    let values = [Mark(ACCEPTED), verdict, Mark(fitting), Mark(KEPT)];
    fill(pieces, "{}{}</strong>{}{}</div>\n", &values)
}

/// Puts how many things there are after other pieces.
pub(crate) fn put_numbers(pieces: &mut Pieces<'_>, page: &Page) -> Result<(), Memory>
    ensures { OnOk result (facts pieces.new.items ≡ facts pieces.old.items ++ spec.numbers_facts page.now) }
{
    fill(
        pieces,
        NUMBERS,
        &[
            Number(page.object_count as u128),
            Number(page.cell_count as u128),
            Number(page.clients.len() as u128),
            Number(page.edge_count as u128),
            Number(page.total.by_right as u128),
            Number(page.total.by_edges as u128),
            Number(page.total.not_allowed as u128),
            Number(page.total.no_way as u128),
        ],
    )
}

/// Puts links to the parts of the page after other pieces.
pub(crate) fn put_contents(pieces: &mut Pieces<'_>, page: &Page) -> Result<(), Memory>
    ensures { OnOk result (facts pieces.new.items ≡ facts pieces.old.items ++ spec.contents_facts page.now) }
{
    let to_refused = if page.has_refused() { TO_REFUSED } else { "" };
    let to_changes = if page.changes.is_some() {
        TO_CHANGES
    } else {
        ""
    };
    fill(pieces, CONTENTS, &[Mark(to_refused), Mark(to_changes)])
}
