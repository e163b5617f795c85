//! The clients, as pieces.
ghost use Rattle.std.specs.Prelude.{◌≡◌, ◌++◌, OnOk, flat_map};
ghost use Rattle.shown_text.specs.Pieces.{facts};
ghost use Rattle.flow_page.specs.Tables as spec;

use crate::lists::{Entry, Pieces, ROW, fill, put_each};
use crate::page::{ClientRow, Counts, Page};
use cosem_data::memory::Memory;
use shown_text::pieces::Piece::{Constant, Hole, Mark, Number};

const PASSWORD: &str = "needed";

const NO_PASSWORD: &str = "none";

/// What stands before a number that ought to be 0.
const ALARM: &str = "<i class=\"x\">! ";

const NO_CLIENTS: &str = "<p>There are no clients.</p>\n";

const HEAD: &str =
    r#"<div class="scroll low" tabindex="0" role="region" aria-labelledby="clients"><table><thead><tr><th scope="col" rowspan="2">Client</th><th scope="col" rowspan="2">SAP</th><th scope="col" rowspan="2">Password</th><th scope="col" rowspan="2">Objects in view</th><th scope="colgroup" colspan="3">May change cells</th><th scope="colgroup" colspan="3">May learn cells</th></tr>
<tr><th scope="col">by a right</th><th scope="col">by edges</th><th scope="col">of these not allowed</th><th scope="col">by a right</th><th scope="col">by edges</th><th scope="col">of these not allowed</th></tr></thead>
<tbody>
"#;

/// Puts the fields that say how many cells a client reaches after other pieces.
#[tactic(auto, unfolding(crate::specs::Tables::counts_facts))]
fn put_counts(pieces: &mut Pieces<'_>, counts: Counts) -> Result<(), Memory>
    ensures { OnOk result (facts pieces.new.items ≡ facts pieces.old.items ++ spec.counts_facts counts) }
{
    let (alarm, end) = match counts.not_allowed {
        0 => ("", ""),
        _ => (ALARM, "</i>"),
    };
    let by_right = Number(counts.by_right as u128);
    let by_edges = Number(counts.by_edges as u128);
    let not_allowed = Number(counts.not_allowed as u128);
    fill(
        pieces,
        "<td>{}</td><td>{}</td><td>{}{}{}</td>",
        &[by_right, by_edges, Mark(alarm), not_allowed, Constant(end)],
    )
}

/// A row of the table.
impl Entry for ClientRow {
    ghost use Rattle.flow_page.specs.Tables.{client_facts};

    ghost says = { client_facts };

    fn put<'a>(&'a self, pieces: &mut Pieces<'a>) -> Result<(), Memory> {
        let name = Hole(self.name.as_str());
        let sap = Number(self.sap as u128);
        let password = if self.needs_password {
            PASSWORD
        } else {
            NO_PASSWORD
        };
        let objects = Number(self.objects as u128);
        fill(
            pieces,
            "{}{}</th><td>{}</td><td>{}</td><td>{}</td>",
            &[Mark(ROW), name, sap, Mark(password), objects],
        )?;
        put_counts(pieces, self.influence)?;
        put_counts(pieces, self.learn)?;
        fill(pieces, "</tr>\n", &[])
    }
}

/// Puts the names of clients after other pieces, each by a template for the head of its column.
pub(crate) fn put_names<'a>(
    pieces: &mut Pieces<'a>,
    template: &'static str,
    clients: &'a [ClientRow],
) -> Result<(), Memory>
    ensures { OnOk result (facts pieces.new.items ≡ facts pieces.old.items ++ flat_map spec.name_facts clients.now) }
{
    for client in clients {
        fill(pieces, template, &[Hole(client.name.as_str())])?;
    }
    Ok(())
}

/// Puts the clients, or that there are none, after other pieces.
pub(crate) fn put_clients<'a>(pieces: &mut Pieces<'a>, page: &'a Page) -> Result<(), Memory>
    ensures { OnOk result (facts pieces.new.items ≡ facts pieces.old.items ++ spec.clients_facts page.now) }
{
    fill(pieces, "<h2 id=\"clients\">Clients</h2>\n", &[])?;
    if page.clients.is_empty() {
        return fill(pieces, "{}", &[Mark(NO_CLIENTS)]);
    }
    fill(pieces, HEAD, &[])?;
    put_each(pieces, "", &page.clients)?;
    fill(pieces, "</tbody></table></div>\n", &[])
}
