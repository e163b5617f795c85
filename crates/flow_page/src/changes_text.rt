//! What has changed, as pieces.
ghost use Rattle.std.specs.Prelude.{◌≡◌, ◌++◌, OnOk};
ghost use Rattle.shown_text.specs.Pieces.{facts};
ghost use Rattle.flow_page.specs.Tables as spec;

use crate::changes::{ChangedFact, Changes, KindChanges};
use crate::lines_text::put_way;
use crate::lists::{Entry, Pieces, fill, put_each};
use crate::page::Page;
use cosem_data::memory::Memory;
use flow_map::kind::{Change, Kind};
use shown_text::pieces::Piece::{Hole, Mark, Number, Place};

const NOBODY: &str = "nobody";

const GAINED: &str = "<span class=\"plus\">+ new</span>";

const LOST: &str = "<span class=\"minus\">&minus; gone</span>";

/// What the facts of a kind are about.
const MAY: &str = "Influence and learning";

const ALLOWED: &str = "Policy";

const RIGHT: &str = "Rights";

const CLIENT: &str = "Clients";

const CELL: &str = "Cells";

const EDGE: &str = "Edges";

const HEAD: &str =
    "<div class=\"scroll low\" tabindex=\"0\" role=\"region\" aria-labelledby=\"changes\"><table><thead><tr><th scope=\"col\">Of</th><th scope=\"col\">Change</th><th scope=\"col\">What</th><th scope=\"col\">Shortest way now</th></tr></thead>\n";

const MORE: &str =
    "<tr><th scope=\"rowgroup\">{}</th><td colspan=\"3\">and {} more, printed by <code>cosem-flow compare</code></td></tr>\n";

/// What the facts of a kind are about.
fn title_of(kind: Kind) -> &'static str
    ensures { result.now ≡ spec.title_of kind }
{
    match kind {
        Kind::May => MAY,
        Kind::Allowed => ALLOWED,
        Kind::Right => RIGHT,
        Kind::Client => CLIENT,
        Kind::Cell => CELL,
        Kind::Edge => EDGE,
    }
}

/// The sign of what is gained or lost.
fn sign_of(change: Change) -> &'static str
    ensures { result.now ≡ spec.change_sign change }
{
    match change {
        Change::Gained => GAINED,
        Change::Lost => LOST,
    }
}

impl ChangedFact {
    /// Puts what stands in its row after the field of its kind after other pieces.
    fn put_fields<'a>(&'a self, pieces: &mut Pieces<'a>) -> Result<(), Memory>
        ensures { OnOk result (facts pieces.new.items ≡ facts pieces.old.items ++ spec.change_facts self.now) }
    {
        let sign = Mark(sign_of(self.change));
        let words = Hole(self.words.as_str());
        fill(
            pieces,
            "<td>{}</td><td><code>{}</code></td><td>",
            &[sign, words],
        )?;
        if !self.way.is_empty() {
            put_way(pieces, &self.way)?;
        }
        fill(pieces, "</td></tr>\n", &[])
    }
}

/// A row after the first of its kind.
impl Entry for ChangedFact {
    ghost use Rattle.flow_page.specs.Tables.{change_facts};

    ghost says = { change_facts };

    fn put<'a>(&'a self, pieces: &mut Pieces<'a>) -> Result<(), Memory> {
        fill(pieces, "<tr>", &[])?;
        self.put_fields(pieces)
    }
}

impl KindChanges {
    /// Puts rows, of which the first begins with the field of the kind, after other pieces.
    fn put_rows<'a>(&self, pieces: &mut Pieces<'a>, rows: &'a [ChangedFact]) -> Result<(), Memory>
        ensures { OnOk result (facts pieces.new.items ≡ facts pieces.old.items ++ spec.rows_facts self.now.kind rows.now) }
    {
        let Some((first, rest)) = rows.split_first() else {
            return Ok(());
        };
        let height = Place(rows.len() as u128);
        let template = "<tr><th scope=\"rowgroup\" rowspan=\"{}\">{}</th>";
        fill(pieces, template, &[height, Mark(title_of(self.kind))])?;
        first.put_fields(pieces)?;
        put_each(pieces, "", rest)
    }
}

/// The rows of a kind.
impl Entry for KindChanges {
    ghost use Rattle.flow_page.specs.Tables.{kind_facts};

    ghost says = { kind_facts };

    fn put<'a>(&'a self, pieces: &mut Pieces<'a>) -> Result<(), Memory> {
        fill(pieces, "<tbody>\n", &[])?;
        self.put_rows(pieces, &self.facts)?;
        if self.more != 0 {
            let title = Mark(title_of(self.kind));
            fill(pieces, MORE, &[title, Number(self.more as u128)])?;
        }
        fill(pieces, "</tbody>\n", &[])
    }
}

/// The name of a client.
impl Entry for String {
    ghost use Rattle.flow_page.specs.Tables.{gainer_facts};

    ghost says = { gainer_facts };

    fn put<'a>(&'a self, pieces: &mut Pieces<'a>) -> Result<(), Memory> {
        fill(pieces, "{}", &[Hole(self.as_str())])
    }
}

impl Changes {
    /// Puts the names of the clients that gain, or that nobody does, after other pieces.
    fn put_gainers<'a>(&'a self, pieces: &mut Pieces<'a>) -> Result<(), Memory>
        ensures { OnOk result (facts pieces.new.items ≡ facts pieces.old.items ++ spec.gainers_facts self.now.gainers.items) }
    {
        if self.gainers.is_empty() {
            return fill(pieces, "{}", &[Mark(NOBODY)]);
        }
        put_each(pieces, ", ", &self.gainers)
    }

    /// Puts what has changed after other pieces.
    fn put<'a>(&'a self, pieces: &mut Pieces<'a>) -> Result<(), Memory>
        ensures { OnOk result (facts pieces.new.items ≡ facts pieces.old.items ++ spec.changed_facts self.now) }
    {
        let heading = "<h2 id=\"changes\">What this configuration changes</h2>\n";
        fill(pieces, heading, &[])?;
        fill(pieces, "<p><strong>Gained by ", &[])?;
        self.put_gainers(pieces)?;
        fill(
            pieces,
            "</strong> against the configuration before.</p>\n",
            &[],
        )?;
        if self.kinds.is_empty() {
            return Ok(());
        }
        fill(pieces, HEAD, &[])?;
        put_each(pieces, "", &self.kinds)?;
        fill(pieces, "</table></div>\n", &[])
    }
}

/// Puts what has changed against the configuration before, where one is given, after other pieces.
pub(crate) fn put_changes<'a>(pieces: &mut Pieces<'a>, page: &'a Page) -> Result<(), Memory>
    ensures { OnOk result (facts pieces.new.items ≡ facts pieces.old.items ++ spec.changes_facts page.now.changes) }
{
    match &page.changes {
        Some(changes) => changes.put(pieces),
        None => Ok(()),
    }
}
