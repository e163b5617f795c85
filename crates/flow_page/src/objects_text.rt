//! The objects and the rights on them, as pieces.
ghost use Rattle.std.specs.Prelude.{◌≡◌, ◌++◌, OnOk};
ghost use Rattle.shown_text.specs.Pieces.{facts};
ghost use Rattle.flow_page.specs.Tables as spec;

use crate::clients_text::put_names;
use crate::lines_text::{ACT, GET, SET};
use crate::lists::{Entry, FIELD, Pieces, ROW, fill, put_each};
use crate::objects::{Held, ObjectRow};
use crate::page::Page;
use cosem_data::memory::Memory;
use cosem_data::name::LogicalName;
use flow_map::class_words::class_name;
use shown_text::pieces::Piece::{Constant, Mark, Name, Number};

const FED: &str = "fed";

const VIEW: &str = "view";

const NO_OBJECTS: &str = "<p>There are no objects.</p>\n";

const HEAD: &str =
    "<div class=\"scroll low\" tabindex=\"0\" role=\"region\" aria-labelledby=\"objects\"><table><thead><tr><th scope=\"col\">Logical name</th><th scope=\"col\">Class</th><th scope=\"col\">Class name</th><th scope=\"col\">Inputs</th>";

/// An attribute or a method.
impl Entry for u8 {
    ghost use Rattle.flow_page.specs.Tables.{index_facts};

    ghost says = { index_facts };

    fn put<'a>(&'a self, pieces: &mut Pieces<'a>) -> Result<(), Memory> {
        fill(pieces, "{}", &[Number(*self as u128)])
    }
}

/// A logical name.
impl Entry for LogicalName {
    ghost use Rattle.flow_page.specs.Tables.{object_name};

    ghost says = { object_name };

    fn put<'a>(&'a self, pieces: &mut Pieces<'a>) -> Result<(), Memory> {
        fill(pieces, "{}", &[Name(*self)])
    }
}

/// Puts a right to these attributes or methods, if there are any, after other pieces and this markup.
fn put_right<'a>(
    pieces: &mut Pieces<'a>,
    before: &'static str,
    right: &'static str,
    indexes: &'a [u8],
) -> Result<(), Memory>
    ensures { OnOk result (facts pieces.new.items ≡ facts pieces.old.items ++ spec.right_facts right.now indexes.now) }
{
    if indexes.is_empty() {
        return Ok(());
    }
    fill(pieces, "{}{} ", &[Constant(before), Mark(right)])?;
    put_each(pieces, " ", indexes)
}

impl Held {
    /// Puts the rights after other pieces.
    fn put_rights<'a>(&'a self, pieces: &mut Pieces<'a>) -> Result<(), Memory>
        ensures { OnOk result (facts pieces.new.items ≡ facts pieces.old.items ++ spec.rights_facts self.now) }
    {
        let after_gets = if self.gets.is_empty() { "" } else { "; " };
        let after_sets = if self.sets.is_empty() {
            after_gets
        } else {
            "; "
        };
        put_right(pieces, "", GET, &self.gets)?;
        put_right(pieces, after_gets, SET, &self.sets)?;
        put_right(pieces, after_sets, ACT, &self.acts)
    }

    /// Puts what the client may do after other pieces.
    fn put_held<'a>(&'a self, pieces: &mut Pieces<'a>) -> Result<(), Memory>
        ensures { OnOk result (facts pieces.new.items ≡ facts pieces.old.items ++ spec.held_facts self.now) }
    {
        if !self.sees {
            return Ok(());
        }
        if self.gets.is_empty() && self.sets.is_empty() && self.acts.is_empty() {
            return fill(pieces, "{}", &[Mark(VIEW)]);
        }
        self.put_rights(pieces)
    }
}

/// A field of the table.
impl Entry for Held {
    ghost use Rattle.flow_page.specs.Tables.{field_facts};

    ghost says = { field_facts };

    fn put<'a>(&'a self, pieces: &mut Pieces<'a>) -> Result<(), Memory> {
        fill(pieces, "{}", &[Mark(FIELD)])?;
        self.put_held(pieces)?;
        fill(pieces, "</td>", &[])
    }
}

/// Puts the names of the objects of a row after other pieces.
fn put_object_names<'a>(pieces: &mut Pieces<'a>, names: &'a [LogicalName]) -> Result<(), Memory>
    ensures { OnOk result (facts pieces.new.items ≡ facts pieces.old.items ++ spec.names_facts names.now) }
{
    if names.len() == 1 {
        fill(pieces, "<code>", &[])?;
        put_each(pieces, "", names)?;
        return fill(pieces, "</code>", &[]);
    }
    let start = "<details><summary>{} objects</summary><ul class=\"list\"><li><code>";
    fill(pieces, start, &[Number(names.len() as u128)])?;
    put_each(pieces, "</code></li><li><code>", names)?;
    fill(pieces, "</code></li></ul></details>", &[])
}

/// A row of the table.
impl Entry for ObjectRow {
    ghost use Rattle.flow_page.specs.Tables.{object_facts};

    ghost says = { object_facts };

    fn put<'a>(&'a self, pieces: &mut Pieces<'a>) -> Result<(), Memory> {
        fill(pieces, "{}", &[Mark(ROW)])?;
        put_object_names(pieces, &self.names)?;
        let class_id = Number(self.class_id as u128);
        let class = Mark(class_name(self.class_id));
        let inputs = Mark(if self.is_fed { FED } else { "" });
        let template = "</th><td>{}</td><td>{}</td><td>{}</td>";
        fill(pieces, template, &[class_id, class, inputs])?;
        put_each(pieces, "", &self.held)?;
        fill(pieces, "</tr>\n", &[])
    }
}

/// Puts the objects and the rights on them, or that there are none, after other pieces.
pub(crate) fn put_objects<'a>(pieces: &mut Pieces<'a>, page: &'a Page) -> Result<(), Memory>
    ensures { OnOk result (facts pieces.new.items
        ≡ facts pieces.old.items ++ spec.objects_facts page.now.clients.items page.now.objects.items) }
{
    fill(pieces, "<h2 id=\"objects\">Objects and rights</h2>\n", &[])?;
    if page.objects.is_empty() {
        return fill(pieces, "{}", &[Mark(NO_OBJECTS)]);
    }
    fill(pieces, HEAD, &[])?;
    put_names(pieces, "<th scope=\"col\">{}</th>", &page.clients)?;
    fill(pieces, "</tr></thead>\n<tbody>\n", &[])?;
    put_each(pieces, "", &page.objects)?;
    fill(pieces, "</tbody></table></div>\n", &[])
}
