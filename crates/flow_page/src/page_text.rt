//! The text of a page: its parts in their order, with the picture between them.
ghost use Rattle.std.specs.Prelude.{◌≡◌, ◌++◌, IfOk, OnOk, flat_map, string_bytes};
ghost use Rattle.shown_text.specs.Pieces.{facts};
ghost use Rattle.flow_page.specs.Page as spec;

use crate::changes_text::put_changes;
use crate::clients_text::put_clients;
use crate::edges_text::put_edges;
use crate::lists::{Pieces, fill};
use crate::matrix_text::put_matrix;
use crate::objects_text::put_objects;
use crate::page::Page;
use crate::style::SCRIPT;
use crate::verdict_text::{put_contents, put_head, put_numbers, put_verdict};
use crate::ways_text::{put_refused, put_why};
use cosem_data::memory::Memory;
use shown_text::pieces::Piece::Constant;
use shown_text::pieces::render;
use std::alloc::Global;

/// What stands before the picture.
const PICTURE: &str = "<h2 id=\"picture\">How values flow</h2>\n";

/// What a page rests on, and what it leaves out.
const FOOT: &str =
    "</main>\n<footer><p>By cosem-flow 0.1.0, from the configuration alone. What a client <em>may</em> change or learn is that of the least labels: it counts every step that rights and edges allow, whatever the values. Start values, inputs and moments are nobody&#39;s. What the configuration fixes, as names, units and scripts, is hidden from nobody who sees the object. Time, lengths on the line and what people tell each other are left out.</p></footer>\n<script>{}</script>\n</body>\n</html>\n";

/// A part of a page.
#[derive(Clone, Copy, Drop)]
enum Part {
    Head,
    Verdict,
    Numbers,
    Contents,
    Matrix,
    Refused,
    Changes,
    Picture,
    Why,
    Clients,
    Objects,
    Edges,
    Foot,
}

/// Puts a part of a page after other pieces.
fn put_part<'a>(pieces: &mut Pieces<'a>, part: Part, page: &'a Page) -> Result<(), Memory>
    ensures { OnOk result (facts pieces.new.items ≡ facts pieces.old.items ++ spec.part_facts page.now part) }
{
    match part {
        Part::Head => put_head(pieces, page),
        Part::Verdict => put_verdict(pieces, page),
        Part::Numbers => put_numbers(pieces, page),
        Part::Contents => put_contents(pieces, page),
        Part::Matrix => put_matrix(pieces, page),
        Part::Refused => put_refused(pieces, page),
        Part::Changes => put_changes(pieces, page),
        Part::Picture => fill(pieces, PICTURE, &[]),
        Part::Why => put_why(pieces, page),
        Part::Clients => put_clients(pieces, page),
        Part::Objects => put_objects(pieces, page),
        Part::Edges => put_edges(pieces, page),
        Part::Foot => fill(pieces, FOOT, &[Constant(SCRIPT)]),
    }
}

/// Prints a part of a page after a text.
fn push_part(alloc: Global, part: Part, page: &Page, text: &mut String) -> Result<(), Memory>
    ensures { OnOk result (spec.Says (spec.part_facts page.now part) (string_bytes text.old) (string_bytes text.new)) }
{
    let mut pieces = Vec::new(alloc);
    put_part(&mut pieces, part, page)?;
    render(&pieces, text)
}

/// Prints parts of a page after a text. Each is printed before the next is put together, so that no page is held twice.
fn push_parts(alloc: Global, parts: &[Part], page: &Page, text: &mut String) -> Result<(), Memory>
    ensures { OnOk result (spec.Says (flat_map (spec.part_facts page.now) parts.now)
        (string_bytes text.old) (string_bytes text.new)) }
{
    for part in parts {
        push_part(alloc, *part, page, text)?;
    }
    Ok(())
}

/// The text of a page in HTML, in which the picture, itself HTML, stands at its place (HTML Living Standard; what the page says is
/// own profile). Each text from outside stands in it as [`shown_text::html::Escaped`] shows it.
///
/// # Errors
/// Memory was refused.
pub fn page_text(alloc: Global, page: &Page, picture: &str) -> Result<String, Memory>
    ensures { IfOk result (λ text. spec.IsPageText page.now picture.now (string_bytes text)) }
{
    let mut text = String::new(alloc);
    push_parts(
        alloc,
        &[
            Part::Head,
            Part::Verdict,
            Part::Numbers,
            Part::Contents,
            Part::Matrix,
            Part::Refused,
            Part::Changes,
            Part::Picture,
        ],
        page,
        &mut text,
    )?;
    text.push_str(picture)?;
    push_parts(
        alloc,
        &[
            Part::Why,
            Part::Clients,
            Part::Objects,
            Part::Edges,
            Part::Foot,
        ],
        page,
        &mut text,
    )?;
    Ok(text)
}
