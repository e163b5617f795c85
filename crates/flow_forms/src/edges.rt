//! The list of a plan's edges.
ghost use Rattle.std.specs.Prelude.{◌≡◌, ◌++◌, ◌<◌, IfOk, OnOk, length, map};
ghost use Rattle.meter_theory.specs.Edges.{edges};
ghost use Rattle.label_certificate.specs.Least.{AreLinks};
ghost use Rattle.whole_writes.specs.Written.{WritesText};
ghost use Rattle.flow_forms.specs.Listing.{cell_within, dot_text, edges_text, form_text, link_text, list_text};

use cosem_data::cell::CellRef;
use cosem_data::memory::Memory;
use flow_edges::table::Link;
use flow_map::map::FlowMap;
use std::alloc::Global;
use std::io::Write;
use value_text::cell::push_cell;
use value_text::edge::word_of;
use whole_writes::fault::ListFault;
use whole_writes::{write_full, write_waiting};

/// A form in which edges are listed: what stands around all of them, and in each line around its two cells and its cause.
#[derive(Clone, Copy)]
struct Form<'a> {
    head: &'a str,
    start: &'a str,
    between: &'a str,
    label: &'a str,
    end: &'a str,
    foot: &'a str,
}

/// Writes the edges of a plan, each in a line of its own: `CELL -> CELL CAUSE` (own profile). In memory are the text of each
/// cell as a source and as a target, the edges by numbers, and up to 64 KiB of lines that wait and one line more.
///
/// # Errors
/// Memory was refused or a write failed, and then a beginning of the list was written.
pub fn write_edges<W: Write>(
    alloc: Global,
    map: &FlowMap<'_>,
    writer: &mut W,
) -> Result<(), ListFault>
    ensures { WritesText (edges_text (edges map.now.plan))
        (W.contents writer.old) (W.contents writer.new) result }
{
    let form = Form {
        head: "",
        start: "",
        between: " -> ",
        label: " ",
        end: "\n",
        foot: "",
    };
    write_list(alloc, map, &form, writer)
}

/// Writes the edges of a plan as a graph that Graphviz reads, each in a line of its own (own profile): a node for each cell that an
/// edge leads from or to, and the cause beside the edge. In memory is as much as for the lines of [`write_edges`].
///
/// # Errors
/// Memory was refused or a write failed, and then a beginning of the graph was written.
pub fn write_dot<W: Write>(
    alloc: Global,
    map: &FlowMap<'_>,
    writer: &mut W,
) -> Result<(), ListFault>
    ensures { WritesText (dot_text (edges map.now.plan))
        (W.contents writer.old) (W.contents writer.new) result }
{
    let form = Form {
        head: "digraph cells {\n",
        start: "  \"",
        between: "\" -> \"",
        label: "\" [label=\"",
        end: "\"];\n",
        foot: "}\n",
    };
    write_list(alloc, map, &form, writer)
}

/// Writes the edges of a plan in a form.
fn write_list<W: Write>(
    alloc: Global,
    map: &FlowMap<'_>,
    form: &Form<'_>,
    writer: &mut W,
) -> Result<(), ListFault>
    ensures { WritesText (form_text form.now (edges map.now.plan))
        (W.contents writer.old) (W.contents writer.new) result }
{
    let sources = cell_texts(alloc, map.cells(), form.start, form.between)?;
    let targets = cell_texts(alloc, map.cells(), "", form.label)?;
    write_links(alloc, form, &sources, &targets, map.links(), writer)
}

/// The texts of these cells, each with what stands before and behind it in a line: so a line is put together from fewer pieces.
fn cell_texts(
    alloc: Global,
    cells: &[CellRef],
    before: &str,
    behind: &str,
) -> Result<Vec<Vec<u8>>, Memory>
    ensures { IfOk result (λ texts. map (λ text. text.items) texts.items ≡ map (cell_within before.now behind.now) cells.now) }
{
    let mut texts = Vec::with_capacity(alloc, cells.len())?;
    for cell in cells {
        let mut text = Vec::new(alloc);
        push_text(before, &mut text)?;
        push_cell(alloc, cell, &mut text)?;
        push_text(behind, &mut text)?;
        texts.push(text)?;
    }
    Ok(texts)
}

/// Writes a line for each edge between the cells whose texts as sources and as targets are these, between the head and the foot
/// of the form.
fn write_links<W: Write>(
    alloc: Global,
    form: &Form<'_>,
    sources: &[Vec<u8>],
    targets: &[Vec<u8>],
    links: &[Link],
    writer: &mut W,
) -> Result<(), ListFault>
    requires sources { AreLinks (length sources.now) links.now }
    requires targets { AreLinks (length targets.now) links.now }
    ensures { WritesText (list_text form.now (map (λ text. text.items) sources.now) (map (λ text. text.items) targets.now) links.now)
        (W.contents writer.old) (W.contents writer.new) result }
{
    let mut waiting = Vec::new(alloc);
    push_text(form.head, &mut waiting)?;
    for link in links {
        push_link(form, sources, targets, *link, &mut waiting)?;
        write_full(&mut waiting, writer)?;
    }
    push_text(form.foot, &mut waiting)?;
    write_waiting(&mut waiting, writer)?;
    Ok(())
}

/// Puts a text behind these bytes. The error is that memory was refused.
fn push_text(text: &str, bytes: &mut Vec<u8>) -> Result<(), Memory>
    ensures { OnOk result (bytes.new.items ≡ bytes.old.items ++ text.now) }
{
    bytes.extend_from_slice(text.as_bytes())?;
    Ok(())
}

/// Puts the line of an edge behind those that wait. The error is that memory was refused; a part of the line may then wait.
fn push_link(
    form: &Form<'_>,
    sources: &[Vec<u8>],
    targets: &[Vec<u8>],
    link: Link,
    waiting: &mut Vec<u8>,
) -> Result<(), Memory>
    requires source { link.source < length sources.now }
    requires target { link.target < length targets.now }
    ensures { OnOk result (waiting.new.items ≡ waiting.old.items
        ++ link_text form.now (map (λ text. text.items) sources.now) (map (λ text. text.items) targets.now) link) }
{
    waiting.extend_from_slice(&sources[link.source])?;
    waiting.extend_from_slice(&targets[link.target])?;
    waiting.extend_from_slice(word_of(link.cause).as_bytes())?;
    waiting.extend_from_slice(form.end.as_bytes())?;
    Ok(())
}
