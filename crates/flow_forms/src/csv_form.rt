//! The report as CSV.
ghost use Rattle.std.specs.Prelude.{◌≡◌, ◌<◌, ◌∷◌, [], IfOk, OnOk, flat_map, length, map, string_bytes};
ghost use Rattle.meter_theory.specs.Labels.{labelling_of_policy};
ghost use Rattle.meter_theory.specs.Plan as theory;
ghost use Rattle.value_text.specs.Texts.{cell_text};
ghost use Rattle.flow_edges.specs.Table.{cell_at};
ghost use Rattle.flow_ways.specs.Found.{distance_of};
ghost use Rattle.flow_forms.specs.Csv as spec;
ghost use Rattle.flow_forms.specs.Csv.{AreWritten, IsBetween, IsCsv, client_names};

use cosem_data::cell::CellRef;
use cosem_data::memory::Memory;
use csv::{Writer, WriterBuilder};
use flow_map::words::reach_word;
use flow_ways::ways::Ways;
use label_certificate::label_sets::set_for;
use meter_theory::flow::{Label, Reach};
use std::alloc::Global;
use std::io::Write;
use value_text::cell::push_cell;

/// The report of a plan's ways and a policy as CSV (RFC 4180, with a newline alone behind each record): a header, and then for
/// each cell in plan order, each client, and influence before learn, whether the client may reach the cell, by how many edges at
/// least, and whether the policy allows it (own profile).
///
/// # Errors
/// Memory was refused.
pub fn csv_text(alloc: Global, ways: &Ways<'_>) -> Result<Vec<u8>, Memory>
    ensures { IfOk result (λ text. IsCsv ways.now.plan ways.now.policy text.items) }
{
    ways.plan().known();
    let mut writer = WriterBuilder::new().from_writer(Vec::new(alloc));
    write_rows(alloc, ways, &mut writer)?;
    match writer.into_inner() {
        Ok(text) => Ok(text),
        Err(_) => Err(Memory),
    }
}

/// Writes the header and the records of all cells. The error is that a write was refused.
fn write_rows<W: Write + Drop>(
    alloc: Global,
    ways: &Ways<'_>,
    writer: &mut Writer<W>,
) -> Result<(), Memory>
    requires { IsBetween writer.old }
    ensures { OnOk result (AreWritten W.contents writer.old writer.new (spec.header
        ∷ flat_map (spec.cell_rows (client_names ways.now.plan) (distance_of ways.now.plan) (labelling_of_policy ways.now.plan ways.now.policy))
        (theory.cells ways.now.plan))) }
{
    let header = record_of(b"cell", b"client", b"kind", b"may", b"edges", b"allowed");
    write_fields(&header, writer)?;
    write_cells(alloc, ways, writer)
}

/// Writes the records of each cell.
fn write_cells<W: Write + Drop>(
    alloc: Global,
    ways: &Ways<'_>,
    writer: &mut Writer<W>,
) -> Result<(), Memory>
    requires { IsBetween writer.old }
    ensures { OnOk result (AreWritten W.contents writer.old writer.new
        (flat_map (spec.cell_rows (client_names ways.now.plan) (distance_of ways.now.plan) (labelling_of_policy ways.now.plan ways.now.policy))
        (theory.cells ways.now.plan))) }
{
    let labels = ways.map().allowed();
    for number in 0..labels.len() {
        write_cell(alloc, ways, number, labels[number], writer)?;
    }
    Ok(())
}

/// Writes the records of the cell with this number, which has this label.
fn write_cell<W: Write + Drop>(
    alloc: Global,
    ways: &Ways<'_>,
    number: usize,
    label: Label,
    writer: &mut Writer<W>,
) -> Result<(), Memory>
    requires cell { number < length (theory.cells ways.now.plan) }
    requires between { IsBetween writer.old }
    ensures { OnOk result (AreWritten W.contents writer.old writer.new
        (spec.first_rows (client_names ways.now.plan) (distance_of ways.now.plan) (cell_at (theory.cells ways.now.plan) number) label
        (length (client_names ways.now.plan)))) }
{
    let text = cell_bytes(alloc, &ways.cells()[number])?;
    let cell = CellRecords {
        number,
        label,
        text: &text,
    };
    for client in 0..ways.plan().client_count() {
        write_client(alloc, ways, &cell, client, writer)?;
    }
    Ok(())
}

/// The text of a cell.
fn cell_bytes(alloc: Global, cell: &CellRef) -> Result<Vec<u8>, Memory>
    ensures { IfOk result (λ text. text.items ≡ cell_text cell.now) }
{
    let mut text = Vec::new(alloc);
    push_cell(alloc, cell, &mut text)?;
    Ok(text)
}

/// A cell of which records are written.
#[derive(Clone, Copy, Drop)]
struct CellRecords<'a> {
    /// Its number.
    number: usize,
    /// Whom the policy allows it.
    label: Label,
    /// Its text.
    text: &'a [u8],
}

/// Writes the two records of a cell and a client.
fn write_client<W: Write + Drop>(
    alloc: Global,
    ways: &Ways<'_>,
    cell: &CellRecords<'_>,
    client: u8,
    writer: &mut Writer<W>,
) -> Result<(), Memory>
    requires cell { cell.now.number < length (theory.cells ways.now.plan) }
    requires client { client < length ways.now.plan.clients }
    requires text { cell.now.text.now ≡ cell_text (cell_at (theory.cells ways.now.plan) cell.now.number) }
    requires between { IsBetween writer.old }
    ensures { OnOk result (AreWritten W.contents writer.old writer.new
        (spec.client_rows (client_names ways.now.plan) (distance_of ways.now.plan)
        (cell_at (theory.cells ways.now.plan) cell.now.number) cell.now.label client)) }
{
    write_reach(alloc, ways, cell, client, Reach::Influence, writer)?;
    write_reach(alloc, ways, cell, client, Reach::Learn, writer)
}

/// Writes the record of a cell, a client and a reach.
fn write_reach<W: Write + Drop>(
    alloc: Global,
    ways: &Ways<'_>,
    cell: &CellRecords<'_>,
    client: u8,
    reach: Reach,
    writer: &mut Writer<W>,
) -> Result<(), Memory>
    requires cell { cell.now.number < length (theory.cells ways.now.plan) }
    requires client { client < length ways.now.plan.clients }
    requires text { cell.now.text.now ≡ cell_text (cell_at (theory.cells ways.now.plan) cell.now.number) }
    requires between { IsBetween writer.old }
    ensures { OnOk result (AreWritten W.contents writer.old writer.new
        (spec.row (client_names ways.now.plan) (distance_of ways.now.plan)
        (cell_at (theory.cells ways.now.plan) cell.now.number) cell.now.label client reach ∷ [])) }
{
    let plan = ways.plan();
    plan.known();
    let Some(who) = plan.client(client) else {
        unreachable!();
    };
    let distance = ways.distance(reach, cell.number, client);
    let edges = edges_text(alloc, distance)?;
    let record = record_of(
        cell.text,
        who.name(),
        reach_word(reach).as_bytes(),
        yes_or_no(distance.is_some()).as_bytes(),
        edges.as_bytes(),
        yes_or_no(set_for(reach, cell.label).has(client)).as_bytes(),
    );
    write_fields(&record, writer)
}

/// How many edges, in decimal, and nothing where there is no way.
fn edges_text(alloc: Global, distance: Option<usize>) -> Result<String, Memory>
    ensures { IfOk result (λ text. string_bytes text ≡ spec.edges_text distance) }
{
    match distance {
        None => Ok(String::new(alloc)),
        Some(edges) => Ok(format!(in alloc; "{edges}")?),
    }
}

/// The word of a fact that holds or not.
fn yes_or_no(holds: bool) -> &'static str
    ensures { result.now ≡ spec.yes_or_no holds }
{
    if holds { "yes" } else { "no" }
}

/// The fields of a record.
fn record_of<'a>(
    cell: &'a [u8],
    client: &'a [u8],
    kind: &'a [u8],
    may: &'a [u8],
    edges: &'a [u8],
    allowed: &'a [u8],
) -> [&'a [u8]; 6]
    ensures { map (λ field. field.now) result
        ≡ cell.now ∷ client.now ∷ kind.now ∷ may.now ∷ edges.now ∷ allowed.now ∷ [] }
{
    [cell, client, kind, may, edges, allowed]
}

/// Writes a record of these fields. The error is that the write was refused.
fn write_fields<W: Write + Drop>(fields: &[&[u8]], writer: &mut Writer<W>) -> Result<(), Memory>
    requires { IsBetween writer.old }
    ensures { OnOk result (AreWritten W.contents writer.old writer.new (map (λ field. field.now) fields.now ∷ [])) }
{
    match writer.write_fields(fields) {
        Ok(()) => Ok(()),
        Err(_) => Err(Memory),
    }
}
