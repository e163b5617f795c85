//! Reading a text of labels.
ghost use Rattle.std.specs.Prelude.{◌≡◌, ◌<◌, ◌&&◌, nat_le, IfOk, IfSome, option_map};
ghost use Rattle.meter_theory.specs.Plan as theory;
ghost use Rattle.meter_theory.specs.declared.limits.TheConstants.{CLIENTS};
ghost use Rattle.label_certificate.specs.Faults.{Gives};
ghost use Rattle.label_certificate.specs.LabelLine.{names_of};
ghost use Rattle.label_certificate.specs.LabelText as spec;
ghost use Rattle.label_certificate.specs.LabelText.{AreInPlanOrder, judged, labels_of_text};
ghost use Rattle.label_certificate.specs.LineView.{line_of};
ghost use Rattle.label_certificate.specs.Members.{places_of};
ghost use Rattle.label_certificate.specs.ReadingView.{set_of};

use crate::fault::{LabelCode, LabelFault};
use crate::labels::Labels;
use crate::line::{Line, first_name, first_part, line_in, names_left};
use cosem_data::cell::CellRef;
use cosem_data::clients::ClientSet;
use meter_theory::flow::Label;
use object_model::plan::Plan;
use std::alloc::Global;

/// What ends a line.
const NEWLINE: u8 = b'\n';

/// The labels that a text holds for a plan. It has one line a cell, in plan order, which a newline ends:
/// `CELL influence=NAMES learn=NAMES`. The cell is written `class_id/logical name/attribute`, with `seen` for what a register
/// monitor has seen; the names of clients are joined by commas, in plan order, and `-` stands for none. Cells may be left
/// out. It takes no memory beside that of the labels.
///
/// # Errors
/// The first line with a fault and the first of its faults, or that memory was refused.
pub fn read_labels(alloc: Global, plan: &Plan, text: &str) -> Result<Labels, LabelFault>
    ensures labels { Gives (λ labels. labels) result (labels_of_text plan.now text.now) }
    ensures order { IfOk result (λ labels. AreInPlanOrder plan.now labels) }
{
    read_lines(alloc, plan, text.as_bytes())
}

/// The labels that lines hold for a plan.
fn read_lines(alloc: Global, plan: &Plan, text: &[u8]) -> Result<Labels, LabelFault>
    ensures { Gives (λ labels. labels) result (labels_of_text plan.now text.now) }
{
    let mut entries = Vec::new(alloc);
    let (mut line, mut behind) = first_part(NEWLINE, text);
    let mut number = 1;
    let mut least = 0;
    while let Some(rest) = behind {
        match read_line(plan, least, line) {
            Ok((place, entry)) => {
                entries.push(entry)?;
                least = u32::from(place) + 1;
            }
            Err(code) => return Err(LabelFault::Line { code, line: number }),
        }
        number += 1;
        let (next, left) = first_part(NEWLINE, rest);
        line = next;
        behind = left;
    }
    if !line.is_empty() {
        return Err(LabelFault::Line {
            code: LabelCode::Form,
            line: number,
        });
    }
    plan.known();
    Ok(Labels::new(entries))
}

/// The place of a line's cell in plan order, which is to be the least place or above, the cell and its label.
fn read_line(plan: &Plan, least: u32, line: &[u8]) -> Result<(u16, (CellRef, Label)), LabelCode>
    ensures { result ≡ spec.read_line plan.now least line.now }
{
    match line_in(line) {
        Some(said) => judge(plan, least, &said),
        None => Err(LabelCode::Form),
    }
}

/// The same for a line that has the form.
#[tactic(auto, unfolding(crate::specs::LabelText::judged))]
fn judge(plan: &Plan, least: u32, line: &Line<'_>) -> Result<(u16, (CellRef, Label)), LabelCode>
    ensures { result ≡ judged plan.now least (line_of line.now) }
{
    let cell = cell_of(line);
    let Some(place) = place_of(plan, line, &cell) else {
        return Err(LabelCode::Cell);
    };
    let Some((influence, influence_rises)) = set_of_names(plan, line.influence) else {
        return Err(LabelCode::Client);
    };
    let Some((learn, learn_rises)) = set_of_names(plan, line.learn) else {
        return Err(LabelCode::Client);
    };
    if !(least <= u32::from(place) && influence_rises && learn_rises) {
        return Err(LabelCode::Order);
    }
    Ok((place, (cell, Label { influence, learn })))
}

/// The cell that a line names.
fn cell_of(line: &Line<'_>) -> CellRef
    ensures { result ≡ spec.cell_of (line_of line.now) }
{
    CellRef {
        class_id: line.class_id,
        name: line.name,
        index: line.attribute.unwrap_or(0),
    }
}

/// The place in plan order of the cell that a line names. The number 0 names no attribute.
fn place_of(plan: &Plan, line: &Line<'_>, cell: &CellRef) -> Option<u16>
    requires { cell.now ≡ spec.cell_of (line_of line.now) }
    ensures { result ≡ spec.place_of plan.now (line_of line.now) }
{
    match line.attribute {
        Some(0) => None,
        _ => plan.cell_number(cell),
    }
}

/// The clients that a text names, and whether they stand in plan order, each once; None where the plan lacks one.
fn set_of_names(plan: &Plan, text: &[u8]) -> Option<(ClientSet, bool)>
    ensures { result ≡ option_map set_of (places_of plan.now (names_of text.now)) }
{
    let mut left = names_left(text);
    let mut set = ClientSet::new();
    let mut rising = true;
    let mut least = 0;
    while let Some(names) = left {
        let (name, behind) = first_name(names);
        let place = client_named(plan, name)?;
        rising = rises_to(rising, least, place);
        least = place + 1;
        set = set.with(place);
        left = behind;
    }
    Some((set, rising))
}

/// Whether places rise that did so far, of which the next is to be the least place or above.
fn rises_to(rising: bool, least: u8, place: u8) -> bool
    ensures { result ≡ (rising && nat_le least place) }
{
    rising && least <= place
}

/// The place of the client with this name.
fn client_named(plan: &Plan, name: &[u8]) -> Option<u8>
    ensures named { result ≡ theory.client_named plan.now name.now }
    ensures few { IfSome result (λ place. place < CLIENTS) }
{
    plan.known();
    plan.client_named(name)
}
