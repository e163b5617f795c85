//! Writing labels as a text.
ghost use Rattle.std.specs.Prelude.{◌≡◌, ◌++◌, ◌∷◌, [], cond, IfOk, OnOk};
ghost use Rattle.label_certificate.specs.LabelLine.{line_text, names_text};
ghost use Rattle.label_certificate.specs.LabelText.{label_line, text_of_labels};
ghost use Rattle.label_certificate.specs.Members.{names_in_set};

use crate::labels::Labels;
use cosem_data::cell::CellRef;
use cosem_data::clients::ClientSet;
use cosem_data::memory::Memory;
use meter_theory::flow::Label;
use object_model::plan::Plan;
use std::alloc::Global;
use value_text::cell::push_cell;

/// The text of labels of a plan, in the form that `read_labels` reads: a line a cell, in the order of the labels.
pub fn write_labels(alloc: Global, plan: &Plan, labels: &Labels) -> Result<Vec<u8>, Memory>
    ensures { IfOk result (λ text. text.items ≡ text_of_labels plan.now labels.now) }
{
    let mut text = Vec::new(alloc);
    for (cell, label) in labels.entries() {
        push_line(alloc, plan, cell, label, &mut text)?;
    }
    Ok(text)
}

/// Puts the line of a cell and its label behind a text. The error is that memory was refused; the text may then end with a
/// part of the line.
fn push_line(
    alloc: Global,
    plan: &Plan,
    cell: &CellRef,
    label: &Label,
    text: &mut Vec<u8>,
) -> Result<(), Memory>
    ensures { OnOk result (text.new.items
        ≡ text.old.items ++ (line_text (label_line plan.now (cell.now, label.now)) ++ 10 ∷ [])) }
{
    push_cell(alloc, cell, text)?;
    text.extend_from_slice(b" influence=")?;
    push_names(plan, label.influence, text)?;
    text.extend_from_slice(b" learn=")?;
    push_names(plan, label.learn, text)?;
    text.push(b'\n')?;
    Ok(())
}

/// Puts the names of a set's clients behind a text, joined by commas in plan order, or `-` where it has none. The error is
/// that memory was refused; the text may then end with some of the names.
fn push_names(plan: &Plan, set: ClientSet, text: &mut Vec<u8>) -> Result<(), Memory>
    ensures { OnOk result (text.new.items ≡ text.old.items ++ names_text (names_in_set plan.now set)) }
{
    plan.known();
    let mut place = 0;
    let mut some = false;
    while let Some(client) = plan.client(place) {
        if set.has(place) {
            push_name(some, client.name(), text)?;
            some = true;
        }
        place += 1;
    }
    if !some {
        text.push(b'-')?;
    }
    Ok(())
}

/// Puts a name behind a text, after a comma where names stand before it. The error is that memory was refused; the text may
/// then end with the comma.
fn push_name(behind: bool, name: &[u8], text: &mut Vec<u8>) -> Result<(), Memory>
    ensures { OnOk result (text.new.items ≡ text.old.items ++ cond behind (44 ∷ name.now) name.now) }
{
    if behind {
        text.push(b',')?;
    }
    text.extend_from_slice(name)?;
    Ok(())
}
