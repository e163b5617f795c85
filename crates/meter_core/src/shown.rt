//! A GET that is answered without a copy of what stands in the meter.
ghost use Rattle.std.specs.Prelude.{◌≡◌, true, is_some, option_map, IfOk, IsOk};
ghost use Rattle.meter_theory.specs.Replies as answers;
ghost use Rattle.meter_theory.specs.Replies.{reply_to, selected};
ghost use Rattle.meter_theory.specs.Steps as steps;
ghost use Rattle.meter_theory.specs.States.{IsState};
ghost use Rattle.meter_theory.specs.Value.{array_of};
ghost use Rattle.object_model.specs.Stored.{held_tree, is_rows};
ghost use Rattle.meter_core.specs.Memory.{needs_no_memory};
ghost use Rattle.meter_core.specs.StepView.{reply_of, selection_of, shown_of};

use crate::reply::Reply;
use association_views::association::fixed_attribute_at;
use association_views::permits::permit_get_at;
use association_views::selection::descriptor_in;
use class_control::clock::time_data;
use class_profile::entries::Entries;
use class_profile::rows::Rows;
use cosem_data::data::Data;
use cosem_data::memory::Memory;
use meter_theory::access::AccessCode;
use meter_theory::refs::Descriptor;
use object_model::argument::Argument;
use object_model::held::Held;
use object_model::meter::Meter;
use object_model::plan::Plan;
use std::alloc::Global;

/// What a GET is answered, where what stands in the meter is lent (IEC 62056-5-3, Get-Data-Result).
#[derive(Drop)]
pub enum Shown<'a> {
    /// The value of a cell.
    Value(&'a Data),
    /// The entries of a profile that were asked for.
    Entries(Entries<'a>),
    /// A value that was made for the answer: a number, or a fixed attribute.
    Made(Data),
    /// A result without a value.
    Code(AccessCode),
}

impl<'a> Shown<'a> {
    ghost use Rattle.std.specs.Prelude.{◌≡◌, false, IfOk, IsOk};
    ghost use Rattle.meter_core.specs.Copies.{shows_value};
    ghost use Rattle.meter_core.specs.StepView.{reply_of, shown_of};

    /// The answer as a reply that owns its value. The only error is that memory was refused; a result takes none.
    pub fn into_reply(self, alloc: Global) -> Result<Reply, Memory>
        ensures equal { IfOk result (λ reply. reply_of reply ≡ shown_of self.entry) }
        ensures bare { shows_value self.entry ≡ false → IsOk result }
    {
        Ok(match self {
            Shown::Value(value) => Reply::Value(value.try_clone(alloc)?),
            Shown::Entries(entries) => Reply::Value(entries.to_data(alloc)?),
            Shown::Made(value) => Reply::Value(value),
            Shown::Code(code) => Reply::Code(code),
        })
    }
}

/// The answer to a GET of the client at this place (IEC 62056-5-3): the value that the selection leaves, or why there is
/// none. Nothing that stands in the meter is copied. The only error is that memory was refused, for a fixed attribute or the
/// time of a clock; a request that the plan denies takes none.
pub fn show<'a>(
    alloc: Global,
    plan: &'a Plan,
    meter: &'a Meter,
    client: u8,
    attribute: &Descriptor,
    selection: &Option<(u8, Argument)>,
) -> Result<Shown<'a>, Memory>
    requires { IsState plan.now meter.now }
    ensures reply { IfOk result (λ shown. shown_of shown ≡ reply_to plan.now meter.now
        (steps.Get client attribute.now (selection_of selection.now))) }
    ensures denied { needs_no_memory plan.now meter.now
        (steps.Get client attribute.now (selection_of selection.now)) ≡ true → IsOk result }
{
    let instance = plan.instance(&attribute.name);
    if let Err(code) = permit_get_at(&instance, client, attribute, selection) {
        return Ok(Shown::Code(code));
    }
    let cell = attribute.attribute();
    match meter.held(&instance, &cell) {
        Some(held) => show_held(alloc, held, selection),
        None => Ok(Shown::Made(fixed_attribute_at(alloc, &instance, client, cell.index)?)),
    }
}

/// What a selection leaves of the value of a cell. Only a buffer takes one. The only error is that memory was refused, for the
/// time of a clock.
fn show_held<'a>(
    alloc: Global,
    held: Held<'a>,
    selection: &Option<(u8, Argument)>,
) -> Result<Shown<'a>, Memory>
    requires { is_some selection.now ≡ true → is_rows held ≡ true }
    ensures { IfOk result (λ shown. shown_of shown
        ≡ answers.Value (selected (selection_of selection.now) (held_tree held.entry))) }
{
    Ok(match held {
        Held::Value(value) => Shown::Value(value),
        Held::Number(number) => Shown::Made(Data::DoubleLongUnsigned(number)),
        Held::Time(moment) => Shown::Made(time_data(alloc, moment)?),
        Held::Rows(rows) => Shown::Entries(entries_of(rows, selection)),
    })
}

/// What a selection leaves of the entries of a profile.
fn entries_of<'a>(rows: &'a Rows, selection: &Option<(u8, Argument)>) -> Entries<'a>
    ensures { result ≡ selected (selection_of selection.now) (array_of rows.now) }
{
    let Some((_, parameter)) = selection else {
        return rows.all();
    };
    match descriptor_in(parameter) {
        Some(descriptor) => rows.selected(&descriptor),
        None => rows.all(),
    }
}
