//! The objects of a plan.
ghost use Rattle.std.specs.Prelude.{◌≡◌};
ghost use Rattle.object_model.specs.PartView.{part_of};

use crate::part::Part;
use cosem_data::name::LogicalName;
use std::marker::Model;

/// An object of a plan: its logical name, whether inputs from outside go to its value, and what is fixed of it
/// (IEC 62056-6-2, COSEM interface objects; fed is own profile).
#[derive(Drop)]
pub struct Object {
    name: LogicalName,
    fed: bool,
    part: Part,
}

impl Model for Object {
    ghost use Rattle.meter_theory.specs.Plan as theory;
    ghost use Rattle.meter_theory.specs.PlanCode.{object_code};

    ghost Value = { theory.Object };

    ghost coded = { object_code };

    ghost use Rattle.object_model.specs.PartView.{part_of};

    ghost view = { λ o. record { name = o.name; fed = o.fed; part = part_of o.part } };
}

impl Object {
    /// An object with this name and part. Inputs from outside go to the value of a fed one.
    pub fn new(name: LogicalName, fed: bool, part: Part) -> Self
        ensures { result ≡ record { name = name; fed = fed; part = part_of part } }
    {
        Object { name, fed, part }
    }

    /// Its logical name, attribute 1 (IEC 62056-6-2).
    pub fn name(&self) -> LogicalName
        ensures { result ≡ self.now.name }
    {
        self.name
    }

    /// Whether inputs from outside go to its value (own profile).
    pub fn is_fed(&self) -> bool
        ensures { result ≡ self.now.fed }
    {
        self.fed
    }

    /// What is fixed of it, and the start values of its cells.
    pub fn part(&self) -> &Part
        ensures { part_of result.now ≡ self.now.part }
    {
        &self.part
    }
}
