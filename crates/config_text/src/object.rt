//! An object's table.

ghost use Rattle.std.specs.Prelude.{◌≡◌, ◌≤◌, IfSome, option_and_then};
ghost use Rattle.toml.specs.View.{table_view};
ghost use Rattle.meter_theory.specs.Classes.{class_in};
ghost use Rattle.config_text.specs.BodyView.{body_text};
ghost use Rattle.config_text.specs.Reading.{Reads};
ghost use Rattle.config_text.specs.Objects as spec;

use crate::both::both;
use crate::clock::clock_of;
use crate::fault::TableFault;
use crate::known;
use crate::monitor::monitor_of;
use crate::parts::{BodyParts, ObjectParts};
use crate::place::Place;
use crate::profile::profile_of;
use crate::register::{data_of, register_of};
use crate::schedule::schedule_of;
use crate::script::script_table_of;
use crate::tables::TableForm;
use crate::takes::{KeyTakes, Number};
use crate::values::{flag_at, natural_at, natural_read, text_at};
use meter_theory::classes::Class;
use toml::Table;

/// The class with the number that is told, if one is and the class is known in this version.
fn class_told(version: u8, told: Option<u64>) -> Option<Class>
    requires { IfSome told (λ n. n ≤ 65535) }
    ensures { result ≡ option_and_then (class_in version) told }
{
    let class_id = told?;
    Class::in_version(version, class_id as u16)
}

/// Whether a text of this version may have menus.
fn has_menus(version: u8) -> bool
    ensures { result ≡ spec.has_menus version }
{
    version >= 2
}

/// Whether the object is fed. It isn't looked at where the class isn't known.
fn fed_of(class: Option<Class>, at: &Place<'_>, table: &Table) -> Result<bool, TableFault>
    ensures { Reads (λ b. b) result (spec.fed_of class at.now (table_view table.now)) }
{
    match class {
        Some(_) => flag_at(false, at, known::FED, table),
        None => Ok(false),
    }
}

/// What the table says of its class.
fn body_of(
    menus: bool,
    class: Option<Class>,
    at: &Place<'_>,
    table: &Table,
) -> Result<BodyParts, TableFault>
    ensures { Reads body_text result (spec.body_of menus class at.now (table_view table.now)) }
{
    match class {
        Some(Class::Data) => data_of(at, table),
        Some(Class::Register) => register_of(at, table),
        Some(Class::ProfileGeneric) => profile_of(menus, at, table),
        Some(Class::Clock) => clock_of(at, table),
        Some(Class::ScriptTable) => script_table_of(at, table),
        Some(Class::RegisterMonitor) => monitor_of(at, table),
        Some(Class::SingleActionSchedule) => schedule_of(menus, at, table),
        None => Ok(BodyParts::Unknown),
    }
}

/// `class`, `name`, perhaps `fed`, and what the class asks for: an object.
#[derive(Drop)]
pub(crate) struct ObjectTable {
    /// The version of the text, by which classes are known.
    pub version: u8,
}

impl TableForm for ObjectTable {
    ghost use Rattle.config_text.specs.Objects.{object_of};

    type Parts = ObjectParts;

    ghost says = { λ form. object_of form.version };

    #[tactic(auto, unfolding(crate::specs::Objects::object_of))]
    fn read(&self, at: &Place<'_>, table: &Table) -> Result<ObjectParts, TableFault> {
        let class_id = natural_at(Number::Class, at, known::CLASS, table);
        let name = text_at(KeyTakes::Name, at, known::NAME, table);
        let told = natural_read(&class_id)?;
        let class = class_told(self.version, told);
        let fed = fed_of(class, at, table);
        let body = body_of(has_menus(self.version), class, at, table);
        let (((class_id, name), fed), body) = both(both(both(class_id, name), fed), body)?;
        Ok(ObjectParts {
            class_id: class_id as u16,
            name,
            fed,
            body,
        })
    }
}
