use civil_moment::moment::Moment;
use class_control::clock::time_data;
use class_profile::held::ProfileHeld;
use class_profile::rows::Rows;
use cosem_data::data::Data;
use cosem_data::memory::Memory;
use std::alloc::Global;

/// The value of a cell, where it stands.
#[derive(Clone, Copy)]
pub enum Held<'a> {
    /// Any value.
    Value(&'a Data),
    /// A double-long-unsigned.
    Number(u32),
    /// The entries of a profile, an array.
    Rows(&'a Rows),
    /// The time of a clock.
    Time(Moment),
}

impl<'a> Held<'a> {
    ghost use Rattle.std.specs.Prelude.{◌≡◌, is_some, IfOk, IfSome};
    ghost use Rattle.cosem_data.specs.View.{tree};
    ghost use Rattle.meter_theory.specs.Value.{count_of};
    ghost use Rattle.object_model.specs.Stored.{held_tree, is_value};

    /// The number that it is as a double-long-unsigned, and 0 for any other value.
    pub fn count(&self) -> u32
        ensures { result ≡ count_of (held_tree self.now) }
    {
        match self {
            Held::Number(number) | Held::Value(Data::DoubleLongUnsigned(number)) => *number,
            _ => 0,
        }
    }

    /// The value, if it is held as one.
    pub fn value(&self) -> Option<&'a Data>
        ensures is_value { is_some result ≡ is_value self.now }
        ensures value { IfSome result (λ value. tree value.now ≡ held_tree self.now) }
    {
        match self {
            Held::Value(value) => Some(value),
            _ => None,
        }
    }

    /// A copy of the value.
    pub fn to_data(&self, alloc: Global) -> Result<Data, Memory>
        ensures { IfOk result (λ value. tree value ≡ held_tree self.now) }
    {
        match self {
            Held::Value(value) => value.try_clone(alloc),
            Held::Number(number) => Ok(Data::DoubleLongUnsigned(*number)),
            Held::Rows(rows) => rows.to_data(alloc),
            Held::Time(moment) => time_data(alloc, *moment),
        }
    }
}

impl<'a> From<ProfileHeld<'a>> for Held<'a> {
    ghost use Rattle.std.specs.Prelude.{◌≡◌};
    ghost use Rattle.object_model.specs.Stored.{held_of_profile};

    ghost from_gives = { λ lent held. held ≡ held_of_profile lent };

    fn from(lent: ProfileHeld<'a>) -> Held<'a> {
        match lent {
            ProfileHeld::Value(value) => Held::Value(value),
            ProfileHeld::Number(number) => Held::Number(number),
            ProfileHeld::Rows(rows) => Held::Rows(rows),
        }
    }
}
