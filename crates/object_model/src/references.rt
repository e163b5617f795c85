//! The objects to which parts refer, by their numbers: what a part names is looked for once, when its plan is made.
ghost use Rattle.std.specs.Prelude.{◌≡◌, ◌<◌, ℕ, length, map, option_and_then, slice_get, Some, IfOk, IfSome};
ghost use Rattle.cosem_data.specs.declared.name.LogicalName.{LogicalName as NameValue};
ghost use Rattle.meter_theory.specs.Lists.{IsIn};
ghost use Rattle.meter_theory.specs.Plan as theory;
ghost use Rattle.object_model.specs.Grants.{place_in};
ghost use Rattle.cosem_class.specs.Parts.{references};
ghost use Rattle.object_model.specs.Tables.{AreReferences};

use crate::index::Index;
use crate::object::Object;
use cosem_data::memory::Memory;
use cosem_data::name::LogicalName;
use std::alloc::Global;
use std::marker::Model;

/// For each object the numbers of those to which its part refers, in the part's order. Contracts see a list of lists.
#[derive(Drop)]
pub(crate) struct References {
    numbers: Vec<Vec<u16>>,
}

impl Model for References {
    ghost use Rattle.std.specs.Prelude.{List, map, ℕ};

    ghost Value = { List (List ℕ) };

    ghost view = { λ r. map (λ numbers. numbers.items) r.numbers.items };
}

impl References {
    /// Those of these objects, which refer to names of the index.
    pub(crate) fn new(
        alloc: Global,
        index: &Index,
        objects: &[Object],
    ) -> Result<References, Memory>
        requires { (o : theory.Object) → IsIn objects.now o → (name : NameValue) → IsIn (references o.part) name
            → (number : ℕ) × (place_in index.now name ≡ Some number) }
        ensures { IfOk result (λ numbers. AreReferences index.now objects.now numbers) }
    {
        let mut numbers = Vec::with_capacity(alloc, objects.len())?;
        let mut names = Vec::new(alloc);
        for object in objects {
            names.clear();
            object.part().push_references(&mut names)?;
            numbers.push(numbers_in(alloc, index, &names)?)?;
        }
        Ok(References { numbers })
    }

    /// The number of that to which the object with this number refers at this place.
    pub(crate) fn at(&self, object: u16, place: usize) -> Option<u16>
        ensures { result
            ≡ option_and_then (λ numbers. slice_get numbers place) (slice_get self.now object) }
    {
        self.numbers.get(usize::from(object))?.get(place).copied()
    }

    /// The numbers of all to which the object with this number refers.
    pub(crate) fn of(&self, object: u16) -> &[u16]
        requires { object < length self.now }
        ensures { slice_get self.now object ≡ Some result.now }
    {
        &self.numbers[usize::from(object)]
    }
}

/// The numbers of these names. A name that follows itself, as the table of a monitor's scripts does, is looked for once.
fn numbers_in(alloc: Global, index: &Index, names: &[LogicalName]) -> Result<Vec<u16>, Memory>
    requires { (name : NameValue) → IsIn names.now name
        → (number : ℕ) × (place_in index.now name ≡ Some number) }
    ensures { IfOk result (λ numbers. map Some numbers.items ≡ map (place_in index.now) names.now) }
{
    let mut numbers = Vec::with_capacity(alloc, names.len())?;
    let mut before = None;
    for name in names {
        let number = number_of(index, name, before);
        before = Some((*name, number));
        numbers.push(number)?;
    }
    Ok(numbers)
}

/// The number of a name that the index has, which is looked for unless it is the name before, whose number is given.
fn number_of(index: &Index, name: &LogicalName, before: Option<(LogicalName, u16)>) -> u16
    requires known { (number : ℕ) × (place_in index.now name.now ≡ Some number) }
    requires before { IfSome before (λ b. place_in index.now b.0 ≡ Some b.1) }
    ensures { Some result ≡ place_in index.now name.now }
{
    if let Some((same, number)) = before
        && same == *name
    {
        return number;
    }
    let (found, _) = index.find(name);
    let Some(number) = found else {
        unreachable!();
    };
    number
}
