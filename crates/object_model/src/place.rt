//! Where the cells of a plan's objects stand.
ghost use Rattle.std.specs.Prelude.{◌≡◌, ◌==◌, ◌<◌, ◌≤◌, ◌+◌, ◌^◌, length, cond, IfOk};
ghost use Rattle.meter_theory.specs.declared.limits.TheConstants.{OBJECTS};
ghost use Rattle.object_model.specs.Tables.{ArePlaces};

use crate::object::Object;
use cosem_data::memory::Memory;
use std::alloc::Global;

/// Where an object has its cells.
#[derive(Clone, Copy)]
pub(crate) struct Place {
    /// Its number among the objects that have cells, from 0.
    pub(crate) owner: u16,
    /// The number of its first cell among all cells in plan order, from 0.
    pub(crate) first_cell: u16,
}

impl Place {
    /// The place of the next object, behind one with so many cells.
    fn behind(self, cells: u16) -> Place
        requires owners { self.owner + 1 < 2 ^ 16 }
        requires cells { self.first_cell + cells < 2 ^ 16 }
        ensures owner { result.owner ≡ self.owner + cond (cells == 0) 0 1 }
        ensures first_cell { result.first_cell ≡ self.first_cell + cells }
    {
        Place {
            owner: if cells == 0 {
                self.owner
            } else {
                self.owner + 1
            },
            first_cell: self.first_cell + cells,
        }
    }
}

/// The places of objects, of which there are at most `OBJECTS`.
pub(crate) fn places_of(alloc: Global, objects: &[Object]) -> Result<Vec<Place>, Memory>
    requires { length objects.now ≤ OBJECTS }
    ensures { IfOk result (λ places. ArePlaces objects.now places.items) }
{
    let mut places = Vec::with_capacity(alloc, objects.len())?;
    let mut next = Place {
        owner: 0,
        first_cell: 0,
    };
    for object in objects {
        places.push(next)?;
        next = next.behind(object.part().number_of_cells());
    }
    Ok(places)
}
