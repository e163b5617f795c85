//! What a profile holds, lent where it stands (IEC 62056-6-2, Profile generic).
ghost use Rattle.std.specs.Prelude.{◌≡◌, ◌==◌, true, Some};

use crate::profile::Profile;
use crate::rows::Rows;
use cosem_data::data::Data;

/// The value of a cell of a profile, where it stands.
#[derive(Clone, Copy)]
pub enum ProfileHeld<'a> {
    /// Capture_objects, any value.
    Value(&'a Data),
    /// Capture_period or entries_in_use, a double-long-unsigned.
    Number(u32),
    /// The entries of the buffer, an array.
    Rows(&'a Rows),
}

impl Profile {
    ghost use Rattle.class_profile.specs.ProfileView.{cells_shown, has_cell};
    ghost use Rattle.class_profile.specs.HeldView.{held_value, is_rows, is_value};

    /// Whether there is a cell at this index: at that of capture_objects where it can be set.
    pub fn has(&self, index: u8) -> bool
        ensures { result ≡ has_cell self.now index }
    {
        match index {
            Profile::BUFFER | Profile::CAPTURE_PERIOD | Profile::ENTRIES_IN_USE => true,
            Profile::CAPTURE_OBJECTS => self.capture_objects.is_some(),
            _ => false,
        }
    }

    /// The value in the cell at this index.
    pub fn held(&self, index: u8) -> ProfileHeld<'_>
        requires { has_cell self.now index ≡ true }
        ensures value { cells_shown self.now index ≡ Some (held_value result) }
        ensures rows { is_rows result ≡ (index == 2) }
        ensures objects { is_value result ≡ (index == 3) }
    {
        match (index, &self.capture_objects) {
            (Profile::BUFFER, _) => ProfileHeld::Rows(&self.buffer),
            (Profile::CAPTURE_OBJECTS, Some(objects)) => ProfileHeld::Value(objects),
            (Profile::CAPTURE_PERIOD, _) => ProfileHeld::Number(self.capture_period),
            _ => ProfileHeld::Number(self.entries_in_use),
        }
    }
}
