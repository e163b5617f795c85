ghost use Rattle.std.specs.Prelude.{◌≡◌, true};
ghost use Rattle.std.specs.List.{list_all};
ghost use Rattle.class_control.specs.ActionView.{has_index};

use crate::action::Action;

/// A script of a table: actions that are run one after another (IEC 62056-6-2, Script table, script).
#[derive(Drop)]
pub struct Script {
    /// script_identifier, 1 and above: 0 is the null script, which does nothing.
    pub id: u16,
    /// The actions, in the order in which they are run.
    pub actions: Vec<Action>,
    // The index of each attribute and each method is at most 127, as an integer says it.
    pub ghost indexes_fit: { list_all has_index actions.items ≡ true },
}
