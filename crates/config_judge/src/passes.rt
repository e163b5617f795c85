//! The passes over a configuration, one a code, each run only where those before it found nothing (own profile).

ghost use Rattle.config_text.specs.Refusals.{Finds};
ghost use Rattle.config_rules.specs.Passes.{found, known_references};
ghost use Rattle.config_judge.specs.JudgedNames.{found_in_names, found_in_rest};

use crate::clients::{known_clients, new_clients};
use crate::clocks::new_clocks;
use crate::counts::equal_counts;
use crate::directory::Directory;
use crate::fed::fed_values;
use crate::forms::forms;
use crate::indexes::known_indexes;
use crate::labels::new_labels;
use crate::laws::names_are_judged_first;
use crate::limits::within_limits;
use crate::menus::new_alternatives;
use crate::objects::{known_classes, new_objects};
use crate::references::known_references_by;
use crate::rights::settable_rights;
use crate::scripts::{new_scripts, no_executes};
use crate::sorting::valid_sorting;
use crate::times::valid_times;
use crate::values::valid_values;
use crate::walk::finds_any;
use config_text::fault::ConfigFault;
use std::alloc::Global;

/// Judges whether all that is referred to is there.
///
/// # Errors
/// C9 at each reference to no object, to a table that is no script table, or to a script that isn't there.
fn known_references(alloc: Global, directory: &Directory<'_>) -> Result<(), ConfigFault>
    ensures { Finds result (known_references directory.now.config.now) }
{
    let later = finds_any(new_scripts(alloc, directory.config))?;
    known_references_by(alloc, directory, later)
}

/// Judges whether the names and indexes of a configuration are of good form and lead to something (own profile).
///
/// # Errors
/// All faults with the least code that is met:
/// - C4 at each logical name and client's name of bad form;
/// - C5 at each name that an earlier object or the current association has;
/// - C6 at each interface class that isn't known in the configuration's version;
/// - C7 at each name that no client has;
/// - C8 at each name and service access point that an earlier client has;
/// - C9 at each reference to no object, to a table that is no script table, or to a script that isn't there;
/// - C10 at each index that the class doesn't have, or that isn't usable there;
/// - C0 where memory was refused, at any time.
#[tactic(auto, unfolding(crate::specs::JudgedNames::found_in_names))]
fn judge_names(alloc: Global, directory: &Directory<'_>) -> Result<(), ConfigFault>
    ensures { Finds result (found_in_names directory.now.config.now) }
{
    let config = directory.config;
    forms(alloc, config)?;
    new_objects(alloc, directory)?;
    known_classes(alloc, config)?;
    known_clients(alloc, directory)?;
    new_clients(alloc, config)?;
    known_references(alloc, directory)?;
    known_indexes(alloc, directory)
}

/// Judges values, rights, labels and sizes: the codes C11 to C22, one after another.
///
/// # Errors
/// All faults with the least of the codes that is met.
#[tactic(auto, unfolding(crate::specs::JudgedNames::found_in_rest))]
fn judge_values(alloc: Global, directory: &Directory<'_>) -> Result<(), ConfigFault>
    ensures { Finds result (found_in_rest directory.now.config.now) }
{
    let config = directory.config;
    valid_values(alloc, directory)?;
    settable_rights(alloc, directory)?;
    equal_counts(alloc, config)?;
    new_scripts(alloc, config)?;
    no_executes(alloc, directory)?;
    within_limits(alloc, config)?;
    new_labels(alloc, directory)?;
    fed_values(alloc, config)?;
    valid_times(alloc, config)?;
    valid_sorting(alloc, config)?;
    new_clocks(alloc, config)?;
    new_alternatives(alloc, config)
}

/// Judges what the tables of a configuration say.
///
/// # Errors
/// All faults with the least of the codes C4 to C22 that is met, in the order in which they are looked for; C0 where memory
/// was refused, at any time.
pub fn judge(alloc: Global, directory: &Directory<'_>) -> Result<(), ConfigFault>
    ensures { Finds result (found directory.now.config.now) }
{
    names_are_judged_first();
    judge_names(alloc, directory)?;
    judge_values(alloc, directory)
}
