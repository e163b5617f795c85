//! The words for interface classes and their attributes.
ghost use Rattle.std.specs.Prelude.{◌≡◌};
ghost use Rattle.flow_map.specs.ClassWords as spec;

/// The name of an interface class that has cells or scripts; of any other no text (IEC 62056-6-2).
pub fn class_name(class_id: u16) -> &'static str
    ensures { result.now ≡ spec.class_name class_id }
{
    match class_id {
        1 => "Data",
        3 => "Register",
        7 => "Profile generic",
        8 => "Clock",
        9 => "Script table",
        21 => "Register monitor",
        22 => "Single action schedule",
        _ => "",
    }
}

/// The name of an attribute that is a cell, by its class and its index; of any other no text (IEC 62056-6-2). Index 0 of a register
/// monitor is what it has seen (own profile).
pub fn attribute_name(class_id: u16, index: u8) -> &'static str
    ensures { result.now ≡ spec.attribute_name class_id index }
{
    match class_id {
        1 | 3 => value_name(index),
        7 => profile_name(index),
        8 => time_name(index),
        21 => monitor_name(index),
        22 => schedule_name(index),
        _ => "",
    }
}

/// The name of an attribute of a data object or a register.
fn value_name(index: u8) -> &'static str
    ensures { result.now ≡ spec.value_name index }
{
    match index {
        2 => "value",
        _ => "",
    }
}

/// The name of an attribute of a profile.
fn profile_name(index: u8) -> &'static str
    ensures { result.now ≡ spec.profile_name index }
{
    match index {
        2 => "buffer",
        3 => "capture_objects",
        4 => "capture_period",
        7 => "entries_in_use",
        _ => "",
    }
}

/// The name of an attribute of a clock.
fn time_name(index: u8) -> &'static str
    ensures { result.now ≡ spec.time_name index }
{
    match index {
        2 => "time",
        _ => "",
    }
}

/// The name of an attribute of a register monitor.
fn monitor_name(index: u8) -> &'static str
    ensures { result.now ≡ spec.monitor_name index }
{
    match index {
        0 => "seen",
        2 => "thresholds",
        _ => "",
    }
}

/// The name of an attribute of a schedule.
fn schedule_name(index: u8) -> &'static str
    ensures { result.now ≡ spec.schedule_name index }
{
    match index {
        2 => "executed_script",
        4 => "execution_time",
        _ => "",
    }
}
