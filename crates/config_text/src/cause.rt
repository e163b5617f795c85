//! What is wrong at a place of a configuration, with what was met there (own profile).
ghost use Rattle.std.specs.Prelude.{◌≡◌};
ghost use Rattle.config_text.specs.Causes as spec;

use crate::takes::KeyTakes;
use cosem_data::kind::Kind;
use std::marker::Model;

/// Where the reader of a text that is no TOML stopped, with what it says. Contracts don't look at it.
#[derive(Debug, Drop)]
pub struct TomlStop {
    pub error: toml::de::Error,
}

impl Model for TomlStop {
    ghost use Rattle.std.specs.Prelude.{⊤};

    ghost Value = { ⊤ };

    ghost view = { λ stop. tt };
}

/// A key that is meant where another stands. Contracts see its text.
#[derive(Debug, Drop)]
pub struct NearKey {
    pub key: String,
}

impl Model for NearKey {
    ghost use Rattle.std.specs.Prelude.{string_bytes};
    ghost use Rattle.config_text.specs.Parts.{Text};

    ghost Value = { Text };

    ghost view = { λ near. string_bytes near.key };
}

/// What an index is used for.
#[derive(Clone, Copy, Debug, Drop)]
pub enum Use {
    /// A right on an attribute.
    Attribute,
    /// A right on a method, or an action that invokes one.
    Method,
    /// A right to set an attribute, or an action that writes it.
    Settable,
    /// A capture.
    Capturable,
    /// What a register monitor watches.
    Monitorable,
}

/// What a value has to be that a script writes, beside of the kind.
#[derive(Clone, Copy, Debug, Drop)]
pub enum Rule {
    /// One of the alternatives of the object's menu.
    Menu,
    /// A moment (IEC 62056-6-2, Clock, time).
    Moment,
    /// As many thresholds as actions, of the kind of what is monitored (IEC 62056-6-2, Register monitor, thresholds).
    Thresholds,
    /// Times that the schedule's type allows (IEC 62056-6-2, Single action schedule, execution_time).
    Times,
}

/// Of what there is more than a meter has room for.
#[derive(Clone, Copy, Debug, Drop)]
pub enum Limit {
    Clients,
    Objects,
    Captures,
    Entries,
    /// The alternatives of a menu, of which there is one at least.
    Alternatives,
    Scripts,
    Actions,
    /// The actions of a register monitor.
    MonitorActions,
    /// The bytes of a value, or how deep it nests.
    Value,
    Thresholds,
    Times,
}

/// What is wrong (own profile). Each cause has a code, C1 to C22, which is looked for in the whole text before the next.
#[derive(Debug, Drop)]
pub enum Cause {
    /// C1: the text is no TOML; its reader stopped here.
    NotToml(TomlStop),
    /// C2: a key is missing.
    KeyMissing,
    /// C2: the table has no such key. The first that is near it of those that the table has in any version, if there is one:
    /// where that is the key itself, only texts of a later version have it.
    KeyUnknown(Option<NearKey>),
    /// C3: what stands at a key isn't what the key takes.
    Kind(KeyTakes),
    /// C4: the text is no logical name.
    LogicalForm,
    /// C4: no client may have the name in a text of this version.
    ClientForm(u8),
    /// C5: an object before it has the name.
    ObjectTwice,
    /// C5: it is the name of the current association.
    Association,
    /// C6: the interface class isn't known in a text of this version.
    ClassUnknown(u8),
    /// C7: no client has the name. Two clients have one name or service access point (C8), which may be why, or not.
    ClientUnknown(bool),
    /// C8: a client before it has the name.
    ClientTwice,
    /// C8: a client before it has the service access point.
    SapTwice,
    /// C9: no object has the name.
    NoObject,
    /// C9: no script table has the name.
    NoScriptTable,
    /// C9: the script table has no script with the identifier. A script has the identifier 0 or that of another (C14), which may
    /// be why, or not.
    NoScript(bool),
    /// C10: the class doesn't have the index, or it isn't usable so.
    Index(Use, u16),
    /// C11: the text isn't the hex text of one value of this kind; of any kind where none is asked.
    Value(Option<Kind>),
    /// C11: the value is of the kind that is asked there, and breaks this rule of the attribute.
    Rule(Rule),
    /// C11: the text is no moment.
    Moment,
    /// C11: the text isn't the hex text of an execution time.
    ExecutionTime,
    /// C11: what a register monitor watches starts with no number.
    NoNumber,
    /// C12: the index isn't that of a settable cell of the class.
    NotSettable(u16),
    /// C13: thresholds and actions differ in number.
    Counts,
    /// C14: a script has the identifier 0.
    ScriptZero,
    /// C14: a script before it in the table has the identifier.
    ScriptTwice,
    /// C15: an action executes a script table.
    Execute,
    /// C16: there is more than a limit allows.
    Limit(Limit),
    /// C17: the index isn't that of a cell of the class.
    NoCell(u16),
    /// C17: a label before it is on the cell.
    LabelTwice,
    /// C18: the class has no value that can be fed.
    Fed,
    /// C19: the schedule's type doesn't allow the execution times.
    Times(u8),
    /// C20: the sort method isn't 1, fifo.
    SortMethod,
    /// C20: a part of an attribute is captured.
    DataIndex,
    /// C21: an object before it is a clock.
    SecondClock,
    /// C22: the alternative is what is configured, or stands before in its menu.
    AlternativeTwice,
}

impl Cause {
    /// The number of its code, 1 to 22.
    pub fn code(&self) -> u8
        ensures { result ≡ spec.code_of self.now }
    {
        match self {
            Cause::NotToml(_) => 1,
            Cause::KeyMissing | Cause::KeyUnknown(_) => 2,
            Cause::Kind(_) => 3,
            Cause::LogicalForm | Cause::ClientForm(_) => 4,
            Cause::ObjectTwice | Cause::Association => 5,
            Cause::ClassUnknown(_) => 6,
            Cause::ClientUnknown(_) => 7,
            Cause::ClientTwice | Cause::SapTwice => 8,
            Cause::NoObject | Cause::NoScriptTable | Cause::NoScript(_) => 9,
            Cause::Index(..) => 10,
            Cause::Value(_)
            | Cause::Rule(_)
            | Cause::Moment
            | Cause::ExecutionTime
            | Cause::NoNumber => 11,
            Cause::NotSettable(_) => 12,
            Cause::Counts => 13,
            Cause::ScriptZero | Cause::ScriptTwice => 14,
            Cause::Execute => 15,
            Cause::Limit(_) => 16,
            Cause::NoCell(_) | Cause::LabelTwice => 17,
            Cause::Fed => 18,
            Cause::Times(_) => 19,
            Cause::SortMethod | Cause::DataIndex => 20,
            Cause::SecondClock => 21,
            Cause::AlternativeTwice => 22,
        }
    }
}
