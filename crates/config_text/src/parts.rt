//! What the tables of a configuration say (own profile), before names are looked up. Values are decoded, and not yet judged.
ghost use Rattle.std.specs.Prelude.{◌<◌};

use crate::hex_value::{HexBytes, HexValue};
use crate::service::Service;
use std::marker::Model;

/// A client of the meter.
#[derive(Debug, Drop)]
pub struct ClientParts {
    /// The name by which the configuration and step lines call it.
    pub name: String,
    /// Its service access point, 1 to 127 (IEC 62056-4-7, source wPort).
    pub sap: u8,
    /// Its password for low level security, 1 to 64 ASCII characters; a client without one has lowest level security.
    pub password: Option<String>,
}

impl Model for ClientParts {
    ghost use Rattle.std.specs.Prelude.{option_map, string_bytes};
    ghost use Rattle.config_text.specs.Parts.{ClientText};

    ghost Value = { ClientText };

    ghost view = { λ c. record {
      name = string_bytes c.name;
      sap = c.sap;
      password = option_map string_bytes c.password;
    } };
}

/// An attribute or method of an object.
#[derive(Debug, Drop)]
pub struct TargetParts {
    /// The logical name of the object.
    pub object: String,
    /// The index of the attribute or method, 0 to 127.
    pub index: u8,
    // An index is an integer of eight bits.
    pub ghost index_fits: { index < 128 },
}

impl Model for TargetParts {
    ghost use Rattle.std.specs.Prelude.{string_bytes};
    ghost use Rattle.config_text.specs.Parts.{TargetText};

    ghost Value = { TargetText };

    ghost view = { λ t. record { object = string_bytes t.object; index = t.index } };
}

/// An attribute that a profile captures (IEC 62056-6-2, Profile generic, capture_object_definition).
#[derive(Debug, Drop)]
pub struct CaptureParts {
    pub target: TargetParts,
    /// Which part of the attribute is captured; 0, the whole of it, if left out.
    pub data_index: Option<i64>,
}

impl Model for CaptureParts {
    ghost use Rattle.config_text.specs.Parts.{CaptureText};

    ghost Value = { CaptureText };

    ghost view = { λ c. record { target = c.target; data_index = c.data_index } };
}

/// An alternative of a profile's menu: the attributes that it captures (own profile).
#[derive(Debug, Drop)]
pub struct AlternativeParts {
    pub captures: Vec<CaptureParts>,
}

impl Model for AlternativeParts {
    ghost use Rattle.std.specs.Prelude.{List};
    ghost use Rattle.config_text.specs.Parts.{CaptureText};

    ghost Value = { List CaptureText };

    ghost view = { λ a. a.captures.items };
}

/// A script of a script table.
#[derive(Debug, Drop)]
pub struct ScriptRefParts {
    /// The logical name of the script table.
    pub table: String,
    /// The script's identifier; 0 is the script that does nothing.
    pub script: i64,
}

impl Model for ScriptRefParts {
    ghost use Rattle.std.specs.Prelude.{string_bytes};
    ghost use Rattle.config_text.specs.Parts.{ScriptRefText};

    ghost Value = { ScriptRefText };

    ghost view = { λ r. record { table = string_bytes r.table; script = r.script } };
}

/// An action of a script (IEC 62056-6-2, Script table, action_specification).
#[derive(Debug, Drop)]
pub struct ActionParts {
    pub service: Service,
    pub target: TargetParts,
    /// What is written, or the method's parameter.
    pub value: Option<HexValue>,
}

impl Model for ActionParts {
    ghost use Rattle.config_text.specs.Parts.{ActionText};

    ghost Value = { ActionText };

    ghost view = { λ a. record { service = a.service; target = a.target; value = a.value } };
}

/// A script (IEC 62056-6-2, Script table).
#[derive(Debug, Drop)]
pub struct ScriptParts {
    /// The script's identifier, 0 to 65535.
    pub id: u16,
    pub actions: Vec<ActionParts>,
}

impl Model for ScriptParts {
    ghost use Rattle.config_text.specs.Parts.{ScriptText};

    ghost Value = { ScriptText };

    ghost view = { λ s. record { id = s.id; actions = s.actions.items } };
}

/// The scripts of a threshold, run as the monitored value passes it upwards and downwards
/// (IEC 62056-6-2, Register monitor, actions).
#[derive(Debug, Drop)]
pub struct UpDownParts {
    pub up: ScriptRefParts,
    pub down: ScriptRefParts,
}

impl Model for UpDownParts {
    ghost use Rattle.config_text.specs.Parts.{UpDownText};

    ghost Value = { UpDownText };

    ghost view = { λ a. record { up = a.up; down = a.down } };
}

/// What an object's class says of it (IEC 62056-6-2, interface classes): a form for each class that is known.
#[derive(Debug, Drop)]
pub enum BodyParts {
    /// The start of its value.
    Data {
        value: HexValue,
    },
    /// The start of its value, what a reset puts, and its scaler and unit.
    Register {
        value: HexValue,
        default: HexValue,
        scaler: i8,
        unit: u8,
    },
    /// capture_period is in seconds, entries are at least 1; sort_method 1 is fifo.
    ProfileGeneric {
        capture: Vec<CaptureParts>,
        period: u32,
        entries: u64,
        sort_method: Option<i64>,
        /// The alternatives to what it captures.
        menu: Option<Vec<AlternativeParts>>,
    },
    /// The moment at which its time starts, as a text.
    Clock {
        time: String,
    },
    /// Its scripts, in the order of the text.
    ScriptTable {
        scripts: Vec<ScriptParts>,
    },
    /// What is monitored, its thresholds, and what is run at each.
    RegisterMonitor {
        monitored: TargetParts,
        thresholds: Vec<HexValue>,
        actions: Vec<UpDownParts>,
    },
    /// The type is 1 to 5, the times are of nine bytes.
    SingleActionSchedule {
        script: ScriptRefParts,
        kind: u8,
        times: Vec<HexBytes>,
        /// The alternatives to its script.
        menu: Option<Vec<ScriptRefParts>>,
    },
    /// Of a class that isn't known.
    Unknown,
}

/// An object of the meter.
#[derive(Debug, Drop)]
pub struct ObjectParts {
    /// Its interface class.
    pub class_id: u16,
    /// Its logical name.
    pub name: String,
    /// Whether inputs from outside go to its value.
    pub fed: bool,
    pub body: BodyParts,
}

impl Model for ObjectParts {
    ghost use Rattle.std.specs.Prelude.{string_bytes};
    ghost use Rattle.config_text.specs.Parts.{ObjectText};

    ghost Value = { ObjectText };

    ghost use Rattle.config_text.specs.BodyView.{body_text};

    ghost view = { λ o. record {
      class = o.class_id;
      name = string_bytes o.name;
      fed = o.fed;
      body = body_text o.body;
    } };
}

/// What a client may do with an object.
#[derive(Debug, Drop)]
pub struct RightParts {
    /// The client's name.
    pub client: String,
    /// The object's logical name.
    pub object: String,
    /// The attributes that it may read, each 0 to 127.
    pub gets: Vec<u8>,
    /// The attributes that it may set.
    pub sets: Vec<u8>,
    /// The methods that it may call.
    pub acts: Vec<u8>,
}

impl Model for RightParts {
    ghost use Rattle.std.specs.Prelude.{string_bytes};
    ghost use Rattle.config_text.specs.Parts.{RightText};

    ghost Value = { RightText };

    ghost view = { λ r. record {
      client = string_bytes r.client;
      object = string_bytes r.object;
      gets = r.gets.items;
      sets = r.sets.items;
      acts = r.acts.items;
    } };
}

/// Sets of clients, by their names.
#[derive(Debug, Drop)]
pub struct SetsParts {
    /// Who may influence.
    pub influence: Vec<String>,
    /// Who may learn.
    pub learn: Vec<String>,
}

impl Model for SetsParts {
    ghost use Rattle.std.specs.Prelude.{map, string_bytes};
    ghost use Rattle.config_text.specs.Parts.{SetsText};

    ghost Value = { SetsText };

    ghost view = { λ s. record {
      influence = map string_bytes s.influence.items;
      learn = map string_bytes s.learn.items;
    } };
}

/// The sets of one cell, in place of the policy's.
#[derive(Debug, Drop)]
pub struct LabelParts {
    pub target: TargetParts,
    pub sets: SetsParts,
}

impl Model for LabelParts {
    ghost use Rattle.config_text.specs.Parts.{LabelText};

    ghost Value = { LabelText };

    ghost view = { λ l. record { target = l.target; sets = l.sets } };
}

/// All that a configuration says.
#[derive(Debug, Drop)]
pub struct ConfigParts {
    /// 1 or 2: that of the file's form.
    pub version: u8,
    pub clients: Vec<ClientParts>,
    pub objects: Vec<ObjectParts>,
    pub rights: Vec<RightParts>,
    /// The sets of a cell without a label of its own.
    pub policy: SetsParts,
    pub labels: Vec<LabelParts>,
}

impl Model for ConfigParts {
    ghost use Rattle.config_text.specs.Parts.{ConfigText};

    ghost Value = { ConfigText };

    ghost view = { λ c. record {
      version = c.version;
      clients = c.clients.items;
      objects = c.objects.items;
      rights = c.rights.items;
      policy = c.policy;
      labels = c.labels.items;
    } };
}
