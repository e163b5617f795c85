//! The keys of the tables of a configuration (own profile), each of which stands here alone.

pub const VERSION: &str = "version";

pub const CLIENT: &str = "client";

pub const OBJECT: &str = "object";

pub const RIGHT: &str = "right";

pub const POLICY: &str = "policy";

pub const LABEL: &str = "label";

pub const NAME: &str = "name";

pub const SAP: &str = "sap";

pub const PASSWORD: &str = "password";

pub const CLASS: &str = "class";

pub const FED: &str = "fed";

pub const VALUE: &str = "value";

pub const DEFAULT: &str = "default";

pub const SCALER: &str = "scaler";

pub const UNIT: &str = "unit";

pub const CAPTURE: &str = "capture";

pub const PERIOD: &str = "period";

pub const ENTRIES: &str = "entries";

pub const SORT_METHOD: &str = "sort_method";

pub const CAPTURE_MENU: &str = "capture_menu";

pub const INDEX: &str = "index";

pub const DATA_INDEX: &str = "data_index";

pub const TIME: &str = "time";

pub const SCRIPT: &str = "script";

pub const ID: &str = "id";

pub const ACTION: &str = "action";

pub const SERVICE: &str = "service";

pub const MONITORED: &str = "monitored";

pub const THRESHOLDS: &str = "thresholds";

pub const UP: &str = "up";

pub const DOWN: &str = "down";

pub const TYPE: &str = "type";

pub const TIMES: &str = "times";

pub const SCRIPT_MENU: &str = "script_menu";

pub const TABLE: &str = "table";

pub const GET: &str = "get";

pub const SET: &str = "set";

pub const ACT: &str = "act";

pub const INFLUENCE: &str = "influence";

pub const LEARN: &str = "learn";
