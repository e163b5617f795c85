//! How much a meter takes at most. Each limit is own profile.

/// The most clients of a meter: as many as a set of clients has places for.
pub const CLIENTS: usize = 16;

/// The most objects of a meter.
pub const OBJECTS: usize = 512;

/// The most characters of a client's name.
pub const NAME_CHARACTERS: usize = 16;

/// The most bytes that a value in a cell or in a script may take when encoded, its tag included.
pub const VALUE_BYTES: usize = 1024;

/// How deep a value in a cell or in a script is nested at most.
pub const VALUE_LEVELS: u8 = 14;

/// The most attributes that a profile captures (Profile generic, capture_objects).
pub const CAPTURE_OBJECTS: usize = 32;

/// The most alternatives in the menu of a profile's capture_objects or a schedule's executed_script, beside the configured one.
pub const MENU: usize = 8;

/// The most entries that a profile keeps (Profile generic, profile_entries).
pub const PROFILE_ENTRIES: u64 = 1000;

/// The most scripts of a script table (Script table, scripts).
pub const SCRIPTS: usize = 64;

/// The most actions of a script (Script table, actions).
pub const ACTIONS: usize = 32;

/// The most thresholds of a register monitor, and so the most of its actions (Register monitor, thresholds).
pub const THRESHOLDS: usize = 16;

/// The most elements of an execution time, of a type other than 1 (Single action schedule, execution_time).
pub const EXECUTION_TIMES: usize = 16;

/// The most seconds that one line lets pass.
pub const TICK_SECONDS: u16 = 3600;
