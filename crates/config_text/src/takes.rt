//! What the keys of a configuration take (own profile).
ghost use Rattle.std.specs.Prelude.{◌≡◌};
ghost use Rattle.config_text.specs.KeyTakes as spec;

/// A whole number, with the least and the greatest that a key takes.
#[derive(Clone, Copy, Debug, Drop)]
pub enum Number {
    Version,
    /// A service access point (IEC 62056-4-7, source wPort).
    Sap,
    /// An interface class (IEC 62056-6-2, class_id).
    Class,
    /// IEC 62056-6-2, Register, scaler_unit.
    Unit,
    /// In seconds (IEC 62056-6-2, Profile generic, capture_period).
    Period,
    /// IEC 62056-6-2, Profile generic, profile_entries. Whether there is room for so many is judged with the other limits.
    Entries,
    /// IEC 62056-6-2, Single action schedule, type.
    ScheduleType,
    /// IEC 62056-6-2, Script table, script_identifier.
    Script,
    /// 1 writes an attribute, 2 invokes a method (IEC 62056-6-2, Script table, service_id).
    Service,
    /// The index of an attribute or method.
    Index,
}

impl Number {
    /// The least and the greatest of these numbers.
    pub fn range(self) -> (u64, u64)
        ensures { result ≡ spec.range_of self }
    {
        match self {
            Number::Version | Number::Service => (1, 2),
            Number::Sap => (1, 127),
            Number::Class | Number::Script => (0, 65_535),
            Number::Unit => (0, 255),
            Number::Period => (0, 4_294_967_295),
            Number::Entries => (1, 9_223_372_036_854_775_807),
            Number::ScheduleType => (1, 5),
            Number::Index => (0, 127),
        }
    }
}

/// What a key takes.
#[derive(Clone, Copy, Debug, Drop)]
pub enum KeyTakes {
    Number(Number),
    /// The scaler of a register, -128 to 127.
    Scaler,
    /// A sort method, which is to be 1.
    SortMethod,
    /// The part of an attribute that is captured, which is to be 0, the whole of it.
    DataIndex,
    /// The identifier of a script, as others name it.
    Script,
    /// A list of indexes.
    Indexes,
    /// The name of an object or a client.
    Name,
    /// The name of a client, as others name it.
    ClientName,
    /// The name of an object, as others name it.
    LogicalName,
    Password,
    Flag,
    /// The hex text of a value.
    Hex,
    Moment,
    /// A list of hex texts.
    Hexes,
    /// A list of names of clients.
    ClientNames,
    Table,
    /// A list of tables.
    Tables,
    /// A list of lists of tables.
    Lists,
}
