//! The objects of a configuration, and the rights on them.
use cosem_data::name::LogicalName;

/// An object, or objects of one class on which each client has the same rights.
#[derive(Drop)]
pub struct ObjectRow {
    /// Their logical names, of which there is at least one.
    pub names: Vec<LogicalName>,
    /// The class.
    pub class_id: u16,
    /// Whether inputs from outside go to them.
    pub is_fed: bool,
    /// What each client may do with them.
    pub held: Vec<Held>,
}

/// What a client may do with an object.
#[derive(PartialEq, Eq, Drop)]
pub struct Held {
    /// Whether it sees the object.
    pub sees: bool,
    /// The attributes that it may get.
    pub gets: Vec<u8>,
    /// The attributes that it may set.
    pub sets: Vec<u8>,
    /// The methods that it may call.
    pub acts: Vec<u8>,
}
