//! The one table of the interface classes whose objects a meter may have, and of their attributes that can change. Whatever
//! asks for a class by its number reads it here, and goes on with the [`Class`].
ghost use Rattle.std.specs.Prelude.{◌≡◌, ◌||◌, ◌&&◌, ℕ, true, Some, is_some};
ghost use Rattle.cosem_data.specs.declared.name.LogicalName.{LogicalName};
ghost use Rattle.meter_theory.specs.Plan.{Plan, Part, class_of, interface_of, part_has_menu, rule_in};
ghost use Rattle.meter_theory.specs.Sound.{highest_method};
ghost use Rattle.meter_theory.specs.Classes as spec;

/// The interface classes whose objects a meter may have (IEC 62056-6-2, interface classes).
#[derive(Clone, Copy, Debug, PartialEq, Eq, Drop)]
pub enum Class {
    Data,
    Register,
    ProfileGeneric,
    Clock,
    ScriptTable,
    RegisterMonitor,
    SingleActionSchedule,
}

/// What the table says of an interface class.
#[derive(Clone, Copy, Debug, Drop)]
pub struct ClassRow {
    pub class: Class,
    pub class_id: u16,
    pub version: u8,
    /// Its highest attribute.
    pub attributes: u8,
    /// Its highest method.
    pub methods: u8,
    /// The highest method that a right may grant and a script may call: none of a clock's (own profile).
    pub granted_methods: u8,
    /// The least version of the configuration files that may have objects of it (own profile).
    pub since: u8,
}

/// An attribute that can change, and what may name it (own profile).
#[derive(Clone, Copy, Debug, Drop)]
pub struct CellRow {
    pub class_id: u16,
    pub index: u8,
    /// A request or a script may set it.
    pub is_settable: bool,
    /// A profile may capture it.
    pub is_capturable: bool,
    /// Inputs from outside may go to it.
    pub is_fed: bool,
    /// A register monitor may monitor it.
    pub is_monitorable: bool,
    /// No request and no text names it.
    pub is_inner: bool,
}

/// An attribute that can be set, and so can change, where its object has a menu; nothing else may name it (own profile).
#[derive(Clone, Copy, Debug, Drop)]
pub(crate) struct ChoiceRow {
    pub class_id: u16,
    pub index: u8,
}

/// A row for each class, by their numbers.
pub const CLASSES: [ClassRow; 7] = [
    ClassRow {
        class: Class::Data,
        class_id: 1,
        version: 0,
        attributes: 2,
        methods: 0,
        granted_methods: 0,
        since: 1,
    },
    ClassRow {
        class: Class::Register,
        class_id: 3,
        version: 0,
        attributes: 3,
        methods: 1,
        granted_methods: 1,
        since: 1,
    },
    ClassRow {
        class: Class::ProfileGeneric,
        class_id: 7,
        version: 1,
        attributes: 8,
        methods: 2,
        granted_methods: 2,
        since: 1,
    },
    ClassRow {
        class: Class::Clock,
        class_id: 8,
        version: 0,
        attributes: 9,
        methods: 6,
        granted_methods: 0,
        since: 2,
    },
    ClassRow {
        class: Class::ScriptTable,
        class_id: 9,
        version: 0,
        attributes: 2,
        methods: 1,
        granted_methods: 1,
        since: 1,
    },
    ClassRow {
        class: Class::RegisterMonitor,
        class_id: 21,
        version: 0,
        attributes: 4,
        methods: 0,
        granted_methods: 0,
        since: 1,
    },
    ClassRow {
        class: Class::SingleActionSchedule,
        class_id: 22,
        version: 0,
        attributes: 4,
        methods: 0,
        granted_methods: 0,
        since: 1,
    },
];

/// The values of Data and of a register; the buffer, capture period and entries in use of a profile; the time of a clock; the
/// thresholds and the last seen value of a register monitor; the execution times of a schedule.
pub const CELLS: [CellRow; 9] = [
    CellRow {
        class_id: 1,
        index: 2,
        is_settable: true,
        is_capturable: true,
        is_fed: true,
        is_monitorable: true,
        is_inner: false,
    },
    CellRow {
        class_id: 3,
        index: 2,
        is_settable: true,
        is_capturable: true,
        is_fed: true,
        is_monitorable: true,
        is_inner: false,
    },
    CellRow {
        class_id: 7,
        index: 2,
        is_settable: false,
        is_capturable: false,
        is_fed: false,
        is_monitorable: false,
        is_inner: false,
    },
    CellRow {
        class_id: 7,
        index: 4,
        is_settable: true,
        is_capturable: true,
        is_fed: false,
        is_monitorable: false,
        is_inner: false,
    },
    CellRow {
        class_id: 7,
        index: 7,
        is_settable: false,
        is_capturable: true,
        is_fed: false,
        is_monitorable: false,
        is_inner: false,
    },
    CellRow {
        class_id: 8,
        index: 2,
        is_settable: true,
        is_capturable: true,
        is_fed: false,
        is_monitorable: false,
        is_inner: false,
    },
    CellRow {
        class_id: 21,
        index: 2,
        is_settable: true,
        is_capturable: true,
        is_fed: false,
        is_monitorable: false,
        is_inner: false,
    },
    CellRow {
        class_id: 21,
        index: 0,
        is_settable: false,
        is_capturable: false,
        is_fed: false,
        is_monitorable: false,
        is_inner: true,
    },
    CellRow {
        class_id: 22,
        index: 4,
        is_settable: true,
        is_capturable: true,
        is_fed: false,
        is_monitorable: false,
        is_inner: false,
    },
];

/// A row for each attribute that is a cell where its object has a menu: capture_objects of a profile, and executed_script of a
/// single action schedule.
pub(crate) const CHOICES: [ChoiceRow; 2] = [
    ChoiceRow {
        class_id: 7,
        index: 3,
    },
    ChoiceRow {
        class_id: 22,
        index: 2,
    },
];

impl CellRow {
    /// Whether this is the row of the attribute.
    fn is_of(&self, class_id: u16, index: u8) -> bool
        ensures { result ≡ spec.is_of self.now class_id index }
    {
        class_id == self.class_id && index == self.index
    }
}

impl Class {
    /// The class with this number, if a configuration of this version may have objects of it.
    pub fn in_version(version: u8, class_id: u16) -> Option<Class>
        ensures { result ≡ spec.class_in version class_id }
    {
        let row = CLASSES
            .iter()
            .find(|row| class_id == row.class_id && row.since <= version)?;
        Some(row.class)
    }
}

/// Whether this is the number of the class.
pub fn is_of_class(class_id: u16, class: Class) -> bool
    ensures { result ≡ spec.is_of_class class_id class }
{
    CLASSES
        .iter()
        .any(|row| row.class == class && class_id == row.class_id)
}

/// Whether a configuration of this version may have objects of the class.
pub fn is_known(version: u8, class_id: u16) -> bool
    ensures { result ≡ spec.is_known version class_id }
{
    CLASSES
        .iter()
        .any(|row| class_id == row.class_id && row.since <= version)
}

/// Whether the class has the attribute.
pub fn has_attribute(class_id: u16, index: u8) -> bool
    ensures { result ≡ spec.has_attribute class_id index }
{
    CLASSES.iter().any(|row| class_id == row.class_id && 1 <= index && index <= row.attributes)
}

/// Whether the class has the method, and it may be granted.
pub fn has_method(class_id: u16, index: u8) -> bool
    ensures { result ≡ spec.has_method class_id index }
{
    CLASSES.iter().any(|row| class_id == row.class_id && 1 <= index && index <= row.granted_methods)
}

/// Whether the attribute can change.
pub fn is_cell(class_id: u16, index: u8) -> bool
    ensures { result ≡ spec.is_cell class_id index }
{
    CELLS
        .iter()
        .any(|row| !row.is_inner && row.is_of(class_id, index))
}

/// Whether the attribute can be set where its object has a menu.
pub fn is_choice(class_id: u16, index: u8) -> bool
    ensures { result ≡ spec.is_choice class_id index }
{
    CHOICES
        .iter()
        .any(|row| class_id == row.class_id && index == row.index)
}

/// Whether a request or a script may set the attribute.
pub fn is_settable(class_id: u16, index: u8) -> bool
    ensures { result ≡ spec.is_settable class_id index }
{
    CELLS
        .iter()
        .any(|row| row.is_settable && row.is_of(class_id, index))
}

/// Whether a profile may capture the attribute.
pub fn is_capturable(class_id: u16, index: u8) -> bool
    ensures { result ≡ spec.is_capturable class_id index }
{
    CELLS
        .iter()
        .any(|row| row.is_capturable && row.is_of(class_id, index))
}

/// Whether a register monitor may monitor the attribute.
pub fn is_monitorable(class_id: u16, index: u8) -> bool
    ensures { result ≡ spec.is_monitorable class_id index }
{
    CELLS
        .iter()
        .any(|row| row.is_monitorable && row.is_of(class_id, index))
}

/// Whether inputs from outside may go to an object of the class.
pub fn may_be_fed(class_id: u16) -> bool
    ensures { result ≡ spec.may_be_fed class_id }
{
    CELLS
        .iter()
        .any(|row| row.is_fed && class_id == row.class_id)
}

/// The table says of the class of each part what plans say of the part: which class it is, its interface, its attributes, the
/// methods that may be granted, its cells, and what may be set.
pub fn parts_are_as_in_the_table()
    ensures classes { (part : Part) → spec.is_of_class (class_of part) (spec.class_at part) ≡ true }
    ensures interfaces { (part : Part) → spec.interface_with (class_of part) ≡ Some (interface_of part) }
    ensures attributes { (part : Part) (index : ℕ) →
        spec.has_attribute (class_of part) index ≡ spec.is_up_to (interface_of part).attributes index }
    ensures methods { (part : Part) (index : ℕ) →
        spec.has_method (class_of part) index ≡ spec.is_up_to (highest_method part) index }
    ensures cells { (name : LogicalName) (part : Part) (index : ℕ) →
        (spec.is_cell (class_of part) index || (part_has_menu part && spec.is_choice (class_of part) index))
        ≡ spec.starts_at name part index }
    ensures settable { (P : Plan) (part : Part) (index : ℕ) →
        (spec.is_settable (class_of part) index || (part_has_menu part && spec.is_choice (class_of part) index))
        ≡ is_some (rule_in P part index) }
{}
