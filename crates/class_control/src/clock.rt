ghost use Rattle.std.specs.Prelude.{◌≡◌, ℕ, is_some, true, false, ⊤, length, IfOk, IfSome, Some};
ghost use Rattle.cosem_data.specs.View.{tree};
ghost use Rattle.meter_theory.specs.Times as theory;
ghost use Rattle.meter_theory.specs.Times.{clock_bytes, clock_moment, clock_value, octets_of};
ghost use Rattle.meter_theory.specs.Value.{ClockTime, meets, valid_tag};
ghost use Rattle.cosem_class.specs.CellSets.{has};
ghost use Rattle.cosem_class.specs.Judged.{judged, rule_answer};
ghost use Rattle.class_control.specs.ClockClass.{ClockFixed, IsJudged, clock_cells, clock_reading, clock_refusal, clock_new_value, clock_touched, ClockMeetsRule};
ghost use Rattle.class_control.specs.ClockLaws.{clock_depends_only_on_sources, clock_writes_its_value, clock_keeps_rules};

use crate::matching::byte_at;
use crate::parts::ClockPart;
use crate::shapes::no_date_time;
use crate::times::{day_of, is_at_most, month_of, octets_of, year_of};
use civil_moment::moment::Moment;
use cosem_class::cell_set::CellSet;
use cosem_class::class::{ClassFault, InterfaceClass, Lent, Op, Row};
use cosem_class::generic::put_into;
use cosem_class::judge::keeps_limits;
use cosem_class::part::ClassPart;
use cosem_data::bytes::Bytes;
use cosem_data::data::Data;
use cosem_data::kind::Kind;
use cosem_data::memory::Memory;
use cosem_data::name::LogicalName;
use meter_theory::access::AccessCode;
use meter_theory::refs::Interface;
use std::alloc::Global;
use std::mem;

/// The cells of an object of class 8, Clock: the moment at which it stands (IEC 62056-6-2, Clock, version 0). What is beside the
/// moment in attribute 2, time, is always the same or follows from it (own profile).
#[derive(Drop)]
pub struct Clock {
    /// Attribute 2, time, the one cell.
    pub time: Moment,
}

/// The indexes of the cells.
static CELLS: [u8; 1] = [Clock::TIME];

impl Clock {
    /// Class 8, Clock, version 0, with nine attributes and six methods (IEC 62056-6-2), of which none is offered (own profile).
    pub const INTERFACE: Interface = Interface {
        class_id: 8,
        version: 0,
        attributes: 9,
        methods: 6,
    };

    /// The index of the time.
    pub const TIME: u8 = 2;

    /// Whether there is a cell at this index: the time.
    pub fn has(&self, index: u8) -> bool
        ensures { result ≡ is_some (clock_cells (clock_value self.now.time) index) }
    {
        index == Clock::TIME
    }

    /// The moment in its cell.
    pub fn held(&self) -> Moment
        ensures { result ≡ self.now.time }
    {
        self.time
    }

    /// Puts a time that may stand there. The previous moment is returned. It takes no memory.
    pub fn put(&mut self, lent: Lent<ClockPart>, index: u8, given: Data) -> Moment
        requires index { index ≡ 2 }
        requires fits { meets ClockTime (tree given) ≡ true }
        ensures time { self.new.time ≡ clock_moment (tree given) }
        ensures previous { result ≡ self.old.time }
    {
        let previous = self.time;
        let _same = put_into(self, lent, index, given);
        previous
    }

    /// Puts the previous moment back.
    pub fn undo(&mut self, held: Moment)
        ensures { self.new.time ≡ held }
    {
        self.time = held;
    }

    /// Goes on by a second; at the last moment it stays.
    pub fn tick(&mut self)
        ensures { self.new.time ≡ theory.next_second self.old.time }
    {
        self.time = self.time.next_second();
    }
}

/// The bytes of the time of a clock that stands at the moment (IEC 62056-6-2, Clock, time): the true weekday, hundredths 0, no
/// deviation specified and status 0 (own profile).
pub fn time_bytes(moment: Moment) -> [u8; 12]
    ensures { result ≡ clock_bytes moment }
{
    let year = moment.year;
    [
        (year / 256) as u8,
        (year % 256) as u8,
        moment.month,
        moment.day,
        moment.weekday(),
        moment.hour,
        moment.minute,
        moment.second,
        0,
        0x80,
        0,
        0,
    ]
}

/// The time of a clock that stands at the moment.
pub fn time_data(alloc: Global, moment: Moment) -> Result<Data, Memory>
    ensures { IfOk result (λ value. tree value ≡ clock_value moment) }
{
    Ok(Data::OctetString(Bytes::new(Vec::from_slice(alloc, &time_bytes(moment))?)))
}

/// The same in the room of another time.
fn time_in(value: Data, moment: Moment) -> Data
    requires tag { valid_tag ClockTime (tree value) ≡ true }
    requires size { length (octets_of (tree value)) ≡ 12 }
    ensures { tree result ≡ clock_value moment }
{
    match value {
        Data::OctetString(bytes) => {
            let mut room = bytes.into_vec();
            room.copy_from_slice(&time_bytes(moment));
            Data::OctetString(Bytes::new(room))
        }
        other => other,
    }
}

/// The moment that the bytes of a time say, if the calendar has it.
fn moment_in(bytes: &[u8]) -> Option<Moment>
    ensures found { IfSome result (λ m. theory.IsMoment m × (m ≡ theory.moment_of_bytes bytes.now)) }
    ensures exact { theory.IsMoment (theory.moment_of_bytes bytes.now)
        → result ≡ Some (theory.moment_of_bytes bytes.now) }
{
    Moment::of(
        year_of(bytes),
        month_of(bytes),
        day_of(bytes),
        byte_at(bytes, 5),
        byte_at(bytes, 6),
        byte_at(bytes, 7),
    )
}

/// The moment to which a value sets a clock: twelve bytes of a date of the years 2000 to 9999 that the calendar has and of a
/// time of day, with hundredths up to 99 or not specified. Weekday, deviation and status may be anything (own profile). Another
/// tag than that of an octet-string is `Kind`, anything else `Rule`.
pub fn judge_time(value: &Data) -> Result<Moment, ClassFault>
    ensures { IsJudged (tree value.now) result }
{
    if value.kind() != Kind::OctetString {
        return Err(ClassFault::Kind);
    }
    if !keeps_limits(value) {
        return Err(ClassFault::Rule);
    }
    let bytes = octets_of(value);
    if bytes.len() != 12 || !is_at_most(99, byte_at(bytes, 8)) {
        return Err(ClassFault::Rule);
    }
    match moment_in(bytes) {
        Some(moment) => Ok(moment),
        None => Err(ClassFault::Rule),
    }
}

/// The same as `judge_time`, with the code of the fault.
fn clock_answer(value: &Data) -> Result<(), AccessCode>
    ensures { result ≡ rule_answer (Some ClockTime) (tree value.now) }
{
    match judge_time(value) {
        Ok(_) => Ok(()),
        Err(fault) => Err(AccessCode::from(fault)),
    }
}

impl ClassPart for ClockPart {
    ghost use Rattle.class_control.specs.PartView.{clock_part_of};

    ghost part = { clock_part_of };

    fn interface(&self) -> Interface {
        Clock::INTERFACE
    }

    fn cells(&self) -> &'static [u8] {
        &CELLS
    }

    fn start_kind(&self, index: u8) -> Kind {
        match index {
            Clock::TIME => Kind::OctetString,
            _ => Kind::NullData,
        }
    }

    /// 3 to 9, of a clock whose time zone says nothing and that knows no daylight saving (IEC 62056-6-2, Clock; own profile).
    #[tactic(auto, unfolding(meter_theory::specs::Fixed::fixed_in))]
    fn fixed(&self, alloc: Global, index: u8) -> Result<Data, Memory> {
        match index {
            3 => Ok(Data::Long(0)),
            4 => Ok(Data::Unsigned(0)),
            5 | 6 => no_date_time(alloc),
            7 => Ok(Data::Integer(0)),
            8 => Ok(Data::Boolean(false)),
            9 => Ok(Data::Enumerated(0)),
            _ => Ok(Data::NullData),
        }
    }

    fn judge(&self, _monitored: Kind, index: u8, value: &Data) -> Result<(), AccessCode> {
        match index {
            Clock::TIME => clock_answer(value),
            _ => Err(AccessCode::TypeUnmatched),
        }
    }

    fn push_references(&self, _names: &mut Vec<LogicalName>) -> Result<(), Memory> {
        Ok(())
    }
}

impl<'a> InterfaceClass<Lent<'a, ClockPart>> for Clock {
    const CLASS_ID: u16 = Clock::INTERFACE.class_id;

    const VERSION: u8 = Clock::INTERFACE.version;

    const ATTRIBUTES: u8 = Clock::INTERFACE.attributes;

    const METHODS: u8 = Clock::INTERFACE.methods;

    ghost Fixed = { ClockFixed };

    ghost fixed = { λ _ lent. record { name = lent.name } };

    ghost cells = { λ s. clock_cells (clock_value s.time) };

    ghost reading = { clock_reading };

    ghost refusal = { clock_refusal };

    ghost new_value = { clock_new_value };

    ghost kept = { λ value. clock_value (clock_moment value) };

    ghost MeetsRule = { ClockMeetsRule };

    ghost IsRow = { λ _ _ _. ⊤ };

    ghost touched = { clock_touched };

    ghost own_sources = { λ _ _ _. false };

    ghost row_cells = { λ _ _. false };

    ghost depends_only_on_sources = { clock_depends_only_on_sources };

    ghost writes_its_value = { clock_writes_its_value };

    ghost keeps_rules = { clock_keeps_rules };

    fn read(&self, alloc: Global, lent: Lent<ClockPart>, index: u8) -> Result<Data, ClassFault> {
        match index {
            1 => Ok(lent.name.as_octets(alloc)?),
            Clock::TIME => Ok(time_data(alloc, self.time)?),
            3 => Ok(Data::Long(0)),
            4 => Ok(Data::Unsigned(0)),
            5 | 6 => Ok(no_date_time(alloc)?),
            7 => Ok(Data::Integer(0)),
            8 => Ok(Data::Boolean(false)),
            9 => Ok(Data::Enumerated(0)),
            _ => Err(ClassFault::NoIndex),
        }
    }

    fn write(
        &mut self,
        _lent: Lent<ClockPart>,
        index: u8,
        value: Data,
    ) -> Result<Data, ClassFault> {
        match index {
            Clock::TIME => {
                let moment = judge_time(&value)?;
                let before = mem::replace(&mut self.time, moment);
                Ok(time_in(value, before))
            }
            1 | 3..=9 => Err(ClassFault::NotSettable),
            _ => Err(ClassFault::NoIndex),
        }
    }

    fn invoke(
        &mut self,
        _alloc: Global,
        _lent: Lent<ClockPart>,
        _method: u8,
        _argument: &Data,
        _row: Row,
    ) -> Result<(), ClassFault> {
        Err(ClassFault::NoIndex)
    }

    fn touched(op: Op) -> CellSet
        ensures { (i : ℕ) → has result i ≡ clock_touched op i }
    {
        match op {
            Op::Write(Clock::TIME) => CellSet::empty().with(Clock::TIME),
            _ => CellSet::empty(),
        }
    }

    fn own_sources(_op: Op, _cell: u8) -> CellSet
        ensures { (i : ℕ) → has result i ≡ false }
    {
        CellSet::empty()
    }

    fn row_cells(_op: Op) -> CellSet
        ensures { (i : ℕ) → has result i ≡ false }
    {
        CellSet::empty()
    }
}
