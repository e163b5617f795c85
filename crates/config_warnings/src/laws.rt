//! Theorems about what is told: each function's clause is its statement, and its body is empty.
ghost use Rattle.std.specs.Prelude.{◌≡◌, ◌≤◌, true, false};
ghost use Rattle.cosem_data.specs.Tree.{Tree};
ghost use Rattle.meter_theory.specs.Times.{Moment, IsMoment, date_bytes, is_execution_time, is_wildcard, matches, year_of};
ghost use Rattle.config_warnings.specs.Dates.{names_no_date};

/// An execution time that is told to name no date names no moment, so no clock ever stands at one.
pub fn told_times_never_come()
    ensures { (time : Tree) → names_no_date time ≡ true →
        (t : Moment) → IsMoment t → matches time t ≡ false }
{}

/// An execution time whose date says a day, a month and a year from 2000 on names a moment, unless it is told.
pub fn other_dates_come()
    ensures { (time : Tree) → is_execution_time time ≡ true → is_wildcard time ≡ false →
        2000 ≤ year_of (date_bytes time) → names_no_date time ≡ false →
        (t : Moment) × IsMoment t × (matches time t ≡ true) }
{}
