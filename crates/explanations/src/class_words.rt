//! The numbers of interface classes, and of their indexes, in words, from the table of the classes (own profile).

use config_text::cause::Use;
use cosem_data::memory::Memory;
use meter_theory::classes::{
    CLASSES, ClassRow, has_attribute, has_method, is_capturable, is_cell, is_monitorable,
    is_settable,
};
use std::alloc::Global;

/// The highest index that there is.
const HIGHEST: u8 = 127;

/// The numbers of those classes that pass a test, as `1, 3 and 7`. The error is that memory was refused.
pub(crate) fn classes_told<F: Fn(&ClassRow) -> bool>(
    alloc: Global,
    is_told: F,
) -> Result<String, Memory>
    requires { F.IsAlwaysCallable is_told }
{
    let mut numbers = Vec::new(alloc);
    for row in &CLASSES {
        if is_told(row) {
            numbers.push(row.class_id)?;
        }
    }
    listed(alloc, &numbers)
}

/// Numbers as a list, as `1, 3 and 7`. The error is that memory was refused.
fn listed(alloc: Global, numbers: &[u16]) -> Result<String, Memory> {
    let mut words = String::new(alloc);
    let mut left = numbers.len();
    for number in numbers {
        words.push_str(format!(in alloc; "{number}")?.as_str())?;
        left = left.saturating_sub(1);
        match left {
            0 => {}
            1 => words.push_str(" and ")?,
            _ => words.push_str(", ")?,
        }
    }
    Ok(words)
}

/// Whether an index of a class serves so.
fn serves(wanted: Use, class: u16, index: u8) -> bool {
    match wanted {
        Use::Attribute => has_attribute(class, index),
        Use::Method => has_method(class, index),
        Use::Settable => is_settable(class, index),
        Use::Capturable => is_capturable(class, index),
        Use::Monitorable => is_monitorable(class, index),
    }
}

/// The indexes of a class that pass a test, as `1, 2 and 3`; nothing where there are none. The error is that memory was refused.
fn indexes_told<F: Fn(u8) -> bool>(alloc: Global, is_told: F) -> Result<String, Memory>
    requires { F.IsAlwaysCallable is_told }
{
    let mut indexes = Vec::new(alloc);
    for index in 1..=HIGHEST {
        if is_told(index) {
            indexes.push(u16::from(index))?;
        }
    }
    listed(alloc, &indexes)
}

/// The indexes of a class that serve so. The error is that memory was refused.
pub(crate) fn serving(alloc: Global, wanted: Use, class: u16) -> Result<String, Memory> {
    indexes_told(alloc, |index| serves(wanted, class, index))
}

/// The indexes of the cells of a class. The error is that memory was refused.
pub(crate) fn cells_of(alloc: Global, class: u16) -> Result<String, Memory> {
    indexes_told(alloc, |index| is_cell(class, index))
}
