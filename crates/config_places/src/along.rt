//! How far keys lead along wanted steps.

use crate::spot::Step;

/// Into the last element of the array of tables to which so many of the wanted steps lead, where they lead to one: it has as many
/// elements as `counts` says there.
pub(crate) fn into_last(wanted: &[Step], counts: &[usize], met: usize) -> Option<usize> {
    let count = counts.get(met).copied().unwrap_or(0);
    if count == 0 {
        return Some(met);
    }
    match wanted.get(met)? {
        Step::Element(index) if *index == count - 1 => Some(met + 1),
        _ => None,
    }
}

/// One key further.
fn into_key(wanted: &[Step], counts: &[usize], met: usize, key: &str) -> Option<usize> {
    let met = into_last(wanted, counts, met)?;
    match wanted.get(met)? {
        Step::Key(next) if next.as_str() == key => Some(met + 1),
        _ => None,
    }
}

/// How many of the wanted steps lead along keys from where so many lead, and whether they lead along all of them.
pub(crate) fn along(
    wanted: &[Step],
    counts: &[usize],
    from: usize,
    keys: &[String],
) -> (usize, bool) {
    let mut met = from;
    for key in keys {
        match into_key(wanted, counts, met, key.as_str()) {
            Some(next) => met = next,
            None => return (met, false),
        }
    }
    (met, true)
}
