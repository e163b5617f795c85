//! Items that are alike, put together.
ghost use Rattle.std.specs.Prelude.{◌≡◌, IfOk, length};
ghost use Rattle.std.specs.List.{list_any, filter, range_with_len};
ghost use Rattle.flow_map.specs.Grouping as spec;
ghost use Rattle.flow_map.specs.Grouping.{numbers_of, same_at};

use crate::pushing::push_if;
use cosem_data::memory::Memory;
use std::alloc::Global;

/// The numbers of these keys, those of equal keys together: groups in the order of their first numbers, and the numbers of each
/// in their order. The only error is want of memory.
pub fn grouped<K: PartialEq>(alloc: Global, keys: &[K]) -> Result<Vec<Vec<usize>>, Memory>
    ensures { IfOk result (λ groups. numbers_of groups.items
        ≡ spec.groups (same_at K.eq keys.now) (range_with_len 0 (length keys.now))) }
{
    let firsts = first_numbers(alloc, keys)?;
    let mut groups = Vec::with_capacity(alloc, firsts.len())?;
    for first in &firsts {
        groups.push(equal_numbers(alloc, keys, *first)?)?;
    }
    Ok(groups)
}

/// The numbers of the keys that equal none before them.
fn first_numbers<K: PartialEq>(alloc: Global, keys: &[K]) -> Result<Vec<usize>, Memory>
    ensures { IfOk result (λ firsts. firsts.items ≡ spec.firsts (same_at K.eq keys.now) (range_with_len 0 (length keys.now))) }
{
    let mut firsts = Vec::new(alloc);
    for number in 0..keys.len() {
        let is_first = !has_equal(keys, &firsts, number);
        push_if(is_first, number, &mut firsts)?;
    }
    Ok(firsts)
}

/// Whether the key with this number equals one of those with the other numbers.
fn has_equal<K: PartialEq>(keys: &[K], others: &[usize], number: usize) -> bool
    ensures { result ≡ list_any (λ other. same_at K.eq keys.now other number) others.now }
{
    others.iter().any(|other| are_equal(keys, *other, number))
}

/// The numbers of the keys that equal the one with this number.
fn equal_numbers<K: PartialEq>(
    alloc: Global,
    keys: &[K],
    first: usize,
) -> Result<Vec<usize>, Memory>
    ensures { IfOk result (λ numbers. numbers.items ≡ filter (same_at K.eq keys.now first) (range_with_len 0 (length keys.now))) }
{
    let mut numbers = Vec::new(alloc);
    for number in 0..keys.len() {
        let is_equal = are_equal(keys, first, number);
        push_if(is_equal, number, &mut numbers)?;
    }
    Ok(numbers)
}

/// Whether there are keys with these numbers, and they are equal.
fn are_equal<K: PartialEq>(keys: &[K], number: usize, other: usize) -> bool
    ensures { result ≡ same_at K.eq keys.now number other }
{
    match (keys.get(number), keys.get(other)) {
        (Some(key), Some(other)) => *key == *other,
        _ => false,
    }
}
