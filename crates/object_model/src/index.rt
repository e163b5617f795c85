//! Names, of which each is found by binary search.
ghost use Rattle.std.specs.Prelude.{◌≡◌, ◌<◌, ◌≤◌, ◌+◌, ◌^◌, ℕ, length, IfOk, MatchResult, IfErr};
ghost use Rattle.std.specs.List.{AllByRecursion, position_from};
ghost use Rattle.std.specs.declared.cmp.Ordering.TheVariants.{Less, Equal, Greater};
ghost use Rattle.cosem_data.specs.Cells.{same_name};
ghost use Rattle.object_model.specs.Index.{entry, order, worth, IsIndexOf, IsSixBytes, IsSorted};

use cosem_data::memory::Memory;
use cosem_data::name::LogicalName;
use std::alloc::Global;
use std::cmp::Ordering;
use std::marker::Model;

/// A list of names, below 2^16 of them, and their numbers sorted by name: a name is found by binary search. Contracts see the list.
#[derive(Drop)]
pub(crate) struct Index {
    names: Vec<LogicalName>,
    numbers: Vec<u16>,
}

impl Model for Index {
    ghost use Rattle.std.specs.Prelude.{List, length};
    ghost use Rattle.cosem_data.specs.declared.name.LogicalName.{LogicalName};
    ghost use Rattle.object_model.specs.Index.{IsIndexOf};

    ghost Value = { List LogicalName };

    ghost view = { λ i. i.names.items };

    ghost invariant = { λ i. IsIndexOf i.names.items i.numbers.items (length i.names.items) };
}

impl Index {
    /// An index of these names.
    pub(crate) fn new(alloc: Global, names: Vec<LogicalName>) -> Result<Index, Memory>
        requires { length names.items ≤ 2 ^ 16 }
        ensures { IfOk result (λ index. index ≡ names.items) }
    {
        let numbers = numbers_of(alloc, &names)?;
        Ok(Index { names, numbers })
    }

    /// The number of names.
    pub(crate) fn len(&self) -> usize
        ensures { result ≡ length self.now }
    {
        self.names.len()
    }

    /// A copy.
    pub(crate) fn try_clone(&self) -> Result<Index, Memory>
        ensures { IfOk result (λ index. index ≡ self.now) }
    {
        Ok(Index {
            names: self.names.clone()?,
            numbers: self.numbers.clone()?,
        })
    }

    /// The number of the first name that is this one, or None where there is none; and how many names were compared.
    pub(crate) fn find(&self, name: &LogicalName) -> (Option<u16>, u32)
        ensures found { result.0 ≡ position_from (λ n. same_name n name.now) 0 self.now }
        ensures counted { (k : ℕ) → length self.now < 2 ^ k → result.1 ≤ k }
        ensures begun { 1 ≤ length self.now → 1 ≤ result.1 }
    {
        let (place, compared) = search(&self.names, &self.numbers, name);
        match place {
            Ok(place) => (Some(self.numbers[place]), compared),
            Err(_) => (None, compared),
        }
    }
}

/// Bytes are below 256. It does nothing when it runs.
fn know_bytes(_bytes: &[u8])
    ensures { AllByRecursion (λ b. b < 256) _bytes.now }
{}

/// The bytes of a name as one number: two of these are compared at once, where bytes are compared one by one.
fn worth(name: &LogicalName) -> u64
    ensures number { result ≡ worth name.now }
    ensures bytes { IsSixBytes name.now }
{
    know_bytes(&name.0);
    let [a, b, c, d, e, f] = name.0;
    u64::from_be_bytes([0, 0, a, b, c, d, e, f])
}

/// Where the number of a name stands, or else where it would have to; and how many names were compared.
fn search(names: &[LogicalName], numbers: &[u16], name: &LogicalName) -> (Result<usize, usize>, u32)
    requires { IsSorted names.now numbers.now }
    ensures found { IfOk result.0 (λ i. (i < length numbers.now)
        × (order (entry names.now numbers.now i) name.now ≡ Equal)) }
    ensures absent { IfErr result.0 (λ i. (i ≤ length numbers.now)
        × ((j : ℕ) → j < i → order (entry names.now numbers.now j) name.now ≡ Less)
        × ((j : ℕ) → i ≤ j → j < length numbers.now → order (entry names.now numbers.now j) name.now ≡ Greater)) }
    ensures counted { (k : ℕ) → length numbers.now < 2 ^ k → result.1 ≤ k }
    ensures begun { 1 ≤ length numbers.now → 1 ≤ result.1 }
    // What isn't found has been looked for until no number was left.
    ensures all { IfErr result.0 (λ i. length numbers.now + 1 < 2 ^ (result.1 + 1)) }
{
    let sought = worth(name);
    let mut low = 0;
    let mut high = numbers.len();
    let mut compared: u32 = 0;
    while low < high {
        let middle = low + (high - low) / 2;
        compared += 1;
        match worth(&names[usize::from(numbers[middle])]).cmp(&sought) {
            Ordering::Less => low = middle + 1,
            Ordering::Greater => high = middle,
            Ordering::Equal => return (Ok(middle), compared),
        }
    }
    (Err(low), compared)
}

/// The numbers of names, sorted by name; of equal names the first one's.
fn numbers_of(alloc: Global, names: &[LogicalName]) -> Result<Vec<u16>, Memory>
    requires { length names.now ≤ 2 ^ 16 }
    ensures { IfOk result (λ numbers. IsIndexOf names.now numbers.items (length names.now)) }
{
    let mut numbers = Vec::new(alloc);
    for number in 0..names.len() {
        let (place, _) = search(names, &numbers, &names[number]);
        match place {
            Ok(_) => {}
            Err(place) => numbers.insert(place, number as u16)?,
        }
    }
    Ok(numbers)
}
