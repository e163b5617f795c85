//! The entries of a profile in a ring (IEC 62056-6-2, Profile generic, buffer; sort_method fifo).
ghost use Rattle.std.specs.Prelude.{◌≡◌, ◌≤◌, ◌==◌, ◌+◌, [], ◌∷◌, ◌++◌, map, length, option_map, slice_get, None, Some, IfOk, IsOk, OnOk, OnErr, if◌then◌else◌};
ghost use Rattle.cosem_data.specs.View.{tree};
ghost use Rattle.circular_buffer.specs.Buffer.{buffer};
ghost use Rattle.meter_theory.specs.Lists.{keep_last};
ghost use Rattle.meter_theory.specs.Value.{array_of};
ghost use Rattle.meter_theory.specs.Steps.{buffer_after};
ghost use Rattle.class_profile.specs.Reversal as reversal;
ghost use Rattle.class_profile.specs.RowsView.{rows_in, HasPlaces};

use circular_buffer::HeapCircularBuffer;
use cosem_data::data::Data;
use cosem_data::memory::Memory;
use std::alloc::Global;
use std::marker::Model;
use std::mem;

/// The entries of a profile, the oldest first, in a ring. Contracts see the list of their trees.
#[derive(Drop)]
pub struct Rows {
    ring: Option<HeapCircularBuffer<Data>>,
}

impl Model for Rows {
    ghost use Rattle.std.specs.Prelude.{List};
    ghost use Rattle.std.specs.Coded.{coded_list};
    ghost use Rattle.cosem_data.specs.Tree.{Tree};
    ghost use Rattle.cosem_data.specs.TreeCode.{tree_code};
    ghost use Rattle.class_profile.specs.RowsView.{rows_in};

    ghost Value = { List Tree };

    ghost coded = { coded_list tree_code };

    ghost view = { λ r. rows_in r.ring };
}

impl Rows {
    /// No entries, in a ring of so many places.
    pub fn new(alloc: Global, entries: u32) -> Result<Rows, Memory>
        ensures { IfOk result (λ rows. rows ≡ []) }
    {
        Ok(Rows {
            ring: Some(HeapCircularBuffer::with_capacity(alloc, entries as usize)?),
        })
    }

    /// No entries, and no ring yet.
    pub fn none() -> Rows
        ensures { result ≡ [] }
    {
        Rows { ring: None }
    }

    /// Puts a row behind the others, of which the oldest goes where there are `entries` already, and hands out the one that
    /// had to go. The only error is that memory was refused for a ring of so many places, and nothing has changed then.
    pub fn capture(
        &mut self,
        alloc: Global,
        entries: u32,
        row: Data,
    ) -> Result<Option<Data>, Memory>
        requires has_entries { 1 ≤ entries }
        requires fits { length self.old ≤ entries }
        ensures rows { OnOk result (array_of self.new
            ≡ buffer_after entries (array_of self.old) (tree row)) }
        ensures dropped { IfOk result (λ dropped. option_map tree dropped
            ≡ reversal.dropped entries (array_of self.old)) }
        ensures err { OnErr result (self.new ≡ self.old) }
        ensures full { length self.old ≡ entries → IsOk result }
    {
        give_places(alloc, &mut self.ring, entries as usize)?;
        match &mut self.ring {
            Some(ring) => Ok(push_last(ring, entries as usize, row)),
            None => unreachable!(),
        }
    }

    /// Takes back the capture after which the rows are these, given the row that had to go.
    pub fn take_back(&mut self, dropped: Option<Data>)
        ensures { self.new ≡ reversal.rows_before (option_map tree dropped) self.old }
    {
        if let Some(ring) = &mut self.ring {
            put_back(ring, dropped);
        }
    }

    /// Moves the rows out, with their ring.
    pub fn clear(&mut self) -> Rows
        ensures cleared { result ≡ self.old }
        ensures none { self.new ≡ [] }
    {
        mem::replace(self, Rows::none())
    }

    /// Takes over the ring of rows that were cleared, where there is none, so that no capture has to ask for one.
    pub(crate) fn reuse(&mut self, cleared: Rows)
        ensures { self.new ≡ self.old }
    {
        if self.ring.is_none() {
            self.ring = emptied(cleared.ring);
        }
    }

    /// How many rows there are.
    pub fn len(&self) -> usize
        ensures { result ≡ length self.now }
    {
        match &self.ring {
            Some(ring) => ring.len(),
            None => 0,
        }
    }

    /// The rows in two slices: the older ones, and those behind.
    pub fn slices(&self) -> (&[Data], &[Data])
        ensures { map tree result.0.now ++ map tree result.1.now ≡ self.now }
    {
        match &self.ring {
            Some(ring) => ring.as_slices(),
            None => (&[], &[]),
        }
    }

    /// A copy in a ring of as many places.
    pub fn try_clone(&self, alloc: Global) -> Result<Rows, Memory>
        ensures { IfOk result (λ copy. copy ≡ self.now) }
    {
        let Some(ring) = &self.ring else {
            return Ok(Rows::none());
        };
        Ok(Rows {
            ring: Some(copy_of_ring(alloc, ring)?),
        })
    }

    /// A copy of the rows as an array, as attribute 2, buffer, shows them.
    pub fn to_data(&self, alloc: Global) -> Result<Data, Memory>
        ensures { IfOk result (λ copy. tree copy ≡ array_of self.now) }
    {
        self.all().to_data(alloc)
    }
}

/// Sees that there is a ring of so many places or more, with the same rows. The only error is that memory was refused, which
/// a ring that has these places doesn't ask for; nothing has changed then.
fn give_places(
    alloc: Global,
    ring: &mut Option<HeapCircularBuffer<Data>>,
    places: usize,
) -> Result<(), Memory>
    requires has_places { 1 ≤ places }
    requires fits { length (rows_in ring.old) ≤ places }
    ensures ok { OnOk result (HasPlaces places ring.new) }
    ensures rows { rows_in ring.new ≡ rows_in ring.old }
    ensures err { OnErr result (ring.new ≡ ring.old) }
    ensures full { length (rows_in ring.old) ≡ places → IsOk result }
{
    match ring {
        Some(ring) => {
            if ring.capacity() < places {
                ring.resize(places)?;
            }
        }
        None => *ring = Some(HeapCircularBuffer::with_capacity(alloc, places)?),
    }
    Ok(())
}

/// Puts a row behind the others, of which the oldest goes and is handed out where there are `entries` already.
fn push_last(ring: &mut HeapCircularBuffer<Data>, entries: usize, row: Data) -> Option<Data>
    requires has_entries { 1 ≤ entries }
    requires fits { length ring.old.items ≤ entries }
    requires room { entries ≤ ring.old.capacity }
    ensures rows { ring.new ≡ buffer (keep_last entries (ring.old.items ++ row ∷ [])) ring.old.capacity }
    ensures dropped { result
        ≡ (if length ring.old.items == entries then slice_get ring.old.items 0 else None) }
{
    let oldest = if ring.len() == entries {
        ring.pop_front()
    } else {
        None
    };
    let _none = ring.push_back(row);
    oldest
}

/// The newest row goes, and the dropped one comes back in front.
fn put_back(ring: &mut HeapCircularBuffer<Data>, dropped: Option<Data>)
    ensures { rows_in (Some ring.new)
        ≡ reversal.rows_before (option_map tree dropped) (rows_in (Some ring.old)) }
{
    // The newest row makes room for the dropped one.
    if ring.len() == 0 {
        return;
    }
    let _newest = ring.pop_back();
    if let Some(oldest) = dropped {
        let _none = ring.push_front(oldest);
    }
}

/// The ring without its rows.
fn emptied(ring: Option<HeapCircularBuffer<Data>>) -> Option<HeapCircularBuffer<Data>>
    ensures { rows_in result ≡ [] }
{
    let mut ring = ring?;
    ring.clear();
    Some(ring)
}

/// A copy of a ring with as many places.
fn copy_of_ring(
    alloc: Global,
    ring: &HeapCircularBuffer<Data>,
) -> Result<HeapCircularBuffer<Data>, Memory>
    ensures { IfOk result (λ copy. rows_in (Some copy) ≡ rows_in (Some ring.now)) }
{
    let mut copy = HeapCircularBuffer::with_capacity(alloc, ring.capacity())?;
    let (older, newer) = ring.as_slices();
    put_copies(alloc, older, &mut copy)?;
    put_copies(alloc, newer, &mut copy)?;
    Ok(copy)
}

/// Puts copies of the rows behind those of a ring that has room for them.
fn put_copies(
    alloc: Global,
    rows: &[Data],
    ring: &mut HeapCircularBuffer<Data>,
) -> Result<(), Memory>
    requires { length ring.old.items + length rows.now ≤ ring.old.capacity }
    ensures rows { OnOk result (rows_in (Some ring.new) ≡ rows_in (Some ring.old) ++ map tree rows.now) }
    ensures places { OnOk result (ring.new.capacity ≡ ring.old.capacity) }
{
    for row in rows {
        let _none = ring.push_back(row.try_clone(alloc)?);
    }
    Ok(())
}
