//! Entries of a profile that are lent, so that they are shown without a copy (IEC 62056-6-2, Profile generic, buffer).
ghost use Rattle.std.specs.Prelude.{◌≡◌, ◌++◌, map, Some, IfOk, OnOk, OnErr};
ghost use Rattle.cosem_data.specs.Tree.{trees};
ghost use Rattle.cosem_data.specs.View.{tree};
ghost use Rattle.cosem_axdr.specs.Canonical.{canonical, all, HasLengths, HaveLengths, Extends};
ghost use Rattle.cosem_axdr.specs.Laws.{HasRanges, HaveRanges};
ghost use Rattle.meter_theory.specs.Selection.{entries_of};
ghost use Rattle.meter_theory.specs.Value.{array_of, structure_of};
ghost use Rattle.cosem_class.specs.Objects.{AnswersAs};
ghost use Rattle.class_profile.specs.SelectionView.{descriptor_view, selection_answer};
ghost use Rattle.class_profile.specs.EntriesView.{shown, entries_shown};

use crate::profile::Profile;
use crate::rows::Rows;
use crate::selection::{EntryDescriptor, between, end_of, parts_of, places_between, start_of};
use cosem_axdr::writing::{put_array_front, put_structure, write_data};
use cosem_class::class::ClassFault;
use cosem_data::data::{Data, Items};
use cosem_data::memory::Memory;
use std::alloc::Global;
use std::marker::Model;

/// Entries of a profile, or the columns of entries, which are lent. Contracts see the array of them as a tree.
#[derive(Drop)]
pub struct Entries<'a> {
    older: &'a [Data],
    newer: &'a [Data],
    // The columns from one place to another, counted from 1, or whole rows.
    columns: Option<(u16, u16)>,
}

impl<'a> Model for Entries<'a> {
    ghost use Rattle.cosem_data.specs.Tree.{Tree};
    ghost use Rattle.cosem_data.specs.TreeCode.{tree_code};
    ghost use Rattle.class_profile.specs.EntriesView.{entries_shown};

    ghost Value = { Tree };

    ghost coded = { tree_code };

    ghost view = { λ e. entries_shown e.columns e.older.now e.newer.now };
}

impl Rows {
    /// All rows, whole.
    pub fn all(&self) -> Entries
        ensures { result ≡ array_of self.now }
    {
        let (older, newer) = self.slices();
        Entries {
            older,
            newer,
            columns: None,
        }
    }

    /// The rows and columns that an entry descriptor asks for. No rows are an empty array, no columns empty structures (own
    /// profile).
    pub fn selected(&self, descriptor: &EntryDescriptor) -> Entries
        ensures { result ≡ entries_of (descriptor_view descriptor.now) (array_of self.now) }
    {
        let start = start_of(descriptor.from_entry);
        let end = end_of(descriptor.to_entry, self.len());
        let (older, newer) = self.slices();
        let count = older.len();
        Entries {
            older: between(start, end, older),
            newer: between(
                start.saturating_sub(count),
                end.saturating_sub(count),
                newer,
            ),
            columns: Some((descriptor.from_selected_value, descriptor.to_selected_value)),
        }
    }
}

impl Profile {
    /// The entries of the buffer that an entry descriptor asks for.
    pub fn entries(&self, descriptor: &EntryDescriptor) -> Entries
        ensures { result ≡ entries_of (descriptor_view descriptor.now) (array_of self.now.buffer) }
    {
        self.buffer.selected(descriptor)
    }

    /// A copy of the entries of the buffer that a selector's parameter asks for. `Kind` where the parameter is no entry
    /// descriptor, `Memory` where the copy gets none.
    pub fn select(&self, alloc: Global, parameter: &Data) -> Result<Data, ClassFault>
        ensures { AnswersAs result (selection_answer (tree parameter.now) (array_of self.now.buffer)) }
    {
        let Some(descriptor) = EntryDescriptor::of(parameter) else {
            return Err(ClassFault::Kind);
        };
        Ok(self.entries(&descriptor).to_data(alloc)?)
    }
}

impl<'a> Entries<'a> {
    /// A copy of the entries as an array.
    pub fn to_data(&self, alloc: Global) -> Result<Data, Memory>
        ensures { IfOk result (λ copy. tree copy ≡ self.now) }
    {
        let mut rows = Vec::new(alloc);
        push_rows(alloc, self.columns, self.older, &mut rows)?;
        push_rows(alloc, self.columns, self.newer, &mut rows)?;
        Ok(Data::Array(Items::new(rows)))
    }

    /// Puts the canonical encoding of the entries as an array behind what is there, as `cosem_axdr::writing::write_data` puts
    /// that of a value, without a copy of it (IEC 62056-5-3, type `Data` in A-XDR).
    ///
    /// # Errors
    /// `Memory` where memory is refused; the vector then has what it had before.
    pub fn write(&self, out: &mut Vec<u8>) -> Result<(), Memory>
        requires { HasLengths self.now }
        ensures ok { OnOk result (out.new.items ≡ out.old.items ++ canonical self.now) }
        // The numbers of the entries are in range, so that the canonical form is one of their encodings.
        ensures ranges { OnOk result (HasRanges self.now) }
        ensures err { OnErr result (out.new.items ≡ out.old.items) }
    {
        let len = out.len();
        let written = put_entries(self.columns, self.older, self.newer, out);
        if written.is_err() {
            out.truncate(len);
        }
        written
    }
}

/// The columns of a row from one place to another, counted from 1.
fn columns_of(places: (u16, u16), row: &Data) -> &[Data]
    ensures { structure_of (map tree result.now) ≡ shown (Some places) row.now }
{
    let (from, to) = places;
    places_between(u32::from(from), u32::from(to), parts_of(row))
}

/// Puts copies of the rows, or of their columns, behind those of a list.
fn push_rows(
    alloc: Global,
    columns: Option<(u16, u16)>,
    rows: &[Data],
    copies: &mut Vec<Data>,
) -> Result<(), Memory>
    ensures { OnOk result (map tree copies.new.items
        ≡ map tree copies.old.items ++ map (shown columns) rows.now) }
{
    for row in rows {
        copies.push(copy_of_row(alloc, columns, row)?)?;
    }
    Ok(())
}

/// A copy of a row, or of its columns.
fn copy_of_row(alloc: Global, columns: Option<(u16, u16)>, row: &Data) -> Result<Data, Memory>
    ensures { IfOk result (λ copy. tree copy ≡ shown columns row.now) }
{
    match columns {
        Some(places) => {
            let values = copies_of(alloc, columns_of(places, row))?;
            Ok(Data::Structure(Items::new(values)))
        }
        None => row.try_clone(alloc),
    }
}

/// Copies of the values.
fn copies_of(alloc: Global, values: &[Data]) -> Result<Vec<Data>, Memory>
    ensures { IfOk result (λ all. map tree all.items ≡ map tree values.now) }
{
    let mut all = Vec::new(alloc);
    for value in values {
        all.push(value.try_clone(alloc)?)?;
    }
    Ok(all)
}

/// The encoding of the entries behind what is there. What was put before a refusal stays.
fn put_entries(
    columns: Option<(u16, u16)>,
    older: &[Data],
    newer: &[Data],
    out: &mut Vec<u8>,
) -> Result<(), Memory>
    requires { HasLengths (entries_shown columns older.now newer.now) }
    ensures ok { OnOk result (out.new.items
        ≡ out.old.items ++ canonical (entries_shown columns older.now newer.now)) }
    ensures ranges { OnOk result (HasRanges (entries_shown columns older.now newer.now)) }
    ensures err { OnErr result (Extends out.old.items out.new.items) }
{
    let count = older.len() + newer.len();
    put_array_front(count as u32, out)?;
    put_rows(columns, older, out)?;
    put_rows(columns, newer, out)
}

/// The encodings of the rows, or of their columns, one after the other. What was put before a refusal stays.
fn put_rows(columns: Option<(u16, u16)>, rows: &[Data], out: &mut Vec<u8>) -> Result<(), Memory>
    requires { HaveLengths (trees (map (shown columns) rows.now)) }
    ensures ok { OnOk result (out.new.items
        ≡ out.old.items ++ all (trees (map (shown columns) rows.now))) }
    ensures ranges { OnOk result (HaveRanges (trees (map (shown columns) rows.now))) }
    ensures err { OnErr result (Extends out.old.items out.new.items) }
{
    for row in rows {
        put_row(columns, row, out)?;
    }
    Ok(())
}

/// The encoding of a row, or of its columns. What was put before a refusal stays.
fn put_row(columns: Option<(u16, u16)>, row: &Data, out: &mut Vec<u8>) -> Result<(), Memory>
    requires { HasLengths (shown columns row.now) }
    ensures ok { OnOk result (out.new.items ≡ out.old.items ++ canonical (shown columns row.now)) }
    ensures ranges { OnOk result (HasRanges (shown columns row.now)) }
    ensures err { OnErr result (Extends out.old.items out.new.items) }
{
    match columns {
        Some(places) => put_structure(columns_of(places, row), out),
        None => write_data(row, out),
    }
}
