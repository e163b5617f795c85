//! Looks at a trail's file, whatever a crash left of it, before anything is written to it.
ghost use Rattle.std.specs.Prelude.{◌≡◌, ◌≢◌, ◌⊎◌, ◌+◌, ◌<◌, ◌≤◌, ◌∷◌, [], false, true, length, map, get_or, take, drop, Err, IsTrue, IfErr, IfOk, MatchOption, OnOk};
ghost use Rattle.trail_file.specs.Faults.{is_before_writing};
ghost use Rattle.trail_file.specs.Heads.{IsHead, head_entry};
ghost use Rattle.trail_file.specs.Opening.{EndsBefore, IsDamaged, IsForeign, IsOther, IsUntouched, headed};
ghost use Rattle.trail_file.specs.Opening as spec;
ghost use Rattle.trail_file.specs.Text.{entry_of, recovered};
ghost use Rattle.trail_file.specs.Rest.{EachLeft, IsFront};
ghost use Rattle.trail_file.specs.declared.head.Head as held;

use crate::entry::Entry;
use crate::fault::TrailFault;
use crate::head::{Head, PROGRAM};
use crate::latch::{NEWLINE, OPEN};
use crate::reading::{count_behind, read_entries};
use sqlite_disk::Disk;
use std::alloc::Global;

/// How long a file is at most that a crash left of the first opening: a head whose version has the most digits, and a shut latch.
const LONGEST_NEW: usize = 106;

/// What a trail's file was found to have. `crate::opening` opens it as a trail.
#[derive(Drop)]
pub struct Found {
    pub(crate) head: Head,
    entries: Vec<Entry>,
    behind: usize,
    pub(crate) bytes: Vec<u8>,
    /// Where the entries end: the shut latch stands there, or nothing does. A new file has none.
    pub(crate) end: usize,
    ghost within: { end ≤ length bytes.items },
    ghost front: { IsFront (take end bytes.items) (recovered bytes.items) },
    ghost shut: { end + 1 < length bytes.items → get_or bytes.items end 0 ≢ 35 },
    ghost held: { headed head (recovered bytes.items) ≡ head_entry head ∷ map entry_of entries.items },
    ghost some: { end ≢ 0 → recovered bytes.items ≢ [] },
    ghost few: { behind ≡ length (recovered (35 ∷ drop (end + 1) bytes.items)) },
}

impl Found {
    /// The file's own head: its configuration is that which was expected, its version may be another. A new file is to get the head that
    /// was expected.
    pub fn head(&self) -> Head
        ensures { result ≡ self.now.head }
    {
        self.head
    }

    /// The entries behind the head, in their order.
    pub fn entries(&self) -> &[Entry]
        ensures { result.now ≡ self.now.entries.items }
    {
        &self.entries
    }

    /// How many entries would count behind these, were the shut latch an open one. A crash leaves those of one call of `commit` there at
    /// most; where there are more, a latch was changed.
    pub fn behind(&self) -> usize
        ensures { EndsBefore self.now.bytes.items result }
    {
        self.behind
    }
}

/// Looks at a file as the trail that begins with a head. A new file, which is empty or has at most what a crash leaves of the first
/// opening, is found to have that head and no entries. Nothing is written.
///
/// # Errors
/// `Foreign`, `OtherConfiguration`, `Damaged`, `Memory` and `NotRead`.
pub fn look<D: Disk>(alloc: Global, disk: &mut D, head: &Head) -> Result<Found, TrailFault>
    requires usable { IsTrue (D.Disk.is_usable disk.old) }
    ensures bytes { IfOk result (λ found. IsTrue (D.Disk.is_clean disk.new) → found.bytes.items ≡ D.Disk.seen disk.old) }
    ensures entries { IfOk result (λ found. IsTrue (D.Disk.is_clean disk.new)
        → headed head.now (recovered (D.Disk.seen disk.old)) ≡ head_entry found.head ∷ map entry_of found.entries.items) }
    ensures digest { IfOk result (λ found. IsHead found.head × (found.head.digest ≡ head.now.digest)) }
    ensures new { OnOk result (IsTrue (D.Disk.is_clean disk.new) → recovered (D.Disk.seen disk.old) ≡ []
        → spec.is_new (D.Disk.seen disk.old) ≡ true) }
    ensures untouched { IsUntouched (D.Disk.seen disk.old) (D.Disk.seen disk.new) (D.Disk.may_leave disk.old) (D.Disk.may_leave disk.new) }
    ensures usable { IsTrue (D.Disk.is_usable disk.new) }
    ensures clean { IsTrue (D.Disk.is_clean disk.new) → IsTrue (D.Disk.is_clean disk.old) }
    ensures only { IfErr result (λ fault. IsTrue (is_before_writing fault)) }
    ensures foreign { result ≡ Err TrailFault.Foreign → IsTrue (D.Disk.is_clean disk.new) → IsForeign (D.Disk.seen disk.old) }
    ensures other { result ≡ Err TrailFault.OtherConfiguration → IsTrue (D.Disk.is_clean disk.new)
        → IsOther head.now.digest (D.Disk.seen disk.old) }
    ensures damaged { result ≡ Err TrailFault.Damaged → IsTrue (D.Disk.is_clean disk.new) → IsDamaged (D.Disk.seen disk.old) }
{
    let bytes = read_all(alloc, disk)?;
    found_in(alloc, bytes, head)
}

/// What bytes are as the trail that begins with a head.
fn found_in(alloc: Global, bytes: Vec<u8>, head: &Head) -> Result<Found, TrailFault>
    ensures bytes { IfOk result (λ found. found.bytes ≡ bytes) }
    ensures entries { IfOk result (λ found.
        headed head.now (recovered bytes.items) ≡ head_entry found.head ∷ map entry_of found.entries.items) }
    ensures digest { IfOk result (λ found. IsHead found.head × (found.head.digest ≡ head.now.digest)) }
    ensures new { OnOk result (recovered bytes.items ≡ [] → spec.is_new bytes.items ≡ true) }
    ensures only { IfErr result (λ fault. IsTrue (is_before_writing fault)) }
    ensures foreign { result ≡ Err TrailFault.Foreign → IsForeign bytes.items }
    ensures other { result ≡ Err TrailFault.OtherConfiguration → IsOther head.now.digest bytes.items }
    ensures damaged { result ≡ Err TrailFault.Damaged → IsDamaged bytes.items }
{
    let (entries, end) = read_entries(alloc, &bytes)?;
    let Some((first, entries)) = without_first(entries) else {
        return new_file(alloc, bytes, head);
    };
    let head = match judge(&first, head) {
        Ok(found) => found,
        Err(fault) => return Err(fault),
    };
    let behind = behind_end(&bytes[end..])?;
    Ok(Found {
        head,
        entries,
        behind,
        bytes,
        end,
    })
}

/// What bytes without an entry are, where they are those of a new file.
fn new_file(alloc: Global, bytes: Vec<u8>, head: &Head) -> Result<Found, TrailFault>
    requires { recovered bytes.items ≡ [] }
    ensures found { IfOk result (λ found. (found.bytes ≡ bytes) × (found.head ≡ head.now) × (found.entries.items ≡ [])) }
    ensures new { OnOk result (spec.is_new bytes.items ≡ true) }
    ensures foreign { IfErr result (λ fault. (fault ≡ TrailFault.Foreign) × (spec.is_new bytes.items ≡ false)) }
{
    if !is_new(&bytes) {
        return Err(TrailFault::Foreign);
    }
    Ok(Found {
        head: *head,
        entries: Vec::new(alloc),
        behind: count_behind(&bytes),
        bytes,
        end: 0,
    })
}

/// Whether a file is new: it is empty, or has what a crash leaves of the first opening.
#[tactic(auto, unfolding(crate::specs::Opening::is_new))]
fn is_new(bytes: &[u8]) -> bool
    ensures { result ≡ spec.is_new bytes.now }
{
    match bytes {
        [] | [_] => true,
        [latch, behind @ ..] => {
            *latch == NEWLINE && bytes.len() <= LONGEST_NEW && is_begun(behind)
        }
    }
}

/// Whether a head was begun here: its first bytes stand here, as far as anything does, or the first byte was never written.
fn is_begun(behind: &[u8]) -> bool
    requires { 0 < length behind.now }
    ensures { result ≡ spec.is_begun behind.now }
{
    behind[0] == 0 || behind.starts_with(PROGRAM) || PROGRAM.starts_with(behind)
}

/// The head that a file's first entry is, where it is one of the expected configuration.
fn judge(first: &Entry, expected: &Head) -> Result<Head, TrailFault>
    ensures found { IfOk result (λ h. IsHead h × (entry_of first.now ≡ head_entry h) × (h.digest ≡ expected.now.digest)) }
    ensures only { IfErr result (λ fault. (fault ≡ TrailFault.Foreign) ⊎ (fault ≡ TrailFault.OtherConfiguration)) }
    ensures foreign { result ≡ Err TrailFault.Foreign → (h : held.Head) → IsHead h → entry_of first.now ≢ head_entry h }
    ensures other { result ≡ Err TrailFault.OtherConfiguration
        → (h : held.Head) × (entry_of first.now ≡ head_entry h) × (h.digest ≢ expected.now.digest) }
{
    let Some(head) = Head::of_entry(&first.note, &first.line) else {
        return Err(TrailFault::Foreign);
    };
    if head.digest != expected.digest {
        return Err(TrailFault::OtherConfiguration);
    }
    Ok(head)
}

/// How many entries would count behind whole ones, were the latch there, behind which anything stands, an open one.
///
/// # Errors
/// `Damaged` where it is open: what stands behind it is no whole entry.
fn behind_end(rest: &[u8]) -> Result<usize, TrailFault>
    ensures count { IfOk result (λ n. n ≡ length (recovered (35 ∷ drop 1 rest.now))) }
    ensures shut { OnOk result (1 < length rest.now → get_or rest.now 0 0 ≢ 35) }
    ensures damaged { IfErr result (λ fault. (fault ≡ TrailFault.Damaged) × (1 < length rest.now) × (get_or rest.now 0 0 ≡ 35)) }
{
    match rest {
        [OPEN, _, ..] => Err(TrailFault::Damaged),
        _ => Ok(count_behind(rest)),
    }
}

/// The first entry, and those behind it.
fn without_first(mut entries: Vec<Entry>) -> Option<(Entry, Vec<Entry>)>
    ensures { MatchOption result (entries.items ≡ []) (λ r. entries.items ≡ r.0 ∷ r.1.items) }
{
    if entries.is_empty() {
        return None;
    }
    let first = entries.remove(0);
    Some((first, entries))
}

/// All bytes of a file.
fn read_all<D: Disk>(alloc: Global, disk: &mut D) -> Result<Vec<u8>, TrailFault>
    requires { IsTrue (D.Disk.is_usable disk.old) }
    ensures bytes { IfOk result (λ bytes. IsTrue (D.Disk.is_clean disk.new) → bytes.items ≡ D.Disk.seen disk.old) }
    ensures seen { D.Disk.seen disk.new ≡ D.Disk.seen disk.old }
    ensures usable { IsTrue (D.Disk.is_usable disk.new) }
    ensures clean { IsTrue (D.Disk.is_clean disk.new) → IsTrue (D.Disk.is_clean disk.old) }
    ensures crash { EachLeft (D.Disk.may_leave disk.new) (D.Disk.may_leave disk.old) }
    ensures only { IfErr result (λ fault. (fault ≡ TrailFault.Memory) ⊎ (fault ≡ TrailFault.NotRead)) }
{
    match disk.len() {
        Ok(len) => read_front(alloc, disk, len),
        Err(_) => Err(TrailFault::NotRead),
    }
}

/// So many bytes of a file.
fn read_front<D: Disk>(alloc: Global, disk: &mut D, len: usize) -> Result<Vec<u8>, TrailFault>
    requires usable { IsTrue (D.Disk.is_usable disk.old) }
    requires all { IsTrue (D.Disk.is_clean disk.old) → len ≡ length (D.Disk.seen disk.old) }
    ensures bytes { IfOk result (λ bytes. IsTrue (D.Disk.is_clean disk.new) → bytes.items ≡ D.Disk.seen disk.old) }
    ensures seen { D.Disk.seen disk.new ≡ D.Disk.seen disk.old }
    ensures usable { IsTrue (D.Disk.is_usable disk.new) }
    ensures clean { IsTrue (D.Disk.is_clean disk.new) → IsTrue (D.Disk.is_clean disk.old) }
    ensures crash { EachLeft (D.Disk.may_leave disk.new) (D.Disk.may_leave disk.old) }
    ensures only { IfErr result (λ fault. (fault ≡ TrailFault.Memory) ⊎ (fault ≡ TrailFault.NotRead)) }
{
    let mut bytes = Vec::new(alloc);
    if bytes.resize(len, 0).is_err() {
        return Err(TrailFault::Memory);
    }
    match disk.read_at(0, bytes.as_mut_slice()) {
        Ok(()) => Ok(bytes),
        Err(_) => Err(TrailFault::NotRead),
    }
}
