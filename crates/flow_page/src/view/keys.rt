//! What rows have alike that are shown as one.
ghost use Rattle.std.specs.Prelude.{◌≡◌, IfOk, map};
ghost use Rattle.flow_map.specs.Grouping.{AreGrouped, numbers_of};
ghost use Rattle.flow_page.specs.Keys.{row_facts, word_of};
ghost use Rattle.flow_page.specs.Objects.{object_facts};

use crate::matrix::Found;
use crate::objects::Held;
use cosem_data::memory::Memory;
use flow_map::grouping::grouped;
use flow_map::kind::Change;
use flow_map::request::GrantedRequest;
use std::alloc::Global;

/// The word by which a mark tells how a client reaches a cell (own profile).
#[derive(Clone, Copy, PartialEq, Eq, Drop)]
pub(crate) enum Word {
    /// It doesn't.
    Nothing,
    /// By a GET.
    Get,
    /// By a SET.
    Set,
    /// By an ACTION.
    Act,
    /// By so many edges.
    Edges(usize),
}

/// What marks have alike (own profile).
#[derive(Clone, Copy, PartialEq, Eq, Drop)]
pub(crate) struct MarkKey {
    /// The word of what is found.
    pub word: Word,
    /// Whether the policy allows it.
    pub allowed: bool,
    /// Whether it is gained or lost.
    pub change: Option<Change>,
    /// The request at the other end of the way, where there is one that the policy doesn't allow.
    pub refused: Option<GrantedRequest>,
}

/// What the cells of a row have alike (own profile).
#[derive(PartialEq, Eq, Drop)]
pub(crate) struct RowKey {
    /// The class.
    pub class_id: u16,
    /// The attribute.
    pub index: u8,
    /// For each client that of its mark of influence, and then that of learning.
    pub marks: Vec<MarkKey>,
}

/// What the objects of a row have alike (own profile).
#[derive(PartialEq, Eq, Drop)]
pub(crate) struct ObjectKey {
    /// The class.
    pub class_id: u16,
    /// Whether inputs from outside go to them.
    pub is_fed: bool,
    /// What each client may do with them.
    pub held: Vec<Held>,
}

/// The word of what is found.
pub(crate) fn word_of(found: Option<Found>) -> Word
    ensures { result ≡ word_of found }
{
    match found {
        None => Word::Nothing,
        Some(Found::Right(GrantedRequest::Get(_))) => Word::Get,
        Some(Found::Right(GrantedRequest::Set(_))) => Word::Set,
        Some(Found::Right(GrantedRequest::Act(_))) => Word::Act,
        Some(Found::Right(GrantedRequest::Execute(_, _))) => Word::Act,
        Some(Found::Edges(edges)) => Word::Edges(edges),
    }
}

/// The numbers of cells with these keys, those of equal keys together. The only error is want of memory.
pub(crate) fn row_groups(alloc: Global, keys: &[RowKey]) -> Result<Vec<Vec<usize>>, Memory>
    ensures { IfOk result (λ groups. AreGrouped (map row_facts keys.now) (numbers_of groups.items)) }
{
    grouped(alloc, keys)
}

/// The numbers of objects with these keys, those of equal keys together. The only error is want of memory.
pub(crate) fn object_groups(alloc: Global, keys: &[ObjectKey]) -> Result<Vec<Vec<usize>>, Memory>
    ensures { IfOk result (λ groups. AreGrouped (map object_facts keys.now) (numbers_of groups.items)) }
{
    grouped(alloc, keys)
}
