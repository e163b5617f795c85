//! What clients are granted on the objects of a plan, as masks: looked up in constant time.
ghost use Rattle.std.specs.Prelude.{◌≡◌, ◌<◌, ◌≤◌, ◌^◌, ◌*◌, ◌+◌, ℕ, [], length, IfOk, IfSome, Option, All};
ghost use Rattle.meter_theory.specs.Lists.{IsIn};
ghost use Rattle.meter_theory.specs.Plan as theory;
ghost use Rattle.meter_theory.specs.Rights.{lists};
ghost use Rattle.object_model.specs.Grants.{granted_at, has_bit, listed_in, masks_for, place_in, AreGrants, HasRoom, IsJoined};

use crate::index::Index;
use crate::right::Right;
use cosem_data::memory::Memory;
use meter_theory::flow::Access;
use meter_theory::limits::CLIENTS;
use std::alloc::Global;

/// The indexes that a mask has.
const INDEXES: u8 = 16;

/// The masks of the view and of each access: for each object, and for each of as many clients as a meter has at most, the indexes that are granted.
#[derive(Drop)]
pub(crate) struct Grants {
    pub(crate) views: Vec<u16>,
    pub(crate) gets: Vec<u16>,
    pub(crate) sets: Vec<u16>,
    pub(crate) acts: Vec<u16>,
}

impl Grants {
    /// The masks of these rights, of clients below `CLIENTS`, on names of the index, and on indexes below 16.
    pub(crate) fn new(alloc: Global, index: &Index, rights: &[Right]) -> Result<Grants, Memory>
        requires few { length index.now < 2 ^ 16 }
        requires room { (r : theory.Right) → IsIn rights.now r → HasRoom index.now r }
        ensures { IfOk result (λ grants. AreGrants index.now rights.now grants) }
    {
        let mut grants = Grants::none(alloc, index)?;
        for right in rights {
            grants.join(place_of(index, right), right);
        }
        Ok(grants)
    }

    /// The masks of no rights.
    fn none(alloc: Global, index: &Index) -> Result<Grants, Memory>
        requires { length index.now < 2 ^ 16 }
        ensures { IfOk result (λ grants. AreGrants index.now [] grants) }
    {
        let size = index.len() * CLIENTS;
        Ok(Grants {
            views: vec![in alloc; 0; size]?,
            gets: vec![in alloc; 0; size]?,
            sets: vec![in alloc; 0; size]?,
            acts: vec![in alloc; 0; size]?,
        })
    }

    /// Joins the indexes that a right lists to the masks at its place.
    fn join(&mut self, place: usize, right: &Right)
        requires within { (access : Option Access) → place < length (masks_for access self.old) }
        requires indexes { (access : Option Access) → All (λ i. i < 16) (listed_in access right.now) }
        ensures { (access : Option Access) → IsJoined (masks_for access self.old) place (listed_in access right.now) (masks_for access self.new) }
    {
        join_in(&mut self.views, place, right.listed(None));
        join_in(&mut self.gets, place, right.listed(Some(Access::Get)));
        join_in(&mut self.sets, place, right.listed(Some(Access::Set)));
        join_in(&mut self.acts, place, right.listed(Some(Access::Act)));
    }

    /// The masks of an access, or those of the view.
    pub(crate) fn masks(&self, access: Option<Access>) -> &[u16]
        ensures { result.now ≡ masks_for access self.now }
    {
        match access {
            None => &self.views,
            Some(Access::Get) => &self.gets,
            Some(Access::Set) => &self.sets,
            Some(Access::Act) => &self.acts,
        }
    }
}

/// The mask of these indexes.
fn mask_of(indexes: &[u8]) -> u16
    requires { All (λ i. i < 16) indexes.now }
    ensures { (i : ℕ) → lists indexes.now i ≡ has_bit result i }
{
    let mut mask: u16 = 0;
    for index in indexes {
        mask |= 1 << *index;
    }
    mask
}

/// Where the masks of a right's client on its object stand.
fn place_of(index: &Index, right: &Right) -> usize
    requires { HasRoom index.now right.now }
    ensures { IfSome (place_in index.now right.now.object) (λ k. result ≡ k * CLIENTS + right.now.client) }
{
    let (found, _) = index.find(right.object());
    let Some(object) = found else {
        unreachable!();
    };
    usize::from(object) * CLIENTS + usize::from(right.client())
}

/// Joins indexes to the mask at this place.
fn join_in(masks: &mut [u16], place: usize, indexes: &[u8])
    requires within { place < length masks.old }
    requires indexes { All (λ i. i < 16) indexes.now }
    ensures { IsJoined masks.old place indexes.now masks.new }
{
    masks[place] |= mask_of(indexes);
}

/// Whether the masks grant this client this index of the object with this number.
pub(crate) fn is_granted(masks: &[u16], object: Option<u16>, client: u8, index: u8) -> bool
    requires { IfSome object (λ k. k * CLIENTS + CLIENTS ≤ length masks.now) }
    ensures { result ≡ granted_at masks.now object client index }
{
    let Some(object) = object else {
        return false;
    };
    let client = usize::from(client);
    client < CLIENTS
        && index < INDEXES
        && masks[usize::from(object) * CLIENTS + client] >> index & 1 == 1
}
