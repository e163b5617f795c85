//! What opens places that keep steps.

use crate::fault::StoreFault;
use object_model::plan::Plan;
use std::alloc::Global;
use step_keeping::keeper::Keeps;
use step_keeping::recalling::Recalls;

/// What a place has kept, and what keeps further steps there.
#[derive(Drop)]
pub struct Store<K: Keeps + Drop, P: Recalls + Drop> {
    pub past: P,
    pub keeper: K,
}

/// Opens places that keep the steps of a meter, by their paths.
pub trait Stores<K: Keeps + Drop, P: Recalls + Drop> {
    ghost use Rattle.std.specs.Prelude.{IfOk};
    ghost use Rattle.step_keeping.specs.Keeping.{AreKept};

    /// Opens the place with this path for a meter of the plan, whose configuration has these bytes, and makes it where there is none.
    ///
    /// # Errors
    /// It isn't opened, it keeps the steps of another configuration, or it isn't whole; nothing was written to it then that keeps
    /// steps. Memory was refused.
    fn open_store(
        &self,
        alloc: Global,
        path: &str,
        config: &[u8],
        plan: &Plan,
    ) -> Result<Store<K, P>, StoreFault>
        // What is handed out is what is kept.
        ensures { IfOk result (λ store. AreKept (K.kept plan.now store.keeper) (P.left store.past)) };
}
