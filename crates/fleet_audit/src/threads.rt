//! The same work at many numbers, each in a thread of its own.
ghost use Rattle.std.specs.Prelude.{◌≡◌, ℕ, ◌<◌, IfOk, [], vec_len};
ghost use Rattle.std.specs.Fn.{FnReturns};
ghost use Rattle.std.specs.Fork.{GivesEach};
ghost use denote.Param.Send.{IsSend, IsSync};

use std::alloc::{AllocError, Global};
use std::thread::{Threads, join};

/// What `work` gives at each number below `count`, in the order of the numbers. The caller starts a thread for each number but 0
/// and then calls `work` at 0 itself, and behind that at each number for which no thread could be started.
///
/// `std::thread::map_indices` does the same by halves: each thread starts one more before its own work, and number 0 is the last to
/// begin, where here it is begun as soon as all threads are started.
///
/// # Errors
/// Memory was refused for the list of what is given.
pub(crate) fn in_threads<R: Threads + Sync, X: Send + Drop, F: Fn(usize) -> X + Sync>(
    rt: &R,
    alloc: Global,
    count: usize,
    work: &F,
) -> Result<Vec<X>, AllocError>
    requires { (number : ℕ) → number < count → F.pre work.now number }
    ensures len { IfOk result (λ given. vec_len given ≡ count) }
    ensures each { IfOk result (λ given. GivesEach F.Fn work.now count given.items) }
{
    let none = Vec::with_capacity(alloc, count)?;
    below(rt, none, count, work)
}

/// What `work` gives at each number below `count`, put into an empty list.
#[cycle(below)]
fn below<R: Threads + Sync, X: Send + Drop, F: Fn(usize) -> X + Sync>(
    rt: &R,
    mut none: Vec<X>,
    count: usize,
    work: &F,
) -> Result<Vec<X>, AllocError>
    requires none { none.items ≡ [] }
    requires accepts { (number : ℕ) → number < count → F.pre work.now number }
    ensures len { IfOk result (λ given. vec_len given ≡ count) }
    ensures each { IfOk result (λ given. GivesEach F.Fn work.now count given.items) }
{
    let Some(last) = count.checked_sub(1) else {
        return Ok(none);
    };
    if last == 0 {
        none.push(work(0))?;
        return Ok(none);
    }
    let one = move || -> X
        requires { IsSync F.row × IsSend X.row × F.pre work.now last }
        ensures { FnReturns F.Fn work.entry.now (last, tt) result }
    { work(last) };
    let others = move || -> Result<Vec<X>, AllocError>
        requires { IsSync R.row × IsSync F.row × IsSend X.row × (none.items ≡ [])
            × ((number : ℕ) → number < last → F.pre work.now number) }
        ensures { IfOk result (λ given. (vec_len given ≡ last)
            × GivesEach F.Fn work.entry.now last given.items) }
    { below(rt, none, last, work) };
    let (behind, before) = join(rt, one, others);
    let mut given = before?;
    given.push(behind)?;
    Ok(given)
}
