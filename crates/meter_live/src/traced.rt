//! A meter with the trail of its last steps.
ghost use Rattle.std.specs.Prelude.{◌≡◌, ◌+◌, ◌-◌, ◌^◌, ◌↔◌, ◌<◌, ◌∷◌, ◌++◌, [], true, false, length, vec_len, vec_capacity, cond, nat_lt, is_some, unwrap_or, None, Some, Err, MatchOption, IsTrue, IfOk, IfErr, OnOk, OnErr};
ghost use Rattle.meter_core.specs.Changing.{is_changing};
ghost use Rattle.meter_core.specs.Judging.{IsJudged};
ghost use Rattle.meter_core.specs.StepView.{reply_of, step_of};
ghost use Rattle.meter_theory.specs.Replies.{reply_to};
ghost use Rattle.meter_theory.specs.States.{IsState};
ghost use Rattle.meter_theory.specs.Steps.{next};
ghost use Rattle.meter_live.specs.Keeping.{kept_by};
ghost use Rattle.meter_live.specs.Marks.{longer};
ghost use Rattle.meter_live.specs.Trail.{HasRoom, behind, closed_by};
ghost use Rattle.meter_live.specs.declared.traced.TheConstants as limits;
ghost use Rattle.step_keeping.specs.Keeping.{IsKept, StillKept};

use crate::archive::{Answered, Archive};
use crate::change::Change;
use crate::fault::LiveFault;
use crate::unmoved::is_unmoved;
use cosem_data::memory::Memory;
use flow_checker::check::Checked;
use meter_core::apply::{Applied, apply_judged};
use meter_core::back::take_back;
use meter_core::judged::Judged;
use meter_core::reply::Reply;
use meter_core::step::Step;
use meter_theory::laws::states_are_kept;
use object_model::meter::Meter;
use object_model::plan::Plan;
use std::alloc::Global;
use std::marker::Model;
use step_keeping::keeper::Keeps;

/// A trail has at most so many entries (own profile).
pub(crate) const TRAIL: usize = 4096;

/// A step that was taken: by which port, and what was answered. Contracts see the step and the reply of the theory.
#[derive(Drop)]
pub struct Entry {
    port: u8,
    step: Step,
    reply: Reply,
}

impl Model for Entry {
    ghost use Rattle.meter_core.specs.StepView.{reply_of, step_of};
    ghost use Rattle.meter_live.specs.Codes.{taken_code};
    ghost use Rattle.meter_live.specs.Trail.{Taken};

    ghost Value = { Taken };

    ghost coded = { taken_code };

    ghost view = { λ e. record { port = e.port; step = step_of e.step; reply = reply_of e.reply } };
}

impl Entry {
    /// A step that this port took, with what was answered.
    fn new(port: u8, judged: Judged, reply: Reply) -> Entry
        ensures { result ≡ record { port = port; step = step_of judged.step; reply = reply_of reply } }
    {
        let Judged { step, judgement: _ } = judged;
        Entry { port, step, reply }
    }

    /// The port that took the step.
    pub fn port(&self) -> u8
        ensures { result ≡ self.now.port }
    {
        self.port
    }

    /// The step.
    pub fn step(&self) -> &Step
        ensures { step_of result.now ≡ self.now.step }
    {
        &self.step
    }

    /// What was answered.
    pub fn reply(&self) -> &Reply
        ensures { reply_of result.now ≡ self.now.reply }
    {
        &self.reply
    }
}

/// A meter of an accepted plan, with the trail of its last steps. Its state is the run of the trail from the opening state.
#[derive(Drop)]
pub struct TracedMeter {
    checked: Checked,
    opening: Meter,
    state: Meter,
    trail: Vec<Entry>,
    count: u64,
    changes: u64,
}

impl Model for TracedMeter {
    ghost use Rattle.std.specs.Coded.{codes};
    ghost use Rattle.meter_theory.specs.PlanCode.{plan_code, state_code};
    ghost use Rattle.meter_live.specs.Codes.{taken_code};
    ghost use Rattle.meter_live.specs.Trail.{Traced, IsTraced, traced};

    ghost Value = { Traced };

    ghost coded = { Prim.hlevel (codes, plan_code, state_code, taken_code) };

    ghost view = { λ t. traced t.checked t.opening t.state t.trail.items t.count t.changes };

    ghost invariant = { λ t. IsTraced
        (traced t.checked t.opening t.state t.trail.items t.count t.changes) };
}

impl TracedMeter {
    ghost use Rattle.meter_live.specs.Trail.{IsTraced, after, reply_now, unstepped};

    /// A meter that no step has reached. Where memory is refused, what was accepted is given back.
    pub(crate) fn new(alloc: Global, checked: Checked) -> Result<TracedMeter, Checked>
        ensures ok { IfOk result (λ t. t ≡ unstepped checked) }
        ensures err { IfErr result (λ given. given ≡ checked) }
    {
        checked.known();
        let plan = checked.plan();
        plan.known();
        states_are_kept();
        let Ok(opening) = plan.start(alloc) else {
            return Err(checked);
        };
        let Ok(state) = plan.start(alloc) else {
            return Err(checked);
        };
        Ok(TracedMeter {
            checked,
            opening,
            state,
            trail: Vec::new(alloc),
            count: 0,
            changes: 0,
        })
    }

    /// What the type keeps, for callers.
    pub fn known(&self)
        ensures { IsTraced self.now }
    {
        let _checked = &self.checked;
    }

    /// What was accepted.
    pub fn checked(&self) -> &Checked
        ensures { result.now ≡ self.now.accepted }
    {
        &self.checked
    }

    /// The state where the trail begins.
    pub fn opening(&self) -> &Meter
        ensures { result.now ≡ self.now.opening }
    {
        &self.opening
    }

    /// The state now.
    pub fn state(&self) -> &Meter
        ensures { result.now ≡ self.now.state }
    {
        &self.state
    }

    /// The last steps, and what was answered to them.
    pub fn trail(&self) -> &[Entry]
        ensures { result.now ≡ self.now.trail }
    {
        self.trail.as_slice()
    }

    /// How many steps were taken.
    pub fn count(&self) -> u64
        ensures { result ≡ self.now.count }
    {
        self.count
    }

    /// How many of them may have changed the meter.
    pub fn changes(&self) -> u64
        ensures { result ≡ self.now.changes }
    {
        self.changes
    }

    /// Whether no step can be counted any more.
    pub fn is_full(&self) -> bool
        ensures full { IsTrue result ↔ (self.now.count ≡ 2 ^ 64 - 1) }
        ensures countable { result ≡ false → self.now.count < 2 ^ 64 - 1 }
    {
        self.count == u64::MAX
    }

    /// What was accepted, the state, and the numbers of steps and changes.
    pub(crate) fn into_parts(self) -> (Checked, Meter, u64, u64)
        ensures parts { (result.0 ≡ self.accepted) × (result.1 ≡ self.state)
            × (result.2 ≡ self.count) × (result.3 ≡ self.changes) }
        ensures kept { IsTraced self }
    {
        let TracedMeter {
            checked,
            opening: _opening,
            state,
            trail: _trail,
            count,
            changes,
        } = self;
        (checked, state, count, changes)
    }

    /// Takes a step that may not change the meter, and answers it. The only error is that memory was refused, and then nothing
    /// changes.
    pub(crate) fn pass(&mut self, alloc: Global, port: u8, judged: Judged) -> Result<Reply, Memory>
        requires countable { self.old.count < 2 ^ 64 - 1 }
        requires judged { IsJudged self.old.accepted.plan judged }
        requires quiet { is_changing self.old.accepted.plan (step_of judged.step) ≡ false }
        ensures reply { IfOk result (λ reply. reply_of reply
            ≡ reply_now self.old (step_of judged.step)) }
        ensures live { OnOk result (self.new ≡ after self.old port (step_of judged.step)) }
        ensures err { OnErr result (self.new ≡ self.old) }
    {
        let plan = self.checked.plan();
        let noted = answered(alloc, plan, &mut self.state, &mut self.trail, &judged)?;
        let told = put_entry(&mut self.trail, &mut self.opening, port, judged, noted);
        self.count += 1;
        Ok(told)
    }

    /// Takes a step that may change the meter, has it kept and writes it into the history, and answers it. The only error is that memory
    /// was refused, that the step isn't kept, or that the history had others, and then nothing changes, but that it may no longer be
    /// known what is kept.
    pub(crate) fn act<K: Keeps + Drop>(
        &mut self,
        alloc: Global,
        port: u8,
        judged: Judged,
        archive: &mut Archive<K>,
        change: &Change,
    ) -> Result<Reply, LiveFault>
        requires countable { self.old.count < 2 ^ 64 - 1 }
        requires judged { IsJudged self.old.accepted.plan judged }
        requires loud { is_changing self.old.accepted.plan (step_of judged.step) ≡ true }
        requires kept { IsKept self.old.accepted.plan (K.kept self.old.accepted.plan archive.old.keeper) self.old.state }
        requires change { change.now ≡ step_of judged.step }
        ensures reply { IfOk result (λ reply. reply_of reply
            ≡ reply_now self.old (step_of judged.step)) }
        ensures live { OnOk result (self.new ≡ after self.old port (step_of judged.step)) }
        ensures written { OnOk result (archive.new.written ≡ longer archive.old.written (step_of judged.step)) }
        ensures kept { IsKept self.old.accepted.plan (K.kept self.old.accepted.plan archive.new.keeper) self.new.state }
        ensures counted { result ≡ Err LiveFault.Full → ⊥ }
        ensures err { OnErr result ((self.new ≡ self.old) × (archive.new.written ≡ archive.old.written)) }
    {
        let plan = self.checked.plan();
        let noted = taken(
            alloc,
            plan,
            &mut self.state,
            &mut self.trail,
            port,
            &judged,
            archive,
            change,
        )?;
        let told = put_entry(&mut self.trail, &mut self.opening, port, judged, noted);
        self.count += 1;
        self.changes += 1;
        Ok(told)
    }
}

/// What a step was answered, for the trail and for who asked, and the state with which a full trail is to be closed.
#[derive(Drop)]
struct Noted {
    closed: Option<Meter>,
    reply: Reply,
    told: Reply,
}

/// Makes room for a step that may not change the meter, and answers it.
fn answered(
    alloc: Global,
    plan: &Plan,
    state: &mut Meter,
    trail: &mut Vec<Entry>,
    judged: &Judged,
) -> Result<Noted, Memory>
    requires of_plan { IsState plan.now state.old }
    requires judged { IsJudged plan.now judged.now }
    requires quiet { is_changing plan.now (step_of judged.now.step) ≡ false }
    ensures state { state.new ≡ state.old }
    ensures trail { trail.new.items ≡ trail.old.items }
    ensures room { IfOk result (λ noted. HasRoom noted.closed (vec_len trail.new) (vec_capacity trail.new)) }
    ensures closed { IfOk result (λ noted. noted.closed ≡ closed_by trail.old.items state.old) }
    ensures reply { IfOk result (λ noted. (reply_of noted.reply
        ≡ reply_to plan.now state.old (step_of judged.now.step)) × (noted.told ≡ noted.reply)) }
{
    let closed = make_room(alloc, trail, state)?;
    let reply = answer(alloc, plan, state, judged)?;
    // Only a GET is answered with a value, whose copy takes memory.
    let told = reply.try_clone(alloc)?;
    Ok(Noted {
        closed,
        reply,
        told,
    })
}

/// Makes room for a step, takes it, has it kept and writes it into the history. All that can be refused comes before the first change
/// that stays.
fn taken<K: Keeps + Drop>(
    alloc: Global,
    plan: &Plan,
    state: &mut Meter,
    trail: &mut Vec<Entry>,
    port: u8,
    judged: &Judged,
    archive: &mut Archive<K>,
    change: &Change,
) -> Result<Noted, LiveFault>
    requires of_plan { IsState plan.now state.old }
    requires judged { IsJudged plan.now judged.now }
    requires kept { IsKept plan.now (K.kept plan.now archive.old.keeper) state.old }
    requires change { change.now ≡ step_of judged.now.step }
    ensures ok { OnOk result (state.new ≡ next plan.now state.old (step_of judged.now.step)) }
    ensures fits { IsState plan.now state.new }
    ensures trail { trail.new.items ≡ trail.old.items }
    ensures room { IfOk result (λ noted. HasRoom noted.closed (vec_len trail.new) (vec_capacity trail.new)) }
    ensures closed { IfOk result (λ noted. noted.closed ≡ closed_by trail.old.items state.old) }
    ensures reply { IfOk result (λ noted. (reply_of noted.reply
        ≡ reply_to plan.now state.old (step_of judged.now.step)) × (noted.told ≡ noted.reply)) }
    ensures written { OnOk result (archive.new.written ≡ longer archive.old.written (step_of judged.now.step)) }
    ensures kept { IsKept plan.now (K.kept plan.now archive.new.keeper) state.new }
    ensures counted { result ≡ Err LiveFault.Full → ⊥ }
    ensures err { OnErr result ((state.new ≡ state.old) × (archive.new.written ≡ archive.old.written)) }
{
    let closed = make_room(alloc, trail, state)?;
    let (reply, told) = apply_kept(alloc, plan, state, port, judged, archive, change)?;
    Ok(Noted {
        closed,
        reply,
        told,
    })
}

/// Answers a step that may not change the meter.
fn answer(alloc: Global, plan: &Plan, meter: &mut Meter, judged: &Judged) -> Result<Reply, Memory>
    requires of_plan { IsState plan.now meter.old }
    requires judged { IsJudged plan.now judged.now }
    requires quiet { is_changing plan.now (step_of judged.now.step) ≡ false }
    ensures same { meter.new ≡ meter.old }
    ensures reply { IfOk result (λ reply. reply_of reply ≡ reply_to plan.now meter.old (step_of judged.now.step)) }
{
    let Applied { reply, back: _back } = apply_judged(alloc, plan, meter, judged)?;
    Ok(reply)
}

/// Takes a step, has it kept and writes it into the history, and answers it twice: for the trail and for who asked. Where that is refused
/// the meter and the history are as they were.
fn apply_kept<K: Keeps + Drop>(
    alloc: Global,
    plan: &Plan,
    meter: &mut Meter,
    port: u8,
    judged: &Judged,
    archive: &mut Archive<K>,
    change: &Change,
) -> Result<(Reply, Reply), LiveFault>
    requires of_plan { IsState plan.now meter.old }
    requires judged { IsJudged plan.now judged.now }
    requires kept { IsKept plan.now (K.kept plan.now archive.old.keeper) meter.old }
    requires change { change.now ≡ step_of judged.now.step }
    ensures state { IsState plan.now meter.new }
    ensures ok { OnOk result (meter.new ≡ next plan.now meter.old (step_of judged.now.step)) }
    ensures replies { IfOk result (λ r. (reply_of r.0
        ≡ reply_to plan.now meter.old (step_of judged.now.step)) × (r.1 ≡ r.0)) }
    ensures written { OnOk result (archive.new.written ≡ longer archive.old.written (step_of judged.now.step)) }
    ensures kept { IsKept plan.now (K.kept plan.now archive.new.keeper) meter.new }
    ensures counted { result ≡ Err LiveFault.Full → ⊥ }
    ensures err { OnErr result ((meter.new ≡ meter.old) × (archive.new.written ≡ archive.old.written)) }
{
    let Applied { reply, back } = apply_judged(alloc, plan, meter, judged)?;
    let is_same = is_unmoved(plan, meter, &back);
    let answered = Answered {
        port,
        change,
        reply: &reply,
    };
    match settle(alloc, plan, is_same, answered, archive) {
        Ok(told) => {
            drop(back);
            Ok((reply, told))
        }
        Err(fault) => {
            take_back(plan, meter, back);
            Err(fault)
        }
    }
}

/// Copies the reply to a step for who asked, has the step kept, and writes it into the history.
fn settle<K: Keeps + Drop>(
    alloc: Global,
    plan: &Plan,
    is_same: bool,
    answered: Answered<'_>,
    archive: &mut Archive<K>,
) -> Result<Reply, LiveFault>
    ensures told { IfOk result (λ told. told ≡ answered.entry.reply.now) }
    ensures written { OnOk result (archive.new.written ≡ longer archive.old.written answered.entry.change.now) }
    ensures kept { OnOk result (K.kept plan.now archive.new.keeper
        ≡ kept_by is_same (K.kept plan.now archive.old.keeper) answered.entry.change.now) }
    ensures err { OnErr result ((archive.new.written ≡ archive.old.written)
        × StillKept (K.kept plan.now archive.old.keeper) (K.kept plan.now archive.new.keeper)) }
    ensures counted { result ≡ Err LiveFault.Full → ⊥ }
{
    let told = answered.reply.try_clone(alloc)?;
    archive.put(alloc, plan, is_same, answered)?;
    Ok(told)
}

/// Makes room for an entry. Where the trail is full it is to be closed, and a copy of the state is given. The only error is that
/// memory was refused.
fn make_room(alloc: Global, trail: &mut Vec<Entry>, state: &Meter) -> Result<Option<Meter>, Memory>
    ensures same { trail.new.items ≡ trail.old.items }
    ensures room { IfOk result (λ closed. HasRoom closed (vec_len trail.new) (vec_capacity trail.new)) }
    ensures closed { IfOk result (λ closed. closed ≡ closed_by trail.old.items state.now) }
{
    if trail.len() < TRAIL {
        trail.reserve(1)?;
        return Ok(None);
    }
    Ok(Some(state.try_clone(alloc)?))
}

/// Puts the entry of a step behind the trail, which is closed first where that is due, and leaves what it was answered.
fn put_entry(
    trail: &mut Vec<Entry>,
    opening: &mut Meter,
    port: u8,
    judged: Judged,
    noted: Noted,
) -> Reply
    requires { HasRoom noted.closed (vec_len trail.old) (vec_capacity trail.old) }
    ensures trail { trail.new.items
        ≡ behind noted.closed trail.old.items
        (record { port = port; step = step_of judged.step; reply = reply_of noted.reply }) }
    ensures opening { opening.new ≡ unwrap_or noted.closed opening.old }
    ensures told { result ≡ noted.told }
{
    let Noted {
        closed,
        reply,
        told,
    } = noted;
    if let Some(state) = closed {
        *opening = state;
        trail.clear();
    }
    trail.push_reserved(Entry::new(port, judged, reply));
    told
}
