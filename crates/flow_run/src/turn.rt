ghost use Rattle.std.specs.Prelude.{◌≡◌, ◌<◌, ◌≤◌, ◌+◌, ◌^◌, length, ℕ, min, IfOk, OnOk, OnErr, [], ◌∷◌, ◌++◌, None, Some, MatchOption, IfSome, is_some, true, false, if◌then◌else◌};
ghost use Rattle.flow_base.specs.Shown.{shown_program};
ghost use Rattle.flow_base.specs.declared.event.Input.TheVariants as input_of;
ghost use Rattle.flow_nodes.specs.Links.{AreLinked};
ghost use Rattle.flow_model.specs.Checked.{shown_checked};
ghost use Rattle.flow_model.specs.Rest.{is_done};
ghost use Rattle.flow_model.specs.Configuration as configuration;
ghost use Rattle.flow_model.specs.Configuration.{Configuration, first_configuration};
ghost use Rattle.flow_model.specs.Deliver.{deliver as delivered, all_fit as fit};
ghost use Rattle.flow_model.specs.Turn as model;
ghost use Rattle.flow_run.specs.Shown.{shown_answers};
ghost use Rattle.flow_run.specs.Flat.{AreSound, KeepsSound, StepsFirst};
ghost use Rattle.flow_run.specs.Waiting.{waits_in_all, wait_in, opens_in_all, one_if, is_waiting as is_waiting_in};
ghost use Rattle.flow_run.specs.Position.{IsWholeTurning, Leads, setting_with, shown_frame, shown_progress};
ghost use Rattle.flow_run.specs.Whole.{rest_at, shown_standing};

use crate::cell::{Cell, Doing};
use crate::deliver::{Turning, begin, deliver};
use crate::joins::is_over;
use crate::setting::{Answers, Setting};
use crate::standing::{SoundStanding, Standing};
use crate::store::Store;
use crate::waits::OpenWait;
use crate::walk::{Stepped, step};
use flow_base::effect::effect_of_command;
use flow_base::event::{Cmd, Input, State};
use flow_base::number::{EventId, Moment};
use flow_base::syntax::Declaration;
use flow_base::text::Text;
use flow_base::value::Value;
use flow_model::checked::Checked;
use flow_nodes::linked::Linked;
use flow_nodes::table::ProgramTable;
use flow_values::fault::EvalFault;
use std::alloc::{AllocError, Global};

/// What is fixed in a turn.
#[derive(Drop)]
pub struct Frame<'a> {
    pub declarations: &'a [Declaration],
    pub at: Moment,
    pub is_first: bool,
    /// The events up to the input's, itself among them.
    pub events: u64,
    pub answers: Answers<'a>,
}

/// The first turn of a run: where it leaves the run, and its commands; none where the arguments don't fit the parameters.
pub fn begun(
    alloc: Global,
    program: &Checked,
    at: Moment,
    values: &[Value],
    answers: Answers,
) -> Result<Option<(SoundStanding, Vec<Cmd>)>, EvalFault>
    ensures counted { IfOk result (λ o. IfSome o (λ r. r.0.events ≡ 1 + length r.1.items)) }
    ensures turn { IfOk result (λ o. MatchOption o (fit (shown_checked program.now).parameters values.now ≡ false)
        (λ r. model.Turn (shown_checked program.now) (shown_answers answers.entry) first_configuration at
        (input_of.Started values.now) r.1.items (shown_standing r.0))) }
    ensures err { OnErr result (fit (shown_checked program.now).parameters values.now ≡ true) }
{
    let linked = program.table();
    let table = linked.table();
    let tree = program.program();
    match begin(alloc, table, tree, values)? {
        None => Ok(None),
        Some(p) => {
            let f = Frame {
                declarations: &tree.declarations,
                at,
                is_first: true,
                events: 1,
                answers,
            };
            let left = led(alloc, &f, linked, table, p)?;
            Ok(Some(left))
        }
    }
}

/// A further turn of a run, made on a copy: where it leaves the run, and its commands; none where the input can't be delivered.
pub fn continued(
    alloc: Global,
    position: &SoundStanding,
    program: &Checked,
    at: Moment,
    input: &Input,
    answers: Answers,
) -> Result<Option<(SoundStanding, Vec<Cmd>)>, EvalFault>
    requires events { position.now.events < 2 ^ 61 }
    ensures counted { IfOk result (λ o. IfSome o (λ r. r.0.events ≡ position.now.events + 1 + length r.1.items)) }
    ensures turn { IfOk result (λ o. MatchOption o (delivered (shown_checked program.now) (shown_standing position.now) input.now ≡ None)
        (λ r. model.Turn (shown_checked program.now) (shown_answers answers.entry) (shown_standing position.now) at input.now r.1.items
        (shown_standing r.0))) }
    ensures err { OnErr result (is_some (delivered (shown_checked program.now) (shown_standing position.now) input.now) ≡ true) }
{
    let run = position.get();
    let table = run.table.table();
    let tree = program.program();
    match deliver(alloc, table, tree, run, input)? {
        None => Ok(None),
        Some(p) => {
            let f = Frame {
                declarations: &tree.declarations,
                at,
                is_first: false,
                events: run.events + 1,
                answers,
            };
            let left = led(alloc, &f, &run.table, table, p)?;
            Ok(Some(left))
        }
    }
}

// Where a run goes from here, and its commands.
fn led(
    alloc: Global,
    f: &Frame,
    linked: &Linked,
    table: &ProgramTable,
    p: Turning,
) -> Result<(SoundStanding, Vec<Cmd>), EvalFault>
    requires events { f.now.events < 2 ^ 62 }
    requires table { table.now ≡ linked.now }
    requires linked { AreLinked table.now.lists.items }
    requires whole { IsWholeTurning table.now.lists.items p }
    ensures led { IfOk result (λ r. Leads (shown_frame f.now) (shown_progress table.now.lists.items p) r.1.items (shown_standing r.0)) }
    ensures counted { IfOk result (λ r. r.0.events ≡ f.now.events + length r.1.items) }
{
    let linked = linked.share()?;
    let mut p = p;
    go_on(alloc, f, table, &mut p)?;
    Ok(left_by(f, linked, p))
}

// Steps until none is possible.
fn go_on(alloc: Global, f: &Frame, table: &ProgramTable, p: &mut Turning) -> Result<(), EvalFault>
    requires events { f.now.events < 2 ^ 62 }
    requires linked { AreLinked table.now.lists.items }
    requires whole { IsWholeTurning table.now.lists.items p.old }
    ensures runs { OnOk result ((n : ℕ) × (model.steps n (shown_frame f.now) (shown_progress table.now.lists.items p.old) ≡ Some
        (shown_progress table.now.lists.items p.new))) }
    ensures whole { OnOk result (IsWholeTurning table.now.lists.items p.new) }
{
    loop {
        let steps = next(alloc, f, table, p)?;
        if !steps {
            return Ok(());
        }
    }
}

// One step of a run; says whether there was one.
fn next(alloc: Global, f: &Frame, table: &ProgramTable, p: &mut Turning) -> Result<bool, EvalFault>
    requires events { f.now.events < 2 ^ 62 }
    requires linked { AreLinked table.now.lists.items }
    requires whole { IsWholeTurning table.now.lists.items p.old }
    ensures step { IfOk result (λ steps. (if steps then Some (shown_progress table.now.lists.items p.new) else None) ≡ model.next
        (shown_frame f.now) (shown_progress table.now.lists.items p.old)) }
    ensures kept { IfOk result (λ steps. steps ≡ false
        → shown_progress table.now.lists.items p.new ≡ shown_progress table.now.lists.items p.old) }
    ensures whole { IfOk result (λ _. IsWholeTurning table.now.lists.items p.new) }
{
    if !is_open(p.state) {
        return Ok(false);
    }
    if is_finished(table, &p.cells) {
        ends(alloc, p, Cmd::Complete(Value::Text(Text::empty(alloc))))?;
        return Ok(true);
    }
    let steps = step_on(alloc, f, table, p)?;
    Ok(steps)
}

// The same of an open run of which something is left.
fn step_on(
    alloc: Global,
    f: &Frame,
    table: &ProgramTable,
    p: &mut Turning,
) -> Result<bool, EvalFault>
    requires events { f.now.events < 2 ^ 62 }
    requires linked { AreLinked table.now.lists.items }
    requires whole { IsWholeTurning table.now.lists.items p.old }
    requires is_open { configuration.is_open p.old.state ≡ true }
    requires going { is_done (rest_at table.now.lists.items p.old.cells.items) ≡ false }
    ensures step { IfOk result (λ steps. (if steps then Some (shown_progress table.now.lists.items p.new) else None) ≡ model.next
        (shown_frame f.now) (shown_progress table.now.lists.items p.old)) }
    ensures kept { IfOk result (λ steps. steps ≡ false
        → shown_progress table.now.lists.items p.new ≡ shown_progress table.now.lists.items p.old) }
    ensures whole { IfOk result (λ _. IsWholeTurning table.now.lists.items p.new) }
{
    match stepped(alloc, f, table, &p.asked, &mut p.store, &mut p.cells)? {
        Stepped::Stays => Ok(false),
        Stepped::Goes => Ok(true),
        Stepped::Asks(c) => {
            p.asked.push(Box::into_inner(c))?;
            Ok(true)
        }
        Stepped::Ends(c) => {
            ends(alloc, p, Box::into_inner(c))?;
            Ok(true)
        }
    }
}

// The step of the leftmost task or join that can.
fn stepped(
    alloc: Global,
    f: &Frame,
    table: &ProgramTable,
    asked: &[Cmd],
    t: &mut Store,
    cells: &mut Vec<Cell>,
) -> Result<Stepped, EvalFault>
    requires events { f.now.events < 2 ^ 62 }
    requires linked { AreLinked table.now.lists.items }
    requires sound { AreSound table.now.lists.items cells.old.items }
    ensures step { IfOk result (λ m. StepsFirst table.now.lists.items
        (setting_with (shown_frame f.now) (min (opens_in_all cells.old.items) 32)
        (length asked.now)) t.old cells.old.items t.new cells.new.items m) }
    ensures sound { IfOk result (λ m. KeepsSound table.now.lists.items cells.new.items m) }
{
    let s = Setting {
        declarations: f.declarations,
        at: f.at,
        is_first: f.is_first,
        waits: open_waits(cells),
        event: EventId::new(f.events + count(asked) + 1).unwrap(),
        answers: f.answers,
        taken: asked.len(),
    };
    let m = step(alloc, table, &s, t, cells)?;
    Ok(m)
}

// Whether nothing is left of a run.
fn is_finished(table: &ProgramTable, cells: &[Cell]) -> bool
    requires { AreSound table.now.lists.items cells.now }
    ensures { result ≡ is_done (rest_at table.now.lists.items cells.now) }
{
    match cells.first() {
        Some(cell) => is_over(table, cell),
        None => true,
    }
}

// How many waits are open, or 32 where they are more.
fn open_waits(cells: &[Cell]) -> u32
    ensures { result ≡ min (opens_in_all cells.now) 32 }
{
    let mut waits = 0;
    for c in cells {
        waits = one_more(waits, is_waiting(&c.doing));
    }
    waits
}

fn one_more(waits: u32, is_one: bool) -> u32
    requires { waits ≤ 32 }
    ensures { result ≡ min (waits + one_if is_one) 32 }
{
    if is_one { (waits + 1).min(32) } else { waits }
}

fn is_waiting(doing: &Doing) -> bool
    ensures { result ≡ is_waiting_in doing.now }
{
    match doing {
        Doing::OnActivity(_, _, _, _) => true,
        Doing::OnTimer(_) => true,
        Doing::OnSignal(_, _) => true,
        Doing::OnSignalFor(_, _, _, _) => true,
        _ => false,
    }
}

// A command closes a run, of which nothing is left then.
fn ends(alloc: Global, p: &mut Turning, c: Cmd) -> Result<(), EvalFault>
    ensures ends { OnOk result ((ls : _) → shown_progress ls p.new ≡ model.ended (shown_progress ls p.old) c) }
    ensures whole { OnOk result ((ls : _) → IsWholeTurning ls p.new) }
{
    p.state = effect_of_command(&c).leaves(State::Open);
    p.cells = Vec::new(alloc);
    p.asked.push(c)?;
    Ok(())
}

/// Whether a run is closed.
pub fn is_closed(state: State) -> bool
    ensures { result ≡ configuration.is_closed state }
{
    match state {
        State::Unbegun => false,
        State::Open => false,
        _ => true,
    }
}

fn is_open(state: State) -> bool
    ensures { result ≡ configuration.is_open state }
{
    match state {
        State::Open => true,
        _ => false,
    }
}

fn count(asked: &[Cmd]) -> u64
    ensures value { result ≡ length asked.now }
    ensures fits { result < 2 ^ 59 }
{
    asked.len() as u64
}

// Where a turn leaves a run.
fn left_by(f: &Frame, table: Linked, p: Turning) -> (SoundStanding, Vec<Cmd>)
    requires events { f.now.events < 2 ^ 62 }
    requires whole { IsWholeTurning table.lists.items p }
    ensures run { shown_standing result.0 ≡ model.left_by (shown_frame f.now) (shown_progress table.lists.items p) }
    ensures commands { result.1.items ≡ p.asked.items }
    ensures counted { result.0.events ≡ f.now.events + length p.asked.items }
{
    let Turning {
        cells,
        store,
        asked,
        state,
    } = p;
    let Store {
        variables,
        buffer,
        decided,
        tests: _,
    } = store;
    let standing = Standing {
        table,
        cells,
        variables,
        buffer,
        decided,
        events: f.events + count(&asked),
        moment: f.at,
        state,
    };
    (SoundStanding::of(standing), asked)
}

/// The open waits of tasks, from the left.
pub fn waits(alloc: Global, cells: &[Cell]) -> Result<Vec<OpenWait>, AllocError>
    ensures { IfOk result (λ ws. ws.items ≡ waits_in_all cells.now) }
{
    let mut list = Vec::new(alloc);
    for c in cells {
        let wait = wait_of(alloc, &c.doing)?;
        add_wait(&mut list, wait)?;
    }
    Ok(list)
}

fn add_wait(list: &mut Vec<OpenWait>, wait: Option<OpenWait>) -> Result<(), AllocError>
    ensures { OnOk result (MatchOption wait (list.new.items ≡ list.old.items) (λ w. list.new.items ≡ list.old.items ++ w ∷ [])) }
{
    match wait {
        Some(one) => {
            list.push(one)?;
            Ok(())
        }
        None => Ok(()),
    }
}

fn wait_of(alloc: Global, doing: &Doing) -> Result<Option<OpenWait>, AllocError>
    ensures { IfOk result (λ w. w ≡ wait_in doing.now) }
{
    match doing {
        Doing::OnActivity(n, x, k, _) => Ok(Some(OpenWait::Activity(*n, x.copy(alloc)?, *k))),
        Doing::OnTimer(n) => Ok(Some(OpenWait::Timer(*n))),
        Doing::OnSignal(x, s) => {
            let x = x.copy(alloc)?;
            Ok(Some(OpenWait::Signal(x, s.copy(alloc)?)))
        }
        Doing::OnSignalFor(x, s, n, _) => {
            let x = x.copy(alloc)?;
            Ok(Some(OpenWait::SignalFor(x, s.copy(alloc)?, n.get())))
        }
        _ => Ok(None),
    }
}
