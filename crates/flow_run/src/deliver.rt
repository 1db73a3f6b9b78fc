ghost use Rattle.std.specs.Prelude.{◌≡◌, ◌<◌, ◌+◌, ◌∷◌, ◌++◌, [], length, take, drop, slice_index_or, IfOk, IfSome, OnOk, OnErr, MatchOption, Some, None, is_some, true, false, if◌then◌else◌};
ghost use Rattle.flow_base.specs.Syntax.{signals_of};
ghost use Rattle.flow_base.specs.Shown.{shown_program};
ghost use Rattle.flow_nodes.specs.Links.{block_at};
ghost use Rattle.flow_values.specs.Named.{look_up};
ghost use Rattle.flow_values.specs.Slots.{slot_of};
ghost use Rattle.flow_model.specs.Rest as tree;
ghost use Rattle.flow_model.specs.Values.{none_set};
ghost use Rattle.flow_model.specs.Deliver as model;
ghost use Rattle.flow_run.specs.Marks.{within, onto};
ghost use Rattle.flow_run.specs.Flat.{AreSound, blocks_of, contents_of, marks_of, shown_doing, is_task};
ghost use Rattle.flow_run.specs.Waiting.{IsFirst, IsFirstOf, going_on, on_activity, on_timer, late_in, target_in, waits_itself};
ghost use Rattle.flow_run.specs.Position.{IsWholeTurning, shown_started, started_with, shown_progress};
ghost use Rattle.flow_run.specs.Whole.{IsWhole, shown_standing, rest_at};
ghost use Rattle.flow_run.specs.declared.cell.Cell.{Cell as ACell};

use crate::cell::{Cell, Doing, copy_cells};
use crate::decided::Decided;
use crate::places::enter;
use crate::setting::signal_fits;
use crate::standing::Standing;
use crate::store::Store;
use crate::walk::{branch, settle};
use flow_base::event::{Cause, Cmd, Input, State};
use flow_base::number::EventId;
use flow_base::syntax::{Parameter, Program};
use flow_base::text::{Key, Text};
use flow_base::value::{Kind, Value};
use flow_model::kinds::{all_fit, has_kind};
use flow_nodes::table::ProgramTable;
use flow_values::fault::EvalFault;
use flow_values::named::NamedValues;
use flow_values::slots::Slots;
use std::alloc::{AllocError, Global};
use std::sync::Arc;

/// A run within a turn.
#[derive(Drop)]
pub struct Turning {
    pub cells: Vec<Cell>,
    pub store: Store,
    /// The commands of this turn so far.
    pub asked: Vec<Cmd>,
    pub state: State,
}

/// A run begins with its arguments; none where they don't fit the parameters.
pub fn begin(
    alloc: Global,
    table: &ProgramTable,
    program: &Program,
    values: &[Value],
) -> Result<Option<Turning>, EvalFault>
    requires { block_at table.now.lists.items table.now.body ≡ (shown_program program.now).body }
    ensures started { IfOk result (λ o. shown_started table.now.lists.items o ≡ model.begun (shown_program program.now) values.now) }
    ensures whole { IfOk result (λ o. IfSome o (λ p. IsWholeTurning table.now.lists.items p)) }
    ensures err { OnErr result (model.all_fit (shown_program program.now).parameters values.now ≡ true) }
{
    if !all_fit(&program.parameters, values) {
        return Ok(None);
    }
    // Room for one: most runs stay one cell, and a list that grows makes room for four.
    let mut cells = Vec::with_capacity(alloc, 1)?;
    cells.push(branch(alloc, table, table.body)?)?;
    let variables = bind(alloc, &table.names, &program.parameters, values)?;
    Ok(Some(start_from(
        alloc,
        cells,
        variables,
        NamedValues::new(),
        Decided::new(alloc),
        State::Open,
    )))
}

// The parameters with their values; the last is set first.
fn bind(
    alloc: Global,
    names: &Arc<Vec<Key>>,
    parameters: &[Parameter],
    values: &[Value],
) -> Result<Slots, AllocError>
    ensures { IfOk result (λ vars. slot_of vars ≡ model.bound parameters.now values.now) }
{
    match parameters {
        [] => none_bound(names),
        [p, ps @ ..] => match values {
            [] => none_bound(names),
            [v, vs @ ..] => {
                let mut variables = bind(alloc, names, ps, vs)?;
                variables.set(alloc, &p.name, v.copy(alloc)?)?;
                Ok(variables)
            }
        },
    }
}

fn none_bound(names: &Arc<Vec<Key>>) -> Result<Slots, AllocError>
    ensures { IfOk result (λ vars. slot_of vars ≡ none_set) }
{
    let names = names.clone()?;
    Ok(Slots::new(names))
}

/// An input takes effect on a copy of a run that has begun; none where it can't be delivered.
pub fn deliver(
    alloc: Global,
    table: &ProgramTable,
    program: &Program,
    run: &Standing,
    input: &Input,
) -> Result<Option<Turning>, EvalFault>
    requires table { table.now ≡ run.now.table }
    requires whole { IsWhole run.now }
    ensures started { IfOk result (λ o. shown_started table.now.lists.items o ≡ model.deliver (shown_program program.now)
        (shown_standing run.now) input.now) }
    ensures whole { IfOk result (λ o. IfSome o (λ p. IsWholeTurning table.now.lists.items p)) }
    ensures err { OnErr result (is_some (model.deliver (shown_program program.now) (shown_standing run.now) input.now) ≡ true) }
{
    match input {
        Input::Started(_) => match run.state {
            // Not of a run that has begun.
            State::Unbegun => Ok(None),
            _ => Ok(None),
        },
        Input::ActivityCompleted(n, v) => match run.state {
            State::Open => complete(alloc, table, run, *n, v),
            _ => Ok(None),
        },
        Input::ActivityFailed(n, text) => match run.state {
            State::Open => fail(alloc, table, run, *n, text),
            _ => Ok(None),
        },
        Input::TimerFired(n) => match run.state {
            State::Open => fire(alloc, table, run, *n),
            _ => Ok(None),
        },
        Input::Signaled(name, _, v) => match run.state {
            State::Open => signal(alloc, table, program, run, name, v),
            _ => Ok(None),
        },
        Input::Terminated(_) => match run.state {
            State::Open => {
                let p = terminate(alloc, table, run)?;
                Ok(p)
            }
            _ => Ok(None),
        },
    }
}

// A run into which an input was delivered, none where it can't be, or want of memory.
type Delivered = Result<Option<Turning>, EvalFault>;

// A call gets its value and is over.
fn complete(alloc: Global, table: &ProgramTable, run: &Standing, n: EventId, v: &Value) -> Delivered
    requires table { table.now ≡ run.now.table }
    requires whole { IsWhole run.now }
    requires is_open { run.now.state ≡ State.Open }
    ensures started { IfOk result (λ o. shown_started table.now.lists.items o ≡ model.completed (shown_standing run.now) n v.now
        (model.target_of n (shown_standing run.now).rest)) }
    ensures whole { IfOk result (λ o. IfSome o (λ p. IsWholeTurning table.now.lists.items p)) }
    ensures err { OnErr result (is_some (model.completed (shown_standing run.now) n v.now
        (model.target_of n (shown_standing run.now).rest)) ≡ true) }
{
    match activity_at(&run.cells, n) {
        Some(i) => complete_at(alloc, table, run, n, v, i),
        None => Ok(None),
    }
}

// The same of the first task that waits on the activity.
fn complete_at(
    alloc: Global,
    table: &ProgramTable,
    run: &Standing,
    n: EventId,
    v: &Value,
    i: usize,
) -> Delivered
    requires table { table.now ≡ run.now.table }
    requires whole { IsWhole run.now }
    requires is_open { run.now.state ≡ State.Open }
    requires first { IsFirst (on_activity n) run.now.cells.items i }
    ensures started { IfOk result (λ o. shown_started table.now.lists.items o ≡ model.completed (shown_standing run.now) n v.now
        (model.target_of n (shown_standing run.now).rest)) }
    ensures whole { IfOk result (λ o. IfSome o (λ p. IsWholeTurning table.now.lists.items p)) }
    ensures err { OnErr result (is_some (model.completed (shown_standing run.now) n v.now
        (model.target_of n (shown_standing run.now).rest)) ≡ true) }
{
    match target(&run.cells[i].doing) {
        Some((into, kind)) => {
            if !has_kind(kind, v) {
                return Ok(None);
            }
            let mut p = gone_on(alloc, table, run, i, None, Doing::Over)?;
            p.store.variables.set(alloc, into, v.copy(alloc)?)?;
            Ok(Some(p))
        }
        None => Ok(None),
    }
}

// A call whose activity has failed does its `else`, or the run is to fail.
fn fail(alloc: Global, table: &ProgramTable, run: &Standing, n: EventId, text: &Text) -> Delivered
    requires table { table.now ≡ run.now.table }
    requires whole { IsWhole run.now }
    requires is_open { run.now.state ≡ State.Open }
    ensures started { IfOk result (λ o. shown_started table.now.lists.items o ≡ model.with_rest (shown_standing run.now)
        (model.replaced (model.when_failed n text.now) (shown_standing run.now).rest)) }
    ensures whole { IfOk result (λ o. IfSome o (λ p. IsWholeTurning table.now.lists.items p)) }
    ensures err { OnErr result (is_some (model.replaced (model.when_failed n text.now) (shown_standing run.now).rest) ≡ true) }
{
    match activity_at(&run.cells, n) {
        Some(i) => {
            let list = late(&run.cells[i].doing);
            let raised = Doing::Raised(Cause::ActivityFailed, text.copy(alloc)?);
            let p = gone_on(alloc, table, run, i, list, raised)?;
            Ok(Some(p))
        }
        None => Ok(None),
    }
}

// A sleep is over, or a wait for a signal does what is to be done where none came.
fn fire(alloc: Global, table: &ProgramTable, run: &Standing, n: EventId) -> Delivered
    requires table { table.now ≡ run.now.table }
    requires whole { IsWhole run.now }
    requires is_open { run.now.state ≡ State.Open }
    ensures started { IfOk result (λ o. shown_started table.now.lists.items o ≡ model.with_rest (shown_standing run.now)
        (model.replaced (model.when_fired n) (shown_standing run.now).rest)) }
    ensures whole { IfOk result (λ o. IfSome o (λ p. IsWholeTurning table.now.lists.items p)) }
    ensures err { OnErr result (is_some (model.replaced (model.when_fired n) (shown_standing run.now).rest) ≡ true) }
{
    match timer_at(&run.cells, n) {
        Some(i) => {
            let list = late(&run.cells[i].doing);
            let p = gone_on(alloc, table, run, i, list, Doing::Over)?;
            Ok(Some(p))
        }
        None => Ok(None),
    }
}

// A signal is put behind those that nobody took yet.
fn signal(
    alloc: Global,
    table: &ProgramTable,
    program: &Program,
    run: &Standing,
    name: &Key,
    v: &Value,
) -> Delivered
    requires table { table.now ≡ run.now.table }
    requires whole { IsWhole run.now }
    requires is_open { run.now.state ≡ State.Open }
    ensures started { IfOk result (λ o. shown_started table.now.lists.items o ≡
        (if model.signal_fits (signals_of (shown_program program.now).declarations) name.now v.now then Some
        (started_with (shown_standing run.now).rest (slot_of run.now.variables) (run.now.buffer ++ (name.now, v.now) ∷ [])
        (look_up run.now.decided) State.Open) else None)) }
    ensures whole { IfOk result (λ o. IfSome o (λ p. IsWholeTurning table.now.lists.items p)) }
    ensures err { OnErr result (model.signal_fits (signals_of (shown_program program.now).declarations) name.now v.now ≡ true) }
{
    if !signal_fits(&program.declarations, name, v) {
        return Ok(None);
    }
    let mut p = resumed(alloc, run)?;
    p.store.buffer.push(alloc, name, v.copy(alloc)?)?;
    Ok(Some(p))
}

fn terminate(alloc: Global, table: &ProgramTable, run: &Standing) -> Delivered
    ensures started { IfOk result (λ o. shown_started table.now.lists.items o ≡ Some
        (started_with tree.Done (slot_of run.now.variables) run.now.buffer (look_up run.now.decided) State.Terminated)) }
    ensures whole { IfOk result (λ o. IfSome o (λ p. IsWholeTurning table.now.lists.items p)) }
{
    let variables = run.variables.share()?;
    let buffer = run.buffer.share()?;
    let decided = run.decided.copy(alloc)?;
    let none = Vec::new(alloc);
    Ok(Some(start_from(alloc, none, variables, buffer, decided, State::Terminated)))
}

// A copy of an open run, in a turn that has asked nothing yet.
fn resumed(alloc: Global, run: &Standing) -> Result<Turning, AllocError>
    ensures cells { IfOk result (λ p. contents_of p.cells.items ≡ contents_of run.now.cells.items) }
    ensures shows { IfOk result (λ p. (ls : _) → shown_progress ls p ≡ started_with (rest_at ls p.cells.items)
        (slot_of run.now.variables) run.now.buffer (look_up run.now.decided) State.Open) }
{
    let cells = copy_cells(alloc, &run.cells)?;
    let variables = run.variables.share()?;
    let buffer = run.buffer.share()?;
    let decided = run.decided.copy(alloc)?;
    Ok(start_from(alloc, cells, variables, buffer, decided, State::Open))
}

fn start_from(
    alloc: Global,
    cells: Vec<Cell>,
    variables: Slots,
    buffer: NamedValues,
    decided: Decided,
    state: State,
) -> Turning
    ensures cells { result.cells ≡ cells }
    ensures shows { (ls : _) → shown_progress ls result ≡ started_with (rest_at ls cells.items) (slot_of variables) buffer
        (look_up decided) state }
{
    Turning {
        cells,
        store: Store {
            variables,
            buffer,
            decided,
            tests: 0,
        },
        asked: Vec::new(alloc),
        state,
    }
}

// A copy of an open run in which the task at a place does a list, or else this.
fn gone_on(
    alloc: Global,
    table: &ProgramTable,
    run: &Standing,
    i: usize,
    list: Option<usize>,
    other: Doing,
) -> Result<Turning, EvalFault>
    requires table { table.now ≡ run.now.table }
    requires whole { IsWhole run.now }
    requires there { i < length run.now.cells.items }
    requires waits { (c : ACell) → c ≡ slice_index_or run.now.cells.items i c → waits_itself c.doing ≡ true }
    requires task { is_task other ≡ true }
    ensures shows { IfOk result (λ p. (c : ACell) → c ≡ slice_index_or run.now.cells.items i c
        → onto (marks_of table.now.lists.items p.cells.items) [] ≡ onto (take i (marks_of table.now.lists.items run.now.cells.items))
        (within (blocks_of table.now.lists.items c.places.items) (going_on table.now.lists.items list other) ∷ onto
        (drop (i + 1) (marks_of table.now.lists.items run.now.cells.items)) [])) }
    ensures store { IfOk result (λ p. shown_progress table.now.lists.items p ≡ started_with (rest_at table.now.lists.items p.cells.items)
        (slot_of run.now.variables) run.now.buffer (look_up run.now.decided) State.Open) }
    ensures whole { IfOk result (λ p. IsWholeTurning table.now.lists.items p) }
{
    let mut p = resumed(alloc, run)?;
    go_on_as(alloc, table, &mut p.cells, i, list, other)?;
    Ok(p)
}

// The task at a place does a list, or else this.
fn go_on_as(
    alloc: Global,
    table: &ProgramTable,
    cells: &mut Vec<Cell>,
    i: usize,
    list: Option<usize>,
    other: Doing,
) -> Result<(), EvalFault>
    requires there { i < length cells.old.items }
    requires sound { AreSound table.now.lists.items cells.old.items }
    requires waits { (c : ACell) → c ≡ slice_index_or cells.old.items i c → waits_itself c.doing ≡ true }
    requires task { is_task other ≡ true }
    ensures shows { OnOk result ((c : ACell) → c ≡ slice_index_or cells.old.items i c
        → onto (marks_of table.now.lists.items cells.new.items) [] ≡ onto (take i (marks_of table.now.lists.items cells.old.items))
        (within (blocks_of table.now.lists.items c.places.items) (going_on table.now.lists.items list other) ∷ onto
        (drop (i + 1) (marks_of table.now.lists.items cells.old.items)) [])) }
    ensures sound { OnOk result (AreSound table.now.lists.items cells.new.items) }
{
    match list {
        Some(late) => {
            drop(other);
            begins(alloc, table, cells, i, late)?;
            Ok(())
        }
        None => {
            becomes(table, cells, i, other);
            Ok(())
        }
    }
}

// The task at a place does this.
fn becomes(table: &ProgramTable, cells: &mut Vec<Cell>, i: usize, doing: Doing)
    requires there { i < length cells.old.items }
    requires sound { AreSound table.now.lists.items cells.old.items }
    requires waits { (c : ACell) → c ≡ slice_index_or cells.old.items i c → waits_itself c.doing ≡ true }
    requires task { is_task doing ≡ true }
    ensures shows { (c : ACell) → c ≡ slice_index_or cells.old.items i c
        → onto (marks_of table.now.lists.items cells.new.items) [] ≡ onto (take i (marks_of table.now.lists.items cells.old.items))
        (within (blocks_of table.now.lists.items c.places.items) (shown_doing table.now.lists.items doing) ∷ onto
        (drop (i + 1) (marks_of table.now.lists.items cells.old.items)) []) }
    ensures sound { AreSound table.now.lists.items cells.new.items }
{
    cells[i].doing = doing;
    settle(table, cells, i);
}

// The task at a place does a list.
fn begins(
    alloc: Global,
    table: &ProgramTable,
    cells: &mut Vec<Cell>,
    i: usize,
    list: usize,
) -> Result<(), EvalFault>
    requires there { i < length cells.old.items }
    requires sound { AreSound table.now.lists.items cells.old.items }
    requires waits { (c : ACell) → c ≡ slice_index_or cells.old.items i c → waits_itself c.doing ≡ true }
    ensures shows { OnOk result ((c : ACell) → c ≡ slice_index_or cells.old.items i c
        → onto (marks_of table.now.lists.items cells.new.items) [] ≡ onto (take i (marks_of table.now.lists.items cells.old.items))
        (within (blocks_of table.now.lists.items c.places.items) (tree.rest_of (block_at table.now.lists.items list)) ∷ onto
        (drop (i + 1) (marks_of table.now.lists.items cells.old.items)) [])) }
    ensures sound { OnOk result (AreSound table.now.lists.items cells.new.items) }
{
    enter(alloc, table, &mut cells[i], list)?;
    settle(table, cells, i);
    Ok(())
}

// The first task that waits on an activity.
fn activity_at(cells: &[Cell], n: EventId) -> Option<usize>
    ensures { IsFirstOf (on_activity n) cells.now result }
{
    for (i, c) in cells.iter().enumerate() {
        if is_on_activity(&c.doing, n) {
            return Some(i);
        }
    }
    None
}

fn is_on_activity(doing: &Doing, n: EventId) -> bool
    ensures { result ≡ on_activity n doing.now }
{
    match doing {
        Doing::OnActivity(m, _, _, _) => *m == n.get(),
        _ => false,
    }
}

// The first task that waits on a timer.
fn timer_at(cells: &[Cell], n: EventId) -> Option<usize>
    ensures { IsFirstOf (on_timer n) cells.now result }
{
    for (i, c) in cells.iter().enumerate() {
        if is_on_timer(&c.doing, n) {
            return Some(i);
        }
    }
    None
}

fn is_on_timer(doing: &Doing, n: EventId) -> bool
    ensures { result ≡ on_timer n doing.now }
{
    match doing {
        Doing::OnTimer(m) => *m == n.get(),
        Doing::OnSignalFor(_, _, m, _) => m.get() == n.get(),
        _ => false,
    }
}

// The variable that waits on an activity, and the type that it wants.
fn target(doing: &Doing) -> Option<(&Key, Kind)>
    ensures { MatchOption result (target_in doing.now ≡ None) (λ t. target_in doing.now ≡ Some (t.0.now, t.1)) }
{
    match doing {
        Doing::OnActivity(_, into, kind, _) => Some((into, *kind)),
        _ => None,
    }
}

// The list that is done where what a task waits on fails, or comes too late.
fn late(doing: &Doing) -> Option<usize>
    ensures { result ≡ late_in doing.now }
{
    match doing {
        Doing::OnActivity(_, _, _, Some(late)) => Some(late.list),
        Doing::OnSignalFor(_, _, _, list) => Some(*list),
        _ => None,
    }
}
