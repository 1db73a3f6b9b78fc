ghost use Rattle.std.specs.Prelude.{◌≡◌, true, ◌++◌, map, drop, option_map, OnOk};
ghost use Rattle.flow_base.specs.Shown.{shown_expr, shown_stmt, shown_braced, shown_branch, shown_block, shown_otherwise, branches_of};
ghost use Rattle.flow_base.specs.Syntax.{Next, End};
ghost use Rattle.flow_model.specs.WellFormed.{earliest, fault_at_first, branch_places, faults_of_block, faults_of_otherwise, faults_of_branches, faults_of_assigned, faults_of_call, faults_of_arguments, faults_of_retry, out_of_range, unknown_signal, wrong_count, given};
ghost use Rattle.flow_check.specs.Tables.{types_of, signals_of, shown_scope, shown_signature, kinds_wanted, Checks, Notes, ends_within, faults_of_argument};

use crate::expression::{beginning, check_expression, check_kind, check_wanted};
use crate::first::FirstFault;
use crate::scope::{Scope, Signature};
use crate::wanted::Wanted;
use flow_base::code::Code;
use flow_base::syntax::{Block, Branch, Expr, Retry, Stmt};
use flow_base::text::Key;
use flow_base::value::Kind;
use std::alloc::AllocError;

/// The most attempts of a call.
const MOST_TRIES: u64 = 20;

/// The most branches of a parallel block behind its first one.
const MOST_OTHERS: usize = 7;

/// The longest pause between two attempts of a call, in milliseconds: a day.
const LONGEST_PAUSE: u64 = 86_400_000;

/// Notes the faults of a list of statements, which may stand within a parallel block.
#[cycle(checks)]
pub fn check_statements<'a>(
    scope: &mut Scope<'a>,
    statements: &'a [Stmt],
    in_parallel: bool,
    found: &mut FirstFault,
) -> Result<(), AllocError>
    ensures { OnOk result (Checks in_parallel scope.old found.old (shown_block statements.now) scope.new found.new) }
{
    for statement in statements {
        check_statement(scope, statement, in_parallel, found)?;
    }
    Ok(())
}

#[cycle(checks)]
fn check_statement<'a>(
    scope: &mut Scope<'a>,
    statement: &'a Stmt,
    in_parallel: bool,
    found: &mut FirstFault,
) -> Result<(), AllocError>
    ensures { OnOk result (Checks in_parallel scope.old found.old (Next (shown_stmt statement.now) End) scope.new found.new) }
{
    match statement {
        Stmt::Let(_, _, name, value) => {
            let kind = check_expression(scope, value, found);
            scope.add_variable(name, kind)?;
        }
        Stmt::Assign(at, name, value) => {
            let kind = check_expression(scope, value, found);
            check_assigned(scope.variable(name), *at, kind, beginning(value), found);
        }
        Stmt::Call(at, name, activity_at, activity, arguments, retry, otherwise) => {
            let signature = scope.activity(activity);
            check_call(scope, signature, *activity_at, arguments, found);
            check_assigned(scope.variable(name), *at, gives(signature), *at, found);
            check_retry(retry, found);
            check_otherwise(scope, otherwise, in_parallel, found)?;
        }
        Stmt::WaitSignal(at, name, signal_at, signal) => {
            check_wait(scope, *at, name, *signal_at, signal, found);
        }
        Stmt::WaitSignalFor(at, name, signal_at, signal, delay, late) => {
            check_wait(scope, *at, name, *signal_at, signal, found);
            check_wanted(scope, Kind::Int, delay, found);
            check_inner(scope, late, in_parallel, found)?;
        }
        Stmt::Sleep(_, delay) => check_wanted(scope, Kind::Int, delay, found),
        Stmt::If(_, condition, then, otherwise) => {
            check_wanted(scope, Kind::Int, condition, found);
            check_inner(scope, then, in_parallel, found)?;
            check_inner(scope, otherwise, in_parallel, found)?;
        }
        Stmt::While(_, condition, body) => {
            check_wanted(scope, Kind::Int, condition, found);
            check_inner(scope, body, in_parallel, found)?;
        }
        Stmt::Parallel(_, first, others, _) => {
            check_branch_count(others, found);
            check_inner(scope, &first.body, true, found)?;
            check_branches(scope, others, found)?;
        }
        Stmt::Patch(_, _, _, since, before) => {
            check_inner(scope, since, in_parallel, found)?;
            check_inner(scope, before, in_parallel, found)?;
        }
        Stmt::Deprecate(_at, _, _) => {}
        Stmt::Return(at, value) => {
            check_expression(scope, value, found);
            check_end(in_parallel, *at, found);
        }
        Stmt::FailWith(at, text) => {
            check_wanted(scope, Kind::Text, text, found);
            check_end(in_parallel, *at, found);
        }
        Stmt::Continue(at, arguments) => {
            let wanted = Wanted::Parameters(scope.parameters());
            check_applied(scope, arguments, wanted, *at, found);
            check_end(in_parallel, *at, found);
        }
    }
    Ok(())
}

/// Notes the faults of a list within a statement. Behind it the same is known as before it.
#[cycle(checks)]
fn check_inner<'a>(
    scope: &mut Scope<'a>,
    block: &'a Block,
    in_parallel: bool,
    found: &mut FirstFault,
) -> Result<(), AllocError>
    ensures { OnOk result (Notes scope.old found.old
        (faults_of_block (shown_scope in_parallel scope.old) (shown_braced block.now).0) scope.new found.new) }
{
    let visible = scope.visible();
    check_statements(scope, block.list.as_slice(), in_parallel, found)?;
    scope.forget_beyond(visible);
    Ok(())
}

/// Notes the faults of what is done where a call fails, if that is said.
#[cycle(checks)]
fn check_otherwise<'a>(
    scope: &mut Scope<'a>,
    otherwise: &'a Option<Block>,
    in_parallel: bool,
    found: &mut FirstFault,
) -> Result<(), AllocError>
    ensures { OnOk result (Notes scope.old found.old
        (faults_of_otherwise (shown_scope in_parallel scope.old) (shown_otherwise otherwise.now)) scope.new found.new) }
{
    match otherwise {
        None => Ok(()),
        Some(block) => check_inner(scope, block, in_parallel, found),
    }
}

/// Notes the faults of branches.
#[cycle(checks)]
fn check_branches<'a>(
    scope: &mut Scope<'a>,
    branches: &'a [Branch],
    found: &mut FirstFault,
) -> Result<(), AllocError>
    ensures { OnOk result (Notes scope.old found.old
        (faults_of_branches (shown_scope true scope.old) (branches_of (map shown_branch branches.now))) scope.new found.new) }
{
    for branch in branches {
        check_inner(scope, &branch.body, true, found)?;
    }
    Ok(())
}

/// Notes the branch with which there are too many, of those behind the first.
fn check_branch_count(others: &Vec<Branch>, found: &mut FirstFault)
    ensures { found.new ≡ earliest found.old (fault_at_first Code.TooManyBranches
        (drop MOST_OTHERS (branch_places (branches_of (map shown_branch others.now.items))))) }
{
    if let Some(beyond) = others.get(MOST_OTHERS) {
        found.note(Code::TooManyBranches, beyond.at);
    }
}

/// Notes a statement that ends the run within a parallel block.
fn check_end(in_parallel: bool, at: usize, found: &mut FirstFault)
    ensures { found.new ≡ earliest found.old (ends_within in_parallel at) }
{
    if in_parallel {
        found.note(Code::EndsInParallel, at);
    }
}

/// Notes the faults of a wait but those of its delay and of what is done behind it.
fn check_wait(
    scope: &Scope,
    at: usize,
    name: &Key,
    signal_at: usize,
    signal: &Key,
    found: &mut FirstFault,
)
    ensures { found.new ≡ earliest found.old (unknown_signal (signals_of scope.now signal.now) signal_at ++ faults_of_assigned
        (types_of scope.now name.now) at (signals_of scope.now signal.now) at) }
{
    let carried = scope.signal(signal);
    check_signal(carried, signal_at, found);
    check_assigned(scope.variable(name), at, carried, at, found);
}

/// Notes a variable that isn't visible where it is assigned, and a value of another type at the place of the value.
fn check_assigned(
    known: Option<Option<Kind>>,
    at: usize,
    kind: Option<Kind>,
    value_at: usize,
    found: &mut FirstFault,
)
    ensures { found.new ≡ earliest found.old (faults_of_assigned known at kind value_at) }
{
    match known {
        None => found.note(Code::NotVisible, at),
        Some(None) => {}
        Some(Some(wanted)) => check_kind(kind, wanted, value_at, found),
    }
}

/// Notes the faults of a call but those of its result and of how often it is tried.
fn check_call(
    scope: &Scope,
    signature: Option<Signature>,
    at: usize,
    arguments: &[Expr],
    found: &mut FirstFault,
)
    ensures { found.new ≡ earliest found.old (faults_of_call (types_of scope.now) (option_map shown_signature signature.entry) at
        (map shown_expr arguments.now)) }
{
    match signature {
        None => {
            found.note(Code::NotDeclared, at);
            check_arguments(scope, arguments, Wanted::Types(&[]), found);
        }
        Some(signature) => {
            check_applied(scope, arguments, Wanted::Types(signature.takes), at, found);
        }
    }
}

fn gives(signature: Option<Signature>) -> Option<Kind>
    ensures { result ≡ given (option_map shown_signature signature.entry) }
{
    match signature {
        None => None,
        Some(signature) => Some(signature.gives),
    }
}

/// Notes a number of attempts and a pause between them that are out of their ranges.
fn check_retry(retry: &Retry, found: &mut FirstFault)
    ensures { found.new ≡ earliest found.old (faults_of_retry retry.now) }
{
    check_range(1, MOST_TRIES, retry.tries, retry.tries_at, found);
    check_range(0, LONGEST_PAUSE, retry.every, retry.every_at, found);
}

/// Notes a number that is out of its range.
fn check_range(least: u64, most: u64, number: u64, at: usize, found: &mut FirstFault)
    ensures { found.new ≡ earliest found.old (out_of_range least most number at) }
{
    if number < least || most < number {
        found.note(Code::BadRetry, at);
    }
}

/// Notes a signal that isn't declared.
fn check_signal(carried: Option<Kind>, at: usize, found: &mut FirstFault)
    ensures { found.new ≡ earliest found.old (unknown_signal carried at) }
{
    match carried {
        None => found.note(Code::NotDeclared, at),
        Some(_) => {}
    }
}

/// Notes another number of arguments than is wanted, and then the faults of the arguments.
fn check_applied(
    scope: &Scope,
    arguments: &[Expr],
    wanted: Wanted,
    at: usize,
    found: &mut FirstFault,
)
    ensures { found.new ≡ earliest found.old (wrong_count (kinds_wanted wanted.entry)
        (map shown_expr arguments.now) at ++ faults_of_arguments (types_of scope.now) (kinds_wanted wanted.entry)
        (map shown_expr arguments.now)) }
{
    check_count(arguments, wanted, at, found);
    check_arguments(scope, arguments, wanted, found);
}

/// Notes another number of arguments than of types.
fn check_count(arguments: &[Expr], wanted: Wanted, at: usize, found: &mut FirstFault)
    ensures { found.new ≡ earliest found.old (wrong_count (kinds_wanted wanted.entry) (map shown_expr arguments.now) at) }
{
    if arguments.len() != wanted.count() {
        found.note(Code::BadCount, at);
    }
}

/// Notes the faults of arguments, and those of another type than the one at their position.
fn check_arguments(scope: &Scope, arguments: &[Expr], wanted: Wanted, found: &mut FirstFault)
    ensures { found.new ≡ earliest found.old (faults_of_arguments (types_of scope.now) (kinds_wanted wanted.entry)
        (map shown_expr arguments.now)) }
{
    for (i, argument) in arguments.iter().enumerate() {
        check_argument(scope, wanted.kind_at(i), argument, found);
    }
}

/// Notes the faults of an argument, and another type than the wanted one, if one is wanted.
fn check_argument(scope: &Scope, wanted: Option<Kind>, argument: &Expr, found: &mut FirstFault)
    ensures { found.new ≡ earliest found.old (faults_of_argument (types_of scope.now) wanted (shown_expr argument.now)) }
{
    match wanted {
        None => {
            check_expression(scope, argument, found);
        }
        Some(wanted) => check_wanted(scope, wanted, argument, found),
    }
}
