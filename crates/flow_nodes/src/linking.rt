ghost use Rattle.std.specs.Prelude.{◌≡◌, ◌∷◌, [], ℕ, IfOk, OnOk, map};
ghost use Rattle.flow_base.specs.Shown.{shown_block, shown_program, shown_stmt, shown_braced, shown_branch, branches_of, Braced};
ghost use Rattle.flow_nodes.specs.Links.{AreLinked, Grows, IsLinked, LeadAll, LeadsTo, LinkEach, block_at};

use crate::table::{Links, Listing, ProgramTable};
use flow_base::syntax::{Block, Branch, Program, Stmt};
use flow_base::text::Key;
use std::alloc::{AllocError, Global};
use std::sync::Arc;

/// The table of a program.
pub fn table_of(alloc: Global, program: &Program) -> Result<ProgramTable, AllocError>
    ensures body { IfOk result (λ t. block_at t.lists.items t.body ≡ (shown_program program.now).body) }
    ensures linked { IfOk result (λ t. AreLinked t.lists.items) }
{
    let mut lists = Vec::new(alloc);
    let body = add_list(alloc, &program.body, &mut lists)?;
    let names = names_of(alloc, program)?;
    Ok(ProgramTable { lists, body, names })
}

// A list of statements, behind those within it; gives its number.
#[cycle(lists)]
fn add_list(
    alloc: Global,
    stmts: &Arc<Vec<Stmt>>,
    lists: &mut Vec<Listing>,
) -> Result<usize, AllocError>
    requires { AreLinked lists.old.items }
    ensures list { IfOk result (λ n. LeadsTo lists.new.items n (shown_block stmts.now.value.items)) }
    ensures grows { OnOk result (Grows lists.old.items lists.new.items) }
    ensures linked { OnOk result (AreLinked lists.new.items) }
{
    let mut links = Vec::new(alloc);
    let all = stmts.as_slice();
    for stmt in all {
        let within = add_within(alloc, stmt, lists)?;
        links.push(within)?;
    }
    let stmts = stmts.clone()?;
    let number = push_list(lists, Listing { stmts, links })?;
    Ok(number)
}

// One list more, whose statements have their links; gives its number.
fn push_list(lists: &mut Vec<Listing>, list: Listing) -> Result<usize, AllocError>
    requires linked { AreLinked lists.old.items }
    requires each { LinkEach lists.old.items list.stmts.value.items list.links.items }
    ensures list { IfOk result (λ n. LeadsTo lists.new.items n (shown_block list.stmts.value.items)) }
    ensures grows { OnOk result (Grows lists.old.items lists.new.items) }
    ensures linked { OnOk result (AreLinked lists.new.items) }
{
    let number = lists.len();
    lists.push(list)?;
    Ok(number)
}

// The lists within a statement.
#[cycle(lists)]
fn add_within(alloc: Global, stmt: &Stmt, lists: &mut Vec<Listing>) -> Result<Links, AllocError>
    requires { AreLinked lists.old.items }
    ensures links { IfOk result (λ k. IsLinked lists.new.items (shown_stmt stmt.now) k) }
    ensures grows { OnOk result (Grows lists.old.items lists.new.items) }
    ensures linked { OnOk result (AreLinked lists.new.items) }
{
    match stmt {
        Stmt::Call(_, _, _, _, _, _, Some(late)) => add_one(alloc, late, lists),
        Stmt::WaitSignalFor(_, _, _, _, _, late) => add_one(alloc, late, lists),
        Stmt::If(_, _, a, b) => {
            let links = add_one(alloc, a, lists)?;
            add_second(alloc, b, links, lists)
        }
        Stmt::While(_, _, b) => add_one(alloc, b, lists),
        Stmt::Parallel(_, first, others, _) => {
            let number = add_list(alloc, &first.body.list, lists)?;
            add_branches(alloc, others, number, lists)
        }
        Stmt::Patch(_, _, _, a, b) => {
            let links = add_one(alloc, a, lists)?;
            add_second(alloc, b, links, lists)
        }
        _ => Ok(none(alloc)),
    }
}

// No list.
fn none(alloc: Global) -> Links
    ensures { result.branches.items ≡ [] }
{
    Links {
        first: 0,
        second: 0,
        branches: Vec::new(alloc),
    }
}

#[cycle(lists)]
fn add_one(alloc: Global, a: &Block, lists: &mut Vec<Listing>) -> Result<Links, AllocError>
    requires { AreLinked lists.old.items }
    ensures list { IfOk result (λ k. LeadsTo lists.new.items k.first (shown_braced a.now).0 × (k.branches.items ≡ [])) }
    ensures grows { OnOk result (Grows lists.old.items lists.new.items) }
    ensures linked { OnOk result (AreLinked lists.new.items) }
{
    let first = add_list(alloc, &a.list, lists)?;
    Ok(Links {
        first,
        second: 0,
        branches: Vec::new(alloc),
    })
}

// A second list of the same statement.
#[cycle(lists)]
fn add_second(
    alloc: Global,
    b: &Block,
    links: Links,
    lists: &mut Vec<Listing>,
) -> Result<Links, AllocError>
    requires { AreLinked lists.old.items }
    ensures first { IfOk result (λ k. (a : _) → LeadsTo lists.old.items links.first a → LeadsTo lists.new.items k.first a) }
    ensures second { IfOk result (λ k. LeadsTo lists.new.items k.second (shown_braced b.now).0) }
    ensures branches { IfOk result (λ k. k.branches.items ≡ links.branches.items) }
    ensures grows { OnOk result (Grows lists.old.items lists.new.items) }
    ensures linked { OnOk result (AreLinked lists.new.items) }
{
    let second = add_list(alloc, &b.list, lists)?;
    let Links {
        first,
        second: _,
        branches,
    } = links;
    Ok(Links {
        first,
        second,
        branches,
    })
}

// The branches behind the first, which has this number.
#[cycle(lists)]
fn add_branches(
    alloc: Global,
    others: &[Branch],
    first: usize,
    lists: &mut Vec<Listing>,
) -> Result<Links, AllocError>
    requires { AreLinked lists.old.items }
    ensures branches { IfOk result (λ k. (b : ℕ × Braced) → LeadsTo lists.old.items first b.1.0
        → LeadAll lists.new.items k.branches.items (branches_of (b ∷ map shown_branch others.now))) }
    ensures grows { OnOk result (Grows lists.old.items lists.new.items) }
    ensures linked { OnOk result (AreLinked lists.new.items) }
{
    let mut branches = Vec::new(alloc);
    branches.push(first)?;
    for branch in others {
        let number = add_list(alloc, &branch.body.list, lists)?;
        branches.push(number)?;
    }
    Ok(Links {
        first: 0,
        second: 0,
        branches,
    })
}

// So many names at most have a number from the first: a text with more is read no slower for that.
const MOST_NAMES: usize = 64;

// The names of parameters, and of variables in the order in which statements give them a value.
fn names_of(alloc: Global, program: &Program) -> Result<Arc<Vec<Key>>, AllocError> {
    let mut names = Vec::new(alloc);
    for p in &program.parameters {
        add_name(alloc, &mut names, &p.name)?;
    }
    add_names(alloc, program.body.as_slice(), &mut names)?;
    Ok(Arc::new(alloc, names)?)
}

fn add_name(alloc: Global, names: &mut Vec<Key>, name: &Key) -> Result<(), AllocError> {
    if names.len() < MOST_NAMES && !is_among(names, name) {
        names.push(name.copy(alloc)?)?;
    }
    Ok(())
}

fn is_among(names: &[Key], name: &Key) -> bool {
    for n in names {
        if n.is(name) {
            return true;
        }
    }
    false
}

#[cycle(names)]
fn add_names(alloc: Global, stmts: &[Stmt], names: &mut Vec<Key>) -> Result<(), AllocError> {
    for stmt in stmts {
        add_names_within(alloc, stmt, names)?;
    }
    Ok(())
}

#[cycle(names)]
fn add_names_within(alloc: Global, stmt: &Stmt, names: &mut Vec<Key>) -> Result<(), AllocError> {
    match stmt {
        Stmt::Let(_, _, x, _) => add_name(alloc, names, x),
        Stmt::Call(_, x, _, _, _, _, None) => add_name(alloc, names, x),
        Stmt::Call(_, x, _, _, _, _, Some(late)) => {
            add_name(alloc, names, x)?;
            add_names(alloc, late.list.as_slice(), names)
        }
        Stmt::WaitSignal(_, x, _, _) => add_name(alloc, names, x),
        Stmt::WaitSignalFor(_, x, _, _, _, late) => {
            add_name(alloc, names, x)?;
            add_names(alloc, late.list.as_slice(), names)
        }
        Stmt::If(_, _, a, b) => {
            add_names(alloc, a.list.as_slice(), names)?;
            add_names(alloc, b.list.as_slice(), names)
        }
        Stmt::While(_, _, b) => add_names(alloc, b.list.as_slice(), names),
        Stmt::Parallel(_, first, others, _) => {
            add_names(alloc, first.body.list.as_slice(), names)?;
            for branch in others {
                add_names(alloc, branch.body.list.as_slice(), names)?;
            }
            Ok(())
        }
        Stmt::Patch(_, _, _, a, b) => {
            add_names(alloc, a.list.as_slice(), names)?;
            add_names(alloc, b.list.as_slice(), names)
        }
        _ => Ok(()),
    }
}
