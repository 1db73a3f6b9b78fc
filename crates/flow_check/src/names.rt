ghost use Rattle.std.specs.Prelude.{◌≡◌, ◌+◌, ◌≤◌, min, [], ◌∷◌, map, drop, OnOk};
ghost use Rattle.flow_base.specs.Shown.{shown_program, shown_declaration, shown_stmt, shown_braced, shown_branch, shown_block, shown_otherwise, branches_of};
ghost use Rattle.flow_model.specs.WellFormed.{named, variables, activities, signals, patches, names_of, names_of_statement, names_of_block, names_of_otherwise, names_of_branches, name_of_parameter, name_of_declared, faults_of_names, faults_of_declared, faults_of_declarations, earliest, fault_at_first};
ghost use Rattle.flow_check.specs.Tables.{Lists, Declares, noted_name};

use crate::first::FirstFault;
use flow_base::code::Code;
use flow_base::syntax::{Block, Branch, Declaration, Parameter, Program, Stmt, TypeAt};
use flow_base::text::Key;
use indexmap::IndexSet;
use std::alloc::{AllocError, Global};

/// The most names that a program declares, and the most types that an activity takes.
pub const LIMIT: usize = 256;

/// The names that are declared so far, those of each space numbered in the order of their declarations.
#[derive(Drop)]
struct Names<'a> {
    variables: IndexSet<&'a str>,
    activities: IndexSet<&'a str>,
    signals: IndexSet<&'a str>,
    patches: IndexSet<&'a str>,
    /// How many declarations there were, but no more than one above the limit.
    count: usize,
}

impl<'a> Names<'a> {
    fn none(alloc: Global) -> Names<'a>
        ensures { Lists result [] }
    {
        Names {
            variables: IndexSet::new(alloc),
            activities: IndexSet::new(alloc),
            signals: IndexSet::new(alloc),
            patches: IndexSet::new(alloc),
            count: 0,
        }
    }

    fn variable(
        &mut self,
        at: usize,
        name: &'a Key,
        found: &mut FirstFault,
    ) -> Result<(), AllocError>
        ensures { OnOk result (Declares self.old found.old (named variables at name.now ∷ []) self.new found.new) }
    {
        let is_new = self.variables.insert(name.as_str())?;
        self.declares(is_new, Code::DeclaredTwice, at, found);
        Ok(())
    }

    fn activity(
        &mut self,
        at: usize,
        name: &'a Key,
        found: &mut FirstFault,
    ) -> Result<(), AllocError>
        ensures { OnOk result (Declares self.old found.old (named activities at name.now ∷ []) self.new found.new) }
    {
        let is_new = self.activities.insert(name.as_str())?;
        self.declares(is_new, Code::DeclaredTwice, at, found);
        Ok(())
    }

    fn signal(&mut self, at: usize, name: &'a Key, found: &mut FirstFault) -> Result<(), AllocError>
        ensures { OnOk result (Declares self.old found.old (named signals at name.now ∷ []) self.new found.new) }
    {
        let is_new = self.signals.insert(name.as_str())?;
        self.declares(is_new, Code::DeclaredTwice, at, found);
        Ok(())
    }

    fn patch(&mut self, at: usize, id: &'a Key, found: &mut FirstFault) -> Result<(), AllocError>
        ensures { OnOk result (Declares self.old found.old (named patches at id.now ∷ []) self.new found.new) }
    {
        let is_new = self.patches.insert(id.as_str())?;
        self.declares(is_new, Code::PatchTwice, at, found);
        Ok(())
    }

    /// One more name, with the number of the fault that it is where there was such a name before.
    fn declares(&mut self, is_new: bool, twice: Code, at: usize, found: &mut FirstFault)
        ensures variables { self.new.variables ≡ self.old.variables }
        ensures activities { self.new.activities ≡ self.old.activities }
        ensures signals { self.new.signals ≡ self.old.signals }
        ensures patches { self.new.patches ≡ self.old.patches }
        ensures count { self.old.count ≤ 257 → self.new.count ≡ min (self.old.count + 1) 257 }
        ensures noted { found.new ≡ earliest found.old (noted_name is_new twice self.old.count at) }
    {
        if !is_new {
            found.note(twice, at);
        }
        if self.count <= LIMIT {
            if self.count == LIMIT {
                found.note(Code::TooManyNames, at);
            }
            self.count += 1;
        }
    }
}

/// Notes each name that is declared a second time, and the one with which there are too many.
pub fn check_names(
    alloc: Global,
    program: &Program,
    found: &mut FirstFault,
) -> Result<(), AllocError>
    ensures { OnOk result (found.new ≡ earliest found.old (faults_of_names [] (names_of (shown_program program.now)))) }
{
    let mut names = Names::none(alloc);
    parameter_names(&mut names, &program.parameters, found)?;
    declaration_names(&mut names, &program.declarations, found)?;
    statement_names(&mut names, program.body.as_slice(), found)
}

fn parameter_names<'a>(
    names: &mut Names<'a>,
    parameters: &'a [Parameter],
    found: &mut FirstFault,
) -> Result<(), AllocError>
    ensures { OnOk result (Declares names.old found.old (map name_of_parameter parameters.now) names.new found.new) }
{
    for parameter in parameters {
        names.variable(parameter.at, &parameter.name, found)?;
    }
    Ok(())
}

fn declaration_names<'a>(
    names: &mut Names<'a>,
    declarations: &'a [Declaration],
    found: &mut FirstFault,
) -> Result<(), AllocError>
    ensures { OnOk result (Declares names.old found.old
        (map name_of_declared (map shown_declaration declarations.now)) names.new found.new) }
{
    for declaration in declarations {
        declaration_name(names, declaration, found)?;
    }
    Ok(())
}

fn declaration_name<'a>(
    names: &mut Names<'a>,
    declaration: &'a Declaration,
    found: &mut FirstFault,
) -> Result<(), AllocError>
    ensures { OnOk result (Declares names.old found.old (name_of_declared (shown_declaration declaration.now) ∷ []) names.new found.new) }
{
    match declaration {
        Declaration::Activity(_, name_at, name, _, _) => names.activity(*name_at, name, found),
        Declaration::Signal(_, name_at, name, _) => names.signal(*name_at, name, found),
    }
}

#[cycle(names)]
fn statement_names<'a>(
    names: &mut Names<'a>,
    statements: &'a [Stmt],
    found: &mut FirstFault,
) -> Result<(), AllocError>
    ensures { OnOk result (Declares names.old found.old (names_of_block (shown_block statements.now)) names.new found.new) }
{
    for statement in statements {
        statement_name(names, statement, found)?;
    }
    Ok(())
}

#[cycle(names)]
fn statement_name<'a>(
    names: &mut Names<'a>,
    statement: &'a Stmt,
    found: &mut FirstFault,
) -> Result<(), AllocError>
    ensures { OnOk result (Declares names.old found.old (names_of_statement (shown_stmt statement.now)) names.new found.new) }
{
    match statement {
        Stmt::Let(_, name_at, name, _) => names.variable(*name_at, name, found),
        Stmt::Assign(_, _, _) => Ok(()),
        Stmt::Call(_, _, _, _, _, _, otherwise) => otherwise_names(names, otherwise, found),
        Stmt::WaitSignal(_, _, _, _) => Ok(()),
        Stmt::WaitSignalFor(_, _, _, _, _, late) => block_names(names, late, found),
        Stmt::Sleep(_, _) => Ok(()),
        Stmt::If(_, _, then, otherwise) => {
            block_names(names, then, found)?;
            block_names(names, otherwise, found)
        }
        Stmt::While(_, _, body) => block_names(names, body, found),
        Stmt::Parallel(_, first, others, _) => {
            block_names(names, &first.body, found)?;
            branch_names(names, others, found)
        }
        Stmt::Patch(_, id_at, id, since, before) => {
            names.patch(*id_at, id, found)?;
            block_names(names, since, found)?;
            block_names(names, before, found)
        }
        Stmt::Deprecate(_, id_at, id) => names.patch(*id_at, id, found),
        Stmt::Return(_, _) => Ok(()),
        Stmt::FailWith(_, _) => Ok(()),
        Stmt::Continue(_, _) => Ok(()),
    }
}

#[cycle(names)]
fn block_names<'a>(
    names: &mut Names<'a>,
    block: &'a Block,
    found: &mut FirstFault,
) -> Result<(), AllocError>
    ensures { OnOk result (Declares names.old found.old (names_of_block (shown_braced block.now).0) names.new found.new) }
{
    statement_names(names, block.list.as_slice(), found)
}

#[cycle(names)]
fn otherwise_names<'a>(
    names: &mut Names<'a>,
    otherwise: &'a Option<Block>,
    found: &mut FirstFault,
) -> Result<(), AllocError>
    ensures { OnOk result (Declares names.old found.old (names_of_otherwise (shown_otherwise otherwise.now)) names.new found.new) }
{
    match otherwise {
        None => Ok(()),
        Some(block) => block_names(names, block, found),
    }
}

#[cycle(names)]
fn branch_names<'a>(
    names: &mut Names<'a>,
    branches: &'a [Branch],
    found: &mut FirstFault,
) -> Result<(), AllocError>
    ensures { OnOk result (Declares names.old found.old
        (names_of_branches (branches_of (map shown_branch branches.now))) names.new found.new) }
{
    for branch in branches {
        block_names(names, &branch.body, found)?;
    }
    Ok(())
}

/// Notes each type with which an activity takes too many.
pub fn check_types(declarations: &[Declaration], found: &mut FirstFault)
    ensures { found.new ≡ earliest found.old (faults_of_declarations (map shown_declaration declarations.now)) }
{
    for declaration in declarations {
        check_declaration(declaration, found);
    }
}

fn check_declaration(declaration: &Declaration, found: &mut FirstFault)
    ensures { found.new ≡ earliest found.old (faults_of_declared (shown_declaration declaration.now)) }
{
    match declaration {
        Declaration::Activity(_, _, _, takes, _) => check_takes(takes, found),
        Declaration::Signal(_, _, _, _) => {}
    }
}

fn check_takes(takes: &Vec<TypeAt>, found: &mut FirstFault)
    ensures { found.new ≡ earliest found.old (fault_at_first Code.TooManyNames (map (λ t. t.at) (drop LIMIT takes.now.items))) }
{
    if let Some(beyond) = takes.get(LIMIT) {
        found.note(Code::TooManyNames, beyond.at);
    }
}
