ghost use Rattle.std.specs.Prelude.{◌≡◌, ◌<◌, length, Some, slice_get};
ghost use Rattle.flow_nodes.specs.Links.{stmts_at, links_at};

use flow_base::syntax::Stmt;
use flow_base::text::Key;
use std::sync::Arc;

/// The lists within a statement, by their numbers: the first, the second, or those of its branches.
#[derive(Debug, Drop)]
pub struct Links {
    pub first: usize,
    pub second: usize,
    pub branches: Vec<usize>,
}

/// A list of statements, and what each links to.
#[derive(Debug, Drop)]
pub struct Listing {
    pub stmts: Arc<Vec<Stmt>>,
    pub links: Vec<Links>,
}

/// All lists of statements of a program, by number.
#[derive(Debug, Drop)]
pub struct ProgramTable {
    pub lists: Vec<Listing>,
    /// The number of the program's body.
    pub body: usize,
    /// Names of variables, the first ones of the text: values are kept by their numbers here.
    pub names: Arc<Vec<Key>>,
}

impl ProgramTable {
    /// The statements of a list.
    pub fn stmts(&self, list: usize) -> &[Stmt]
        ensures { result.now ≡ stmts_at self.now.lists.items list }
    {
        match self.lists.get(list) {
            Some(l) => l.stmts.as_slice(),
            None => &[],
        }
    }

    /// What the statements of a list link to.
    pub fn links(&self, list: usize) -> &[Links]
        ensures { result.now ≡ links_at self.now.lists.items list }
    {
        match self.lists.get(list) {
            Some(l) => &l.links,
            None => &[],
        }
    }

    /// The statement at a place of a list.
    pub fn stmt(&self, list: usize, at: usize) -> &Stmt
        requires { at < length (stmts_at self.now.lists.items list) }
        ensures { slice_get (stmts_at self.now.lists.items list) at ≡ Some result.now }
    {
        &self.stmts(list)[at]
    }

    /// What the statement at a place of a list links to.
    pub fn link(&self, list: usize, at: usize) -> &Links
        requires { at < length (links_at self.now.lists.items list) }
        ensures { slice_get (links_at self.now.lists.items list) at ≡ Some result.now }
    {
        &self.links(list)[at]
    }
}
