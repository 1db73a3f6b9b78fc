//! What runs have taken: their requests, and the flows of those that are marked as open.
ghost use Rattle.std.specs.Prelude.{◌≡◌, ◌||◌, [], List, OnOk, bytes_eq};
ghost use Rattle.std.specs.List.{list_any};
ghost use Rattle.flow_base.specs.Syntax.{Bytes};
ghost use Rattle.flow_rows.specs.declared.rows.RunRow.{RunRow as ARow};
ghost use Rattle.flow_rows.specs.Damages as rule;
ghost use Rattle.flow_rows.specs.Damages.{is_open_of};
ghost use Rattle.flow_rows.specs.Taken.{HasTaken, Takes, has_taken_request, has_taken_flow};

use crate::rows::RunRow;
use indexmap::IndexSet;
use std::alloc::{AllocError, Global};

/// The requests of the runs so far, and the flows of those among them that are marked as open. The names are copies, so that the rows
/// that had them may go.
#[derive(Drop)]
pub struct NamesInUse {
    requests: IndexSet<String>,
    flows: IndexSet<String>,
}

impl NamesInUse {
    /// No run has taken anything.
    pub fn none(alloc: Global) -> NamesInUse
        ensures { HasTaken result [] }
    {
        NamesInUse {
            requests: IndexSet::new(alloc),
            flows: IndexSet::new(alloc),
        }
    }

    fn add_request(&mut self, alloc: Global, request: &str) -> Result<(), AllocError>
        ensures requests { OnOk result ((x : Bytes)
            → has_taken_request self.new x ≡ (has_taken_request self.old x || bytes_eq request.now x)) }
        ensures flows { OnOk result (self.new.flows ≡ self.old.flows) }
    {
        let name = String::from_str(alloc, request)?;
        self.requests.insert(name)?;
        Ok(())
    }

    fn add_flow(&mut self, alloc: Global, flow: &str) -> Result<(), AllocError>
        ensures requests { OnOk result (self.new.requests ≡ self.old.requests) }
        ensures flows { OnOk result ((x : Bytes) → has_taken_flow self.new x ≡ (has_taken_flow self.old x || bytes_eq flow.now x)) }
    {
        let name = String::from_str(alloc, flow)?;
        self.flows.insert(name)?;
        Ok(())
    }

    /// One more run.
    pub fn add(&mut self, alloc: Global, run: &RunRow) -> Result<(), AllocError>
        ensures { OnOk result (Takes self.old run.now self.new) }
    {
        self.add_request(alloc, run.req.as_str())?;
        if run.isopen == 1 {
            self.add_flow(alloc, run.flow.as_str())?;
        }
        Ok(())
    }

    /// Whether a run has this request.
    pub fn has_request(&self, request: &str) -> bool
        ensures { (before : List ARow) → HasTaken self.now before → result ≡ list_any (rule.has_request request.now) before }
    {
        self.requests.contains(request)
    }

    /// Whether a run of a flow is marked as open.
    pub fn has_flow(&self, flow: &str) -> bool
        ensures { (before : List ARow) → HasTaken self.now before → result ≡ list_any (is_open_of flow.now) before }
    {
        self.flows.contains(flow)
    }
}
