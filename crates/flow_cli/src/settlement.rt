//! What `flow settle` says of two texts.
ghost use Rattle.std.specs.Prelude.{◌≡◌, ◌↔◌, IfOk, IfErr, Ok, string_bytes};
ghost use Rattle.serde_json.specs.Data.{string};
ghost use Rattle.serde_json.specs.View.{view};
ghost use Rattle.serde_json.specs.Written.{compact_text};
ghost use Rattle.flow_model.specs.Checked.{shown_checked};
ghost use Rattle.flow_cli.specs.Telling.{settlement_told, Tells};
ghost use Rattle.flow_cli.specs.Settlements.{ids_out, settlement_marks, settlement_of, settlement_status, settlement_text, MeansSettled};

use crate::change::{Broken, read_both};
use crate::safety::Safety;
use crate::telling::tell;
use flow_base::fault::Fault;
use flow_base::sequence::Sequence;
use flow_base::text::Key;
use flow_lines::output::Output;
use flow_model::checked::Checked;
use flow_model::texts::Texts;
use flow_patch::fault::{Unsafe, Unsettled};
use flow_patch::settle::settle;
use serde_json::{Value as Json, json};
use std::alloc::{AllocError, Global};
use std::string::ToString;

/// Which patches of an old text a new one settles.
#[derive(Debug, Drop)]
pub enum Settlement {
    /// Those with these ids, in the order of the new text.
    Settles(Sequence<Key>),
    /// The new text isn't the old one with patches settled.
    Differs(Unsafe),
    /// One of the texts is no program.
    Broken(Broken),
}

fn text_json(alloc: Global, text: &str) -> Result<Json, AllocError>
    ensures { IfOk result (λ j. view j ≡ string text.now) }
{
    json!(in alloc; text)
}

fn ids_json(alloc: Global, ids: &[Key]) -> Result<Json, AllocError>
    ensures { IfOk result (λ j. view j ≡ ids_out ids.now) }
{
    let mut items = Vec::new(alloc);
    for id in ids {
        items.push(text_json(alloc, id.as_str())?)?;
    }
    Ok(Json::Array(items))
}

/// The ids as a list in compact JSON.
#[tactic(auto, using(crate::proofs::Settlements::ids_plain))]
fn ids_text(alloc: Global, ids: &[Key]) -> Result<String, AllocError>
    ensures { IfOk result (λ s. string_bytes s ≡ compact_text (ids_out ids.now)) }
{
    ids_json(alloc, ids)?.to_string(alloc)
}

impl Settlement {
    /// What is written, without its end: as `settles ["v2"]` or `E58 at 51`, and for texts that are no programs what
    /// `flow safe` writes.
    pub fn lines(&self, alloc: Global) -> Result<String, AllocError>
        ensures { IfOk result (λ line. string_bytes line ≡ settlement_text self.now) }
    {
        match self {
            Settlement::Settles(ids) => {
                let list = ids_text(alloc, ids.as_slice())?;
                format!(in alloc; "settles {list}")
            }
            Settlement::Differs(difference) => Safety::Differs(*difference).lines(alloc),
            Settlement::Broken(broken) => broken.lines(alloc),
        }
    }

    /// The place in the new text where it differs, or in each that is no program: the line there and a mark below it.
    pub fn marks(&self, alloc: Global, old: &str, new: &str) -> Result<Vec<u8>, AllocError>
        ensures { IfOk result (λ marks. marks.items ≡ settlement_marks old.now new.now self.now) }
    {
        match self {
            Settlement::Settles(_) => Ok(Vec::new(alloc)),
            Settlement::Differs(difference) => Safety::Differs(*difference).marks(alloc, old, new),
            Settlement::Broken(broken) => broken.marks(alloc, old, new),
        }
    }

    /// The status that the program ends with.
    pub fn status(&self) -> u8
        ensures { result ≡ settlement_status self.now }
    {
        match self {
            Settlement::Settles(_) => 0,
            Settlement::Differs(_) | Settlement::Broken(_) => 1,
        }
    }
}

/// Which patches of one program another settles.
fn compare(alloc: Global, old: &Checked, new: &Checked) -> Result<Settlement, Fault>
    ensures settlement { IfOk result (λ s. s ≡ settlement_of (Ok (shown_checked old.now)) (Ok (shown_checked new.now))) }
    ensures memory { IfErr result (λ e. e ≡ Fault.NoMemory _) }
{
    match settle(alloc, old, new) {
        Ok(ids) => Ok(Settlement::Settles(Sequence::from_vec(ids))),
        Err(Unsettled::Differs(difference)) => Ok(Settlement::Differs(difference)),
        Err(Unsettled::NoMemory(no_memory)) => Err(Fault::NoMemory(no_memory)),
    }
}

/// Reads two texts by what reads texts, and tells which patches of the first the second settles.
pub fn settle_texts<T: Texts>(
    alloc: Global,
    texts: &T,
    old: &str,
    new: &str,
) -> Result<Settlement, Fault>
    ensures settlement { IfOk result (λ s. s ≡ settlement_of (T.meaning old.now) (T.meaning new.now)) }
    ensures memory { IfErr result (λ e. e ≡ Fault.NoMemory _) }
{
    match read_both(alloc, texts, old, new)? {
        Ok((old, new)) => compare(alloc, &old, &new),
        Err(broken) => Ok(Settlement::Broken(broken)),
    }
}

/// Tells which patches of the first of two texts the second settles, as errors the place where it doesn't, and gives the status.
///
/// # Failure
/// Each has the status 3: E01, and E95 where a write failed.
#[tactic(auto, using(crate::proofs::Tellings::untold))]
pub fn tell_settlement<T: Texts, O: Output, P: Output>(
    alloc: Global,
    texts: &T,
    output: &mut O,
    errors: &mut P,
    old: &str,
    new: &str,
) -> Result<u8, Fault>
    ensures tells { Tells O.Output P.Output
        (settlement_told old.now new.now (settlement_of (T.meaning old.now) (T.meaning new.now)))
        output.old output.new errors.old errors.new result }
    // The status is 0 exactly where both are programs and the new one is the old one with patches settled.
    ensures settles { IfOk result (λ n. (n ≡ 0) ↔ MeansSettled (T.meaning old.now) (T.meaning new.now)) }
{
    let settlement = settle_texts(alloc, texts, old, new)?;
    let lines = settlement.lines(alloc)?;
    let marks = settlement.marks(alloc, old, new)?;
    tell(output, errors, lines, marks.as_slice(), settlement.status())
}
