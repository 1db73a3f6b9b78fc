//! The numbers of the open runs, from a number on.
ghost use Rattle.std.specs.Prelude.{◌≡◌, ◌∷◌, take};
ghost use Rattle.flow_tables.specs.Names.{Book, Tells, Tables, Int, IfErr, filter, map, pos, IfOk, [], refl, Read, Some};
ghost use Rattle.flow_model.specs.Book as words;
ghost use Rattle.flow_rows.specs.Finding.{is_open_from, number_of_run};
ghost use Rattle.flow_sql.specs.Stored.{number_said};
ghost use Rattle.flow_sql.proofs.OpenRuns.{open_numbers_are};
ghost use Rattle.flow_sql.proofs.Places.{in_both};
ghost use Rattle.flow_tables.specs.Asking.{IsValue};
ghost use Rattle.flow_tables.specs.Low.{HasLow};
ghost use Rattle.flow_tables.specs.Owned.{IsBelowOne};

use crate::ask::{OfBook, Question};
use crate::questions::run_number_of;
use flow_base::number::RunId;
use flow_base::sequence::Sequence;
use flow_view::fault::ViewFault;
use sqlite::{Alter, Connection, Error, Row, params};
use std::alloc::Global;

/// The numbers of the open runs from a number on, rising, and so many at most.
#[derive(Drop)]
pub(crate) struct OpenRuns {
    pub(crate) alloc: Global,
    pub(crate) from: RunId,
    pub(crate) most: u32,
}

impl Question for OpenRuns {
    type Item = i64;

    ghost asks = { λ q. record { read = Read.open_numbers; params = Int (pos q.from) ∷ Int (pos q.most) ∷ []; said = number_said; tells = λ t xs. xs ≡ take q.most (map number_of_run (filter (is_open_from (pos q.from)) t.runs)); takes = refl; typed = in_both _ refl refl; found = λ l db ours rows. open_numbers_are l db ours rows (pos q.from) q.most } };

    fn send<S: Alter>(&self, conn: &mut Connection<S>) -> Result<Vec<Row>, Error> {
        let sql = "SELECT num FROM run WHERE num >= ?1 AND isopen = 1 ORDER BY num LIMIT ?2";
        conn.query_all(sql, params![self.from.get() as i64, self.most as i64])
    }
}

fn run_number(number: i64) -> Result<RunId, ViewFault>
    ensures number { IfOk result (λ n. number ≡ pos n) }
    ensures odd { IfErr result (λ _. IsBelowOne (Some number)) }
{
    match run_number_of(Some(number)) {
        Ok(Some(run)) => Ok(run),
        Ok(None) => Err(ViewFault::StoreRefused),
        Err(fault) => Err(fault),
    }
}

fn run_numbers(alloc: Global, found: &[i64]) -> Result<Sequence<RunId>, ViewFault>
    ensures numbers { IfOk result (λ ns. found.now ≡ map pos ns) }
    ensures odd { IfErr result (λ f. f ≡ ViewFault.StoreRefused → HasLow found.now) }
{
    let mut list = Vec::new(alloc);
    for number in found {
        let run = run_number(*number)?;
        list.push(run)?;
    }
    Ok(Sequence::from_vec(list))
}

impl OfBook for OpenRuns {
    type Value = Sequence<RunId>;

    ghost value = { λ q b. words.open_numbers b q.from q.most };

    fn value(&self, items: Vec<i64>) -> Result<Sequence<RunId>, ViewFault>
        ensures { (t : Tables) (b : Book) → Tells t b
            → items.items ≡ take self.now.most (map number_of_run (filter (is_open_from (pos self.now.from)) t.runs))
            → IsValue result (words.open_numbers b self.now.from self.now.most) }
    {
        run_numbers(self.alloc, items.as_slice())
    }
}
