//! What the types of a change's fields give, so that whoever records it tests no more than whether its events fit.
ghost use Rattle.flow_rows.specs.Standing.{IsRequest};
ghost use Rattle.flow_rows.specs.Typed.{IsTypedTurn, IsTypedChange};

use flow_base::book::{Change, Turn};
use flow_base::text::Key;

fn request_is_typed(request: &Option<Key>)
    ensures { IsRequest request.now }
{
    if let Some(request) = request {
        let _request = request.as_str();
    }
}

fn turn_is_typed(turn: &Turn)
    ensures { IsTypedTurn turn.now }
{
    let _at = turn.at.get();
}

/// Each change has names, a number of a text and a moment within their limits: a law, which reads and changes nothing.
pub fn change_is_typed(change: &Change)
    ensures { IsTypedChange change.now }
{
    match change {
        Change::AddText(_) => {}
        Change::AddRun(flow, request, text, turn) => {
            let _flow = flow.as_str();
            request_is_typed(request);
            let _text = text.get();
            turn_is_typed(turn);
        }
        Change::AddTurn(_, turn) => turn_is_typed(turn),
        Change::SetAttempt(_, _, _, ready) => {
            let _ready = ready.get();
        }
        Change::SetText(_, text) => {
            let _text = text.get();
        }
    }
}
