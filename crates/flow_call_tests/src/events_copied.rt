//! Copies: each equals what it copies, and a shared list is the list.
use flow_base::event::{Cmd, Event, Input, What, copy_events, copy_values};
use flow_base::number::{EventId, Moment};
use flow_base::sequence::Sequence;
use flow_base::syntax::{Binary, Block, Expr, Stmt};
use flow_base::text::{Key, RawText, Text};
use flow_base::value::{Kind, Value};
use std::alloc::Global;
use std::sync::Arc;
use std::test::Fail;

/// 7 and "eur".
fn values(alloc: Global) -> Result<Sequence<Value>, Fail> {
    let mut values = Sequence::new(alloc);
    values.push(Value::Int(7))?;
    values.push(Value::Text(Text::new(alloc, "eur")?))?;
    Ok(values)
}

fn schedule(alloc: Global) -> Result<Cmd, Fail> {
    let activity = Key::new(alloc, "charge")?;
    let values = values(alloc)?;
    Ok(Cmd::Schedule(activity, values, 1, 0, Kind::Int))
}

fn moment() -> Result<Moment, Fail> {
    Ok(Moment::new(1000).ok_or("a moment")?)
}

fn event(id: u64, what: What) -> Result<Event, Fail> {
    let at = moment()?;
    let id = EventId::new(id).ok_or("an event")?;
    Ok(Event { id, at, what })
}

#[test]
fn values_are_copied(rt: HostRuntime) -> Result<(), Fail> {
    let values = values(rt.alloc())?;
    let copied = copy_values(rt.alloc(), values.as_slice())?;
    assert!(rt; copied.len() == 2);
    Ok(())
}

#[test]
fn commands_are_copied(rt: HostRuntime) -> Result<(), Fail> {
    let command = schedule(rt.alloc())?;
    assert!(rt; command.copy(rt.alloc())?.is(&command));
    assert!(rt; !Cmd::StartTimer(moment()?).is(&command));
    Ok(())
}

/// A start and what is asked then.
fn events(alloc: Global) -> Result<Vec<Event>, Fail> {
    let mut events = Vec::new(alloc);
    events.push(event(1, What::Came(Input::Started(values(alloc)?)))?)?;
    events.push(event(2, What::Asked(schedule(alloc)?))?)?;
    Ok(events)
}

#[test]
fn events_are_copied(rt: HostRuntime) -> Result<(), Fail> {
    let events = events(rt.alloc())?;
    let copied = copy_events(rt.alloc(), events.as_slice())?;
    assert!(rt; copied.len() == 2);
    Ok(())
}

/// `1 + n`
fn sum(alloc: Global) -> Result<Expr, Fail> {
    let one = Box::new(alloc, Expr::Int(8, 1))?;
    let name = Key::new(alloc, "n")?;
    let name = Box::new(alloc, Expr::Var(12, name))?;
    Ok(Expr::Binary(Binary::Add, one, name))
}

/// `let x = 1 + n;` in braces.
fn braced(alloc: Global) -> Result<Block, Fail> {
    let name = Key::new(alloc, "x")?;
    let mut list = Vec::new(alloc);
    list.push(Stmt::Let(0, 4, name, sum(alloc)?))?;
    Ok(Block {
        list: Arc::new(alloc, list)?,
        end: 15,
    })
}

/// Whether one statement gives a variable the sum of two expressions.
fn is_let_of_sum(list: &[Stmt]) -> bool {
    matches!(list, [Stmt::Let(0, 4, _, Expr::Binary(Binary::Add, _, _))])
}

#[test]
fn a_list_is_shared(rt: HostRuntime) -> Result<(), Fail> {
    let block = braced(rt.alloc())?;
    let shared = block.share()?;
    drop(block);
    assert!(rt; is_let_of_sum(shared.list.as_slice()) && shared.end == 15);
    Ok(())
}

#[test]
fn texts_are_copied(rt: HostRuntime) -> Result<(), Fail> {
    let key = Key::new(rt.alloc(), "charge")?;
    assert!(rt; key.copy(rt.alloc())?.is(&key));
    let text = Text::new(rt.alloc(), "eur")?;
    assert!(rt; text.copy(rt.alloc())?.is(&text) && Text::empty(rt.alloc()).len() == 0);
    let bytes = "x".repeat(rt.alloc(), 4097)?;
    let raw = RawText::new(rt.alloc(), bytes.as_str())?;
    assert!(rt; raw.copy(rt.alloc())?.is(&raw));
    Ok(())
}
