//! What the built-in activities give.
use flow_base::number::{EventId, RunId};
use flow_base::sequence::Sequence;
use flow_base::task::Task;
use flow_base::text::Key;
use flow_base::value::Value;
use flow_pool::activity::{Activity, Attempt};
use flow_pool::builtin::Builtin;
use std::alloc::Global;
use std::test::Fail;

fn ints(alloc: Global, numbers: &[i64]) -> Result<Sequence<Value>, Fail> {
    let mut args = Sequence::new(alloc);
    for n in numbers {
        args.push(Value::Int(*n))?;
    }
    Ok(args)
}

// An attempt of a task with these ints.
fn task(alloc: Global, attempt: u64, numbers: &[i64]) -> Result<Task, Fail> {
    let run = RunId::new(1).ok_or("no run")?;
    let event = EventId::new(2).ok_or("no event")?;
    let flow = Key::new(alloc, "order-7")?;
    let activity = Key::new(alloc, "any")?;
    let args = ints(alloc, numbers)?;
    Ok(Task {
        flow,
        run,
        event,
        attempt,
        activity,
        args,
    })
}

fn is_attempt(found: &Attempt, number: i64, reason: &str) -> bool {
    match found {
        Attempt::Done(Value::Int(n)) => *n == number && reason == "",
        Attempt::Done(_) => false,
        Attempt::Failed(text) => text.as_str() == reason,
    }
}

// Whether the activity gives this number, or fails for this reason.
fn gives<A: Activity>(
    alloc: Global,
    activity: &mut A,
    attempt: u64,
    numbers: &[i64],
    number: i64,
    reason: &str,
) -> Result<bool, Fail> {
    let task = task(alloc, attempt, numbers)?;
    let found = activity.run(alloc, &task)?;
    Ok(is_attempt(&found, number, reason))
}

#[test]
fn echo_gives_its_first_argument(rt: HostRuntime) -> Result<(), Fail> {
    let alloc = rt.alloc();
    assert!(rt; gives(alloc, &mut Builtin::Echo, 1, &[7, 8], 7, "")?);
    assert!(rt; gives(alloc, &mut Builtin::Echo, 1, &[], 0, "bad arguments")?);
    assert!(rt; Builtin::Echo.name() == "echo");
    assert!(rt; Builtin::Add.name() == "add");
    assert!(rt; Builtin::Flaky.name() == "flaky");
    Ok(())
}

#[test]
fn add_gives_the_sum(rt: HostRuntime) -> Result<(), Fail> {
    let alloc = rt.alloc();
    assert!(rt; gives(alloc, &mut Builtin::Add, 1, &[40, 2], 42, "")?);
    assert!(rt;
        gives(
            alloc,
            &mut Builtin::Add,
            1,
            &[9223372036854775807, 1],
            0,
            "arith"
        )?
    );
    assert!(rt; gives(alloc, &mut Builtin::Add, 1, &[], 0, "bad arguments")?);
    assert!(rt; gives(alloc, &mut Builtin::Add, 9, &[1, 2, 3], 0, "bad arguments")?);
    Ok(())
}

#[test]
fn flaky_fails_twice(rt: HostRuntime) -> Result<(), Fail> {
    let alloc = rt.alloc();
    for attempt in [1, 2] {
        assert!(rt; gives(alloc, &mut Builtin::Flaky, attempt, &[9], 0, "flaky")?);
        assert!(rt; gives(alloc, &mut Builtin::Flaky, attempt, &[], 0, "bad arguments")?);
    }
    for attempt in [3, 50] {
        assert!(rt; gives(alloc, &mut Builtin::Flaky, attempt, &[9], 9, "")?);
        assert!(rt; gives(alloc, &mut Builtin::Flaky, attempt, &[], 0, "bad arguments")?);
    }
    Ok(())
}
