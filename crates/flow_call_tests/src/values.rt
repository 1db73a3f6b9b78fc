//! Expressions and delays.
use flow_base::event::Cause;
use flow_base::number::Moment;
use flow_base::syntax::{Expr, Program, Stmt};
use flow_base::value::Value;
use flow_syntax::parse::parse;
use flow_values::evaluate::{due, eval};
use flow_values::named::NamedValues;
use std::alloc::Global;
use std::test::Fail;

// What a program returns first.
fn returned(program: &Program) -> Option<&Expr> {
    match program.body.as_slice() {
        [Stmt::Return(_, e), ..] => Some(e),
        _ => None,
    }
}

fn is_value(found: &Result<Value, Cause>, wanted: Result<i64, Cause>) -> bool {
    match found {
        Ok(Value::Int(n)) => matches!(wanted, Ok(m) if m == *n),
        Err(cause) => matches!(wanted, Err(c) if c == *cause),
        _ => false,
    }
}

// Whether what a program returns has this value, where nothing has a value, or this fault.
fn returns(alloc: Global, program: &Program, wanted: Result<i64, Cause>) -> Option<bool> {
    let at = Moment::new(10)?;
    let expr = returned(program)?;
    let found = eval(alloc, &NamedValues::new(), at, expr).ok()?;
    Some(is_value(&found, wanted))
}

fn gives(alloc: Global, text: &str, wanted: Result<i64, Cause>) -> bool {
    match parse(alloc, text) {
        Ok(program) => returns(alloc, &program, wanted) == Some(true),
        Err(_fault) => false,
    }
}

#[test]
fn expressions_have_values_and_faults(rt: HostRuntime) -> Result<(), Fail> {
    let sum = gives(rt.alloc(), "workflow a() { return 2 + 3; }", Ok(5));
    let faulty = "workflow a() { return (2 + 3) / 0; }";
    let quotient = gives(rt.alloc(), faulty, Err(Cause::Arith));
    let missing = gives(rt.alloc(), "workflow a() { return x; }", Ok(0));
    assert!(rt; sum && quotient && missing);
    Ok(())
}

// When a delay is over that begins at moment 10.
fn over(alloc: Global, delay: i64) -> Option<Result<u64, Cause>> {
    let at = Moment::new(10)?;
    match due(alloc, &NamedValues::new(), at, &Expr::Int(0, delay)).ok()? {
        Ok(moment) => Some(Ok(moment.get())),
        Err(cause) => Some(Err(cause)),
    }
}

#[test]
fn a_delay_is_over_when_it_is_due(rt: HostRuntime) -> Result<(), Fail> {
    let due = over(rt.alloc(), 90);
    let never = over(rt.alloc(), -1);
    assert!(rt; matches!(due, Some(Ok(100))) && matches!(never, Some(Err(Cause::BadDelay))));
    Ok(())
}
