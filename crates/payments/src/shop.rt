//! What the shop does outside of its workflows.
use flow_base::task::Task;
use flow_base::text::Text;
use flow_base::value::{Value, ValueFault};
use flow_pool::activity::{Activity, Attempt};
use flow_work::skills::Skills;
use std::alloc::{AllocError, Global};

/// The activities of the shop.
#[derive(Clone, Copy, Debug, Drop)]
pub enum Shop {
    /// `charge(order, amount)` takes up to 500, and gives the payment's name.
    Charge,
    /// `ship(order)` finds nobody at home twice, and then gives the parcel's name.
    Ship,
}

impl Activity for Shop {
    ghost use Rattle.std.specs.Prelude.{List, ℕ};
    ghost use Rattle.payments.specs.Names.{shop_name};

    ghost named = { shop_name };

    ghost gives = { λ _ t a. Unit {0} };

    fn name(&self) -> &str {
        match self {
            Shop::Charge => "charge",
            Shop::Ship => "ship",
        }
    }

    fn run(&mut self, alloc: Global, task: &Task) -> Result<Attempt, AllocError> {
        match self {
            Shop::Charge => charge(alloc, task),
            Shop::Ship => ship(alloc, task),
        }
    }
}

impl Skills<Shop> for Shop {
    ghost has = { λ _ all. Unit {0} };

    fn of_worker(&self, alloc: Global) -> Result<Vec<Shop>, AllocError> {
        let mut all = Vec::with_capacity(alloc, 2)?;
        all.push(Shop::Charge)?;
        all.push(Shop::Ship)?;
        Ok(all)
    }
}

fn charge(alloc: Global, task: &Task) -> Result<Attempt, AllocError> {
    match task.args.as_slice() {
        [Value::Int(order), Value::Int(amount)] if *amount <= 500 => {
            done(alloc, format!(in alloc; "payment {order}")?.as_str())
        }
        _ => Attempt::failed(alloc, "too much"),
    }
}

fn ship(alloc: Global, task: &Task) -> Result<Attempt, AllocError> {
    match task.args.as_slice() {
        [Value::Int(order)] if task.attempt > 2 => {
            done(alloc, format!(in alloc; "parcel {order}")?.as_str())
        }
        _ => Attempt::failed(alloc, "nobody at home"),
    }
}

/// An attempt that gave this text.
fn done(alloc: Global, text: &str) -> Result<Attempt, AllocError> {
    match Text::new(alloc, text) {
        Ok(text) => Ok(Attempt::Done(Value::Text(text))),
        Err(ValueFault::NoMemory(no_memory)) => Err(no_memory.error()),
        Err(_) => Attempt::failed(alloc, "too long"),
    }
}
