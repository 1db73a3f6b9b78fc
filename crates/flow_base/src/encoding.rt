//! Values as JSON: a whole number of 64 bits or a string, one spelling for each value.
ghost use Rattle.std.specs.Prelude.{◌≡◌, IfOk};
ghost use Rattle.serde_json.specs.View.{view, items_view};
ghost use Rattle.serde_json.specs.Data.{array};
ghost use Rattle.flow_base.specs.Leaves.{value_in, value_out, values_in, any_values_in, list_in, list_out};
ghost use Rattle.flow_base.specs.Gives.{Gives, GivesValue};

use crate::fields::FieldFault;
use crate::sequence::Sequence;
use crate::text::Text;
use crate::value::{Value, ValueFault};
use serde_json::Value as Json;
use std::alloc::{AllocError, Global};

/// The most values of a list of arguments.
pub const VALUES_LIMIT: usize = 256;

impl Value {
    /// The value that stands for this: a JSON whole number of 64 bits, or a JSON string.
    ///
    /// # Failure
    /// E02 where it is neither, E03 where the string has more than 4,096 bytes.
    pub fn of_json(alloc: Global, json: &Json) -> Result<Value, ValueFault>
        ensures { GivesValue result (value_in (view json.now)) }
    {
        match json {
            Json::Number(number) => {
                if let Some(n) = number.as_u64() {
                    if n <= i64::MAX as u64 {
                        Ok(Value::Int(n as i64))
                    } else {
                        Err(ValueFault::NotAValue)
                    }
                } else {
                    match number.as_i64() {
                        Some(n) if n < 0 => Ok(Value::Int(n)),
                        _ => Err(ValueFault::NotAValue),
                    }
                }
            }
            Json::String(text) => Ok(Value::Text(Text::new(alloc, text.as_str())?)),
            _ => Err(ValueFault::NotAValue),
        }
    }

    /// The JSON value that stands for this value.
    pub fn to_json(&self, alloc: Global) -> Result<Json, AllocError>
        ensures { IfOk result (λ j. view j ≡ value_out self.now) }
    {
        match self {
            Value::Int(n) => Ok(Json::from(*n)),
            Value::Text(t) => Json::try_from_str(alloc, t.as_str()),
        }
    }
}

/// The values that stand for this: a JSON array of at most [`VALUES_LIMIT`] values.
#[tactic(auto, using(crate::proofs::Lists::values_read))]
pub(crate) fn values_of_json(alloc: Global, json: &Json) -> Result<Sequence<Value>, FieldFault>
    ensures { Gives (λ vs. vs) result (values_in (view json.now)) }
{
    match json {
        Json::Array(items) => {
            if items.len() <= VALUES_LIMIT {
                let list = list_of_json(alloc, items)?;
                Ok(Sequence::from_vec(list))
            } else {
                Err(FieldFault::Unfit)
            }
        }
        _ => Err(FieldFault::Unfit),
    }
}

/// The values that stand for this: a JSON array of values, however many.
#[tactic(auto, using(crate::proofs::Lists::any_values_read))]
pub(crate) fn any_values_of_json(alloc: Global, json: &Json) -> Result<Sequence<Value>, FieldFault>
    ensures { Gives (λ vs. vs) result (any_values_in (view json.now)) }
{
    match json {
        Json::Array(items) => Ok(Sequence::from_vec(list_of_json(alloc, items)?)),
        _ => Err(FieldFault::Unfit),
    }
}

/// The JSON array that stands for these values.
pub fn values_to_json(alloc: Global, values: &[Value]) -> Result<Json, AllocError>
    ensures { IfOk result (λ j. view j ≡ array (list_out values.now)) }
{
    let mut items = Vec::new(alloc);
    for v in values {
        items.push(v.to_json(alloc)?)?;
    }
    Ok(Json::Array(items))
}

fn list_of_json(alloc: Global, items: &[Json]) -> Result<Vec<Value>, FieldFault>
    ensures { Gives (λ vs. vs.items) result (list_in (items_view items.now)) }
{
    let mut list = Vec::new(alloc);
    for json in items {
        list.push(Value::of_json(alloc, json)?)?;
    }
    Ok(list)
}
