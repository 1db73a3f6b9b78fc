ghost use Rattle.std.specs.Prelude.{◌≡◌};
ghost use Rattle.flow_model.specs.Deliver as deliver;

use flow_base::syntax::Parameter;
use flow_base::value::{Kind, Value};

/// Whether a value is of a type.
pub fn has_kind(kind: Kind, value: &Value) -> bool
    ensures { result ≡ deliver.has_kind kind value.now }
{
    match (kind, value) {
        (Kind::Int, Value::Int(_)) => true,
        (Kind::Text, Value::Text(_)) => true,
        _ => false,
    }
}

/// Whether arguments fit parameters, in number and type.
pub fn all_fit(parameters: &[Parameter], arguments: &[Value]) -> bool
    ensures { result ≡ deliver.all_fit parameters.now arguments.now }
{
    match parameters {
        [] => match arguments {
            [] => true,
            [_, ..] => false,
        },
        [first, others @ ..] => match arguments {
            [] => false,
            [value, values @ ..] => has_kind(first.kind, value) && all_fit(others, values),
        },
    }
}
