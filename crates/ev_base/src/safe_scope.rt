//! The names that every program is given.

ghost use Rattle.std.specs.Prelude.{◌≡◌, option_map};
ghost use Rattle.ev_base.specs.SafeScope.{primitive_number, safe_value};

use crate::ids::PrimId;
use crate::values::Value;

/// The number of a noun that names a primitive.
fn primitive_number(noun: &str) -> Option<u8>
    ensures { result ≡ primitive_number noun.now }
{
    match noun {
        "__makeList" => Some(0),
        "__equalizer" => Some(1),
        "__comparer" => Some(2),
        "__loop" => Some(3),
        "E" => Some(4),
        "Ref" => Some(5),
        "throw" => Some(6),
        "auditedBy" => Some(7),
        "any" => Some(8),
        "void" => Some(9),
        "int" => Some(10),
        "boolean" => Some(11),
        "char" => Some(12),
        "String" => Some(13),
        "List" => Some(14),
        "nullOk" => Some(15),
        "near" => Some(16),
        "DeepFrozen" => Some(17),
        "Selfless" => Some(18),
        "Functional" => Some(19),
        _ => None,
    }
}

/// The value of a noun of the safe scope, and none where the noun is not in it.
pub fn safe_value(noun: &str) -> Option<Value>
    ensures { result ≡ safe_value noun.now }
{
    match noun {
        "null" => Some(Value::Null),
        "true" => Some(Value::Bool(true)),
        "false" => Some(Value::Bool(false)),
        _ => match primitive_number(noun) {
            Some(number) => Some(Value::Prim(PrimId(number))),
            None => None,
        },
    }
}
