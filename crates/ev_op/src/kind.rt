//! The kinds of description, by the first byte.

ghost use Rattle.std.specs.Prelude.{◌≡◌, IfErr};
ghost use Rattle.ev_op.specs.declared.fault.ReadError.TheVariants.{Refused};
ghost use Rattle.ev_op.specs.Gives.{Gives};
ghost use Rattle.def_op.specs.Reading.{kind_at, is_list};

use crate::fault::ReadError;
use def_op::Kind;

/// The kind at the front, and the bytes behind it.
pub fn kind_of(bytes: &[u8]) -> Result<(Kind, &[u8]), ReadError>
    ensures exact { Gives (λ x. (x.0, x.1.now)) result (kind_at bytes.now) }
    ensures refused { IfErr result (λ e. e ≡ Refused) }
{
    let Some((code, rest)) = bytes.split_first() else {
        return Err(ReadError::Refused);
    };
    let kind = match *code {
        0 => Kind::Null,
        1 => Kind::False,
        2 => Kind::True,
        3 => Kind::Integer,
        4 => Kind::Character,
        5 => Kind::Text,
        6 => Kind::List,
        7 => Kind::Primitive,
        8 => Kind::Broken,
        9 => Kind::YourExport,
        10 => Kind::YourAnswer,
        11 => Kind::MyExport,
        12 => Kind::MyPromise,
        13 => Kind::Third,
        14 => Kind::MyAnswer,
        _ => return Err(ReadError::Refused),
    };
    Ok((kind, rest))
}

/// Whether it is a list's.
pub fn is_list(kind: Kind) -> bool
    ensures { result ≡ is_list kind }
{
    match kind {
        Kind::List => true,
        _ => false,
    }
}
