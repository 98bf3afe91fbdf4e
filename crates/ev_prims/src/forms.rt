//! How many arguments a call has.

ghost use Rattle.std.specs.Prelude.{◌≡◌};
ghost use Rattle.ev_prims.specs.Forms.{args_of, form_of};

use ev_base::Value;

/// The arguments of a call on a text or a list.
#[derive(Clone, Copy)]
pub(crate) enum Form {
    /// There is none.
    Alone,
    /// The one argument as it is held and as it is followed.
    One(Value, Value),
    /// The two arguments as they are followed.
    Two(Value, Value),
    Other,
}

/// The arguments of a call on a text or a list, as they are held and as they are followed.
#[tactic(auto, using(crate::proofs::FormLemmas::form_alone, crate::proofs::FormLemmas::form_one, crate::proofs::FormLemmas::form_two, crate::proofs::FormLemmas::form_short, crate::proofs::FormLemmas::form_long, crate::proofs::FormLemmas::form_odd))]
pub(crate) fn form_of(held: &[Value], args: &[Value]) -> Form
    ensures { result ≡ form_of held.now args.now }
{
    match held {
        [] => Form::Alone,
        [a] => match args {
            [x] => Form::One(*a, *x),
            [i, j] => Form::Two(*i, *j),
            _ => Form::Other,
        },
        _ => match args {
            [i, j] => Form::Two(*i, *j),
            _ => Form::Other,
        },
    }
}

/// The arguments of a call on a primitive.
#[derive(Clone, Copy)]
pub(crate) enum Args {
    Empty,
    One(Value),
    Two(Value, Value),
    Three(Value, Value, Value),
    More,
}

/// The arguments of a call on a primitive, as they are held.
#[tactic(auto, using(crate::proofs::FormLemmas::args_empty, crate::proofs::FormLemmas::args_one, crate::proofs::FormLemmas::args_two, crate::proofs::FormLemmas::args_three, crate::proofs::FormLemmas::args_more))]
pub(crate) fn args_of(args: &[Value]) -> Args
    ensures { result ≡ args_of args.now }
{
    match args {
        [] => Args::Empty,
        [a] => Args::One(*a),
        [a, b] => Args::Two(*a, *b),
        [a, b, c] => Args::Three(*a, *b, *c),
        _ => Args::More,
    }
}
