//! Which bytes behind a backslash are an escape.

ghost use Rattle.std.specs.Prelude.{◌≡◌, ◌≤◌, IfSome};
ghost use Rattle.ev_lexer.specs.Pieces.{escape_length};

use ev_text::escape;

/// How many bytes an escape takes whose backslash stands before the bytes.
pub(crate) fn escape_length(bytes: &[u8]) -> Option<usize>
    ensures value { result ≡ escape_length bytes.now }
    ensures short { IfSome result (λ n. n ≤ 5) }
{
    match escape(bytes) {
        Some((_, taken)) => Some(taken),
        None => None,
    }
}
