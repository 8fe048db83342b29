// Tests of the token at a cursor.
ghost use Rattle.std.specs.Prelude.{◌≡◌, true};
ghost use Rattle.spelling.specs.Cursor.{here, Standing, is_bracket, is_such, is_stop};

use crate::{Cursor, is_mark};

// The text's end.
pub fn at_end(plan: bool, text: &[u8], c: Cursor) -> bool
    requires { Standing plan text.now c }
    ensures { result ≡ is_stop (here plan text.now c) }
{
    c.at == text.len()
}

// A bracket or what is like one.
pub fn at_bracket(plan: bool, text: &[u8], c: Cursor, b: u8) -> bool
    requires { Standing plan text.now c }
    ensures { result ≡ is_bracket b (here plan text.now c) }
{
    let at = c.at;
    if at == text.len() {
        return false;
    }
    is_mark(plan, text[at]) & (text[at] == b)
}

// Any word.
pub fn at_some_word(plan: bool, text: &[u8], c: Cursor) -> bool
    requires { Standing plan text.now c }
    ensures { result ≡ is_such (λ w. true) (here plan text.now c) }
{
    let at = c.at;
    if at == text.len() {
        return false;
    }
    !is_mark(plan, text[at])
}
