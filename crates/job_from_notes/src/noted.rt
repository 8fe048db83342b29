// The notes of a text, with the numbers that their names have.
ghost use Rattle.std.specs.Prelude.{◌≤◌, length};

// There is a number for each note, and there may be more of them.
#[derive(Clone, Copy)]
pub struct Noted<'a> {
    pub said: &'a [u64],
    pub numbers: &'a [u16],
    ghost enough: { length said.now ≤ length numbers.now },
}
