// Texts put into a buffer from a position on. Each function answers where its text ends; bytes past the buffer's end are not written.
// The bounds on positions keep every sum far below the highest usize.
#![tactic(auto)]

ghost use Rattle.std.specs.Prelude.{◌+◌, ◌≤◌, ◌<◌, [], ◌∷◌, length};
ghost use Rattle.text.specs.Decimal.{decimal, field};
ghost use Rattle.text.specs.Put.{Put};
ghost use Rattle.text.specs.Word.{word_most};
ghost use Rattle.little_endian.specs.Bytes.{u32_values};

// Puts a word.
pub fn put_word(word: &[u8], at: usize, out: &mut [u8]) -> usize
    requires { (at < u32_values) × (length word.now ≤ word_most) }
    ensures { Put out.old at word.now out.new result }
{
    for k in 0..word.len() {
        little_endian::put_byte(at + k, word[k], out);
    }
    at + word.len()
}

// Puts a digit.
fn put_digit(digit: usize, at: usize, out: &mut [u8]) -> usize
    requires { (at < 4294967306) × (digit < 10) }
    ensures { Put out.old at ((48 + digit) ∷ []) out.new result }
{
    little_endian::put_byte(at, (48 + digit) as u8, out);
    at + 1
}

// Puts a number.
pub fn put_decimal(n: usize, at: usize, out: &mut [u8]) -> usize
    requires { (at < u32_values) × (n < u32_values) }
    ensures { Put out.old at (decimal n) out.new result × (result ≤ at + 10) }
{
    if n < 10 {
        put_digit(n, at, out)
    } else {
        let last = put_decimal(n / 10, at, out);
        put_digit(n % 10, last, out)
    }
}

// Puts a word and a number behind it.
pub fn put_field(word: &[u8], n: usize, at: usize, out: &mut [u8]) -> usize
    requires { (at < 1000000000) × (length word.now ≤ word_most) × (n < u32_values) }
    ensures { Put out.old at (field word.now n) out.new result × (result ≤ at + length word.now + 10) }
{
    let after = put_word(word, at, out);
    put_decimal(n, after, out)
}
