// Little-endian numbers in a caller's bytes: total readers and writers.
#![tactic(auto)]

ghost use Rattle.std.specs.Prelude.{◌≡◌, ◌+◌, ◌≤◌, ◌<◌, leb, length, set};
ghost use Rattle.std.proofs.lemmas.List.Edits.{sets};
ghost use Rattle.little_endian.specs.Bytes.{u16_values, u32_values, byte_at, u16_at, u32_at, biased_at, u16_bytes, u32_bytes};

// The byte at a position, 0 past the end.
pub fn byte_at(s: &[u8], at: usize) -> usize
    ensures { (result ≡ byte_at s.now at) × (result < 256) }
{
    if at < s.len() { usize::from(s[at]) } else { 0 }
}

// Positions below this are near: a u16 added to one cannot overflow.
const NEAR: usize = 1099511627776;

// Whether n bytes lie at a position. A near position takes one comparison; where it is made of a u32 and a few u16, the compiler
// sees that it is near.
pub fn has_room(s: &[u8], at: usize, n: u16) -> bool
    ensures { result ≡ leb (at + n) (length s.now) }
{
    if at < NEAR {
        return at + n as usize <= s.len();
    }
    if s.len() < n as usize {
        return false;
    }
    at <= s.len() - n as usize
}

// The u16 at a position within the bytes.
pub fn u16_within(s: &[u8], at: usize) -> usize
    requires { at + 2 ≤ length s.now }
    ensures { (result ≡ u16_at s.now at) × (result < u16_values) }
{
    usize::from(s[at]) + 256 * usize::from(s[at + 1])
}

// The u16 that starts at a position; its bytes past the end count as 0.
pub fn u16_at(s: &[u8], at: usize) -> usize
    ensures { (result ≡ u16_at s.now at) × (result < u16_values) }
{
    if has_room(s, at, 2) {
        return u16_within(s, at);
    }
    byte_at(s, at)
}

// The u32 at a position within the bytes.
pub fn u32_within(s: &[u8], at: usize) -> usize
    requires { at + 4 ≤ length s.now }
    ensures { (result ≡ u32_at s.now at) × (result < u32_values) }
{
    u16_within(s, at) + 65536 * u16_within(s, at + 2)
}

// The u32 that starts at a position; its bytes past the end count as 0.
pub fn u32_at(s: &[u8], at: usize) -> usize
    ensures { (result ≡ u32_at s.now at) × (result < u32_values) }
{
    if has_room(s, at, 4) {
        return u32_within(s, at);
    }
    if has_room(s, at, 2) {
        return u16_within(s, at) + 65536 * byte_at(s, at + 2);
    }
    byte_at(s, at)
}

// What an i32 has more where it is read without a sign.
pub const SIGN_BIAS: usize = 2147483648;

// How many values four bytes have.
pub const U32_VALUES: usize = 2 * SIGN_BIAS;

// The i32 at a position within the bytes, plus the bias.
pub fn biased_within(s: &[u8], at: usize) -> usize
    requires { at + 4 ≤ length s.now }
    ensures { (result ≡ biased_at s.now at) × (result < u32_values) }
{
    (u32_within(s, at) + SIGN_BIAS) % U32_VALUES
}

// The i32 that starts at a position, plus the bias.
pub fn biased_at(s: &[u8], at: usize) -> usize
    ensures { (result ≡ biased_at s.now at) × (result < u32_values) }
{
    (u32_at(s, at) + SIGN_BIAS) % U32_VALUES
}

// Puts a byte at a position; past the end nothing changes.
pub fn put_byte(at: usize, b: u8, s: &mut [u8])
    ensures { s.new ≡ set s.old at b }
{
    if at < s.len() {
        s[at] = b;
    }
}

// Puts the two bytes of a u16 within the bytes.
pub fn put_u16_within(at: usize, n: usize, s: &mut [u8])
    requires { at + 2 ≤ length s.old }
    ensures { s.new ≡ sets s.old at (u16_bytes n) }
{
    s[at] = (n % 256) as u8;
    s[at + 1] = (n / 256 % 256) as u8;
}

// Puts the two bytes of a u16: of a larger number, its lowest two.
pub fn put_u16(at: usize, n: usize, s: &mut [u8])
    ensures { s.new ≡ sets s.old at (u16_bytes n) }
{
    if has_room(s, at, 2) {
        put_u16_within(at, n, s);
        return;
    }
    put_byte(at, (n % 256) as u8, s);
}

// Puts the four bytes of a u32 within the bytes.
pub fn put_u32_within(at: usize, n: usize, s: &mut [u8])
    requires { at + 4 ≤ length s.old }
    ensures { s.new ≡ sets s.old at (u32_bytes n) }
{
    put_u16_within(at, n, s);
    put_u16_within(at + 2, n / 65536, s);
}

// Puts the four bytes of a u32.
pub fn put_u32(at: usize, n: usize, s: &mut [u8])
    ensures { s.new ≡ sets s.old at (u32_bytes n) }
{
    if has_room(s, at, 4) {
        put_u32_within(at, n, s);
        return;
    }
    if at < s.len() {
        put_u16(at, n, s);
        put_u16(at + 2, n / 65536, s);
    }
}
