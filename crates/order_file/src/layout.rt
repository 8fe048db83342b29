// Where an order file holds what it says, and its fields read from there.
ghost use Rattle.std.specs.Prelude.{◌≡◌, ◌<◌};
ghost use Rattle.little_endian.specs.Bytes.{u16_values, u32_values};
ghost use Rattle.order_file.specs.Contents.{gap_span};
ghost use Rattle.order_file.specs.Layout.{window_at, order_at, link_at, gap_read, contents_of};

use little_endian::SIGN_BIAS;

// The edition of every order file.
pub const FILE_EDITION: usize = 1;

// Where the windows begin.
pub const WINDOWS_AT: usize = 24;

// Record widths in bytes, in the tables' order.
pub const FILE_WIDTHS: [usize; 3] = [12, 8, 2];

pub const WINDOW: usize = 0;

pub const ORDER: usize = 1;

pub const LINK: usize = 2;

// The highest counts.
pub const MOST_STEPS: usize = 64;

pub const MOST_ORDERS: usize = 4032;

pub const MOST_LINKS: usize = 544;

// The latest start of a step that has none.
pub const NO_LATEST: u32 = 4294967295;

// What a gap here has more than the paper's gap, so that it has no sign, and the range of an order's gap with that.
pub const GAP_BIAS: usize = 1100000;

pub const LEAST_GAP: usize = GAP_BIAS - 99999;

pub const MOST_GAP: usize = GAP_BIAS + 100001;

// The highest link to an effect or a timed fact, and the link to the initial state.
pub const LAST_LINK: usize = 575;

pub const INITIAL_STATE: u16 = 65535;

// Where a window begins; that of the number past the last is where the orders begin.
pub fn window_at(k: usize) -> usize
    requires { k < u16_values }
    ensures { (result ≡ window_at k) × (result < 1000000) }
{
    WINDOWS_AT + FILE_WIDTHS[WINDOW] * k
}

// Where an order begins; that of the number past the last is where the links begin.
pub fn order_at(steps: usize, k: usize) -> usize
    requires { (steps < u16_values) × (k < u16_values) }
    ensures { (result ≡ order_at steps k) × (result < 2000000) }
{
    window_at(steps) + FILE_WIDTHS[ORDER] * k
}

// Where a link begins; that of the number past the last is where the file ends.
pub fn link_at(steps: usize, orders: usize, k: usize) -> usize
    requires { (steps < u16_values) × (orders < u16_values) × (k < u16_values) }
    ensures { (result ≡ link_at steps orders k) × (result < 3000000) }
{
    order_at(steps, orders) + FILE_WIDTHS[LINK] * k
}

// How many steps, orders and links the file counts.
pub fn steps(file: &[u8]) -> usize
    ensures { (result ≡ (contents_of file.now).steps) × (result < u16_values) }
{
    little_endian::u16_at(file, 2)
}

pub fn orders(file: &[u8]) -> usize
    ensures { (result ≡ (contents_of file.now).orders) × (result < u16_values) }
{
    little_endian::u16_at(file, 4)
}

pub fn links(file: &[u8]) -> usize
    ensures { (result ≡ (contents_of file.now).links) × (result < u16_values) }
{
    little_endian::u16_at(file, 6)
}

pub fn rounds(file: &[u8]) -> usize
    ensures { (result ≡ (contents_of file.now).rounds) × (result < u32_values) }
{
    little_endian::u32_at(file, 8)
}

// The fields of a step's window.
pub fn limit(file: &[u8], k: usize) -> usize
    requires { k < u16_values }
    ensures { (result ≡ (contents_of file.now).limit k) × (result < u32_values) }
{
    little_endian::u32_at(file, window_at(k))
}

pub fn latest(file: &[u8], k: usize) -> usize
    requires { k < u16_values }
    ensures { (result ≡ (contents_of file.now).latest k) × (result < u32_values) }
{
    little_endian::u32_at(file, window_at(k) + 4)
}

pub fn earliest(file: &[u8], k: usize) -> usize
    requires { k < u16_values }
    ensures { (result ≡ (contents_of file.now).earliest k) × (result < u32_values) }
{
    little_endian::u32_at(file, window_at(k) + 8)
}

// The gap plus `GAP_BIAS`, of the i32 read without a sign.
fn gap_read(biased: usize) -> usize
    requires { biased < u32_values }
    ensures { (result ≡ gap_read biased) × (result < gap_span) }
{
    if biased < SIGN_BIAS - GAP_BIAS {
        0
    } else {
        biased + GAP_BIAS - SIGN_BIAS
    }
}

// The fields of an order; its gap plus `GAP_BIAS`.
pub fn first(file: &[u8], k: usize) -> usize
    requires { k < u16_values }
    ensures { (result ≡ (contents_of file.now).first k) × (result < u16_values) }
{
    little_endian::u16_at(file, order_at(steps(file), k))
}

pub fn second(file: &[u8], k: usize) -> usize
    requires { k < u16_values }
    ensures { (result ≡ (contents_of file.now).second k) × (result < u16_values) }
{
    little_endian::u16_at(file, order_at(steps(file), k) + 2)
}

pub fn gap(file: &[u8], k: usize) -> usize
    requires { k < u16_values }
    ensures { (result ≡ (contents_of file.now).gap k) × (result < gap_span) }
{
    gap_read(little_endian::biased_at(file, order_at(steps(file), k) + 4))
}

// A link.
pub fn link(file: &[u8], k: usize) -> usize
    requires { k < u16_values }
    ensures { (result ≡ (contents_of file.now).link k) × (result < u16_values) }
{
    little_endian::u16_at(file, link_at(steps(file), orders(file), k))
}
