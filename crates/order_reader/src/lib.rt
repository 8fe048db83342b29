// Order files: the reader of a header and of one record, and the test whether two files are alike.
#![tactic(auto)]

mod compare;
pub mod numbers;

ghost use Rattle.std.specs.Prelude.{◌≡◌, ◌<◌};
ghost use Rattle.order_file.specs.Layout.{contents_of};
ghost use Rattle.order_file.specs.Contents.{gap_span, signed_gap};
ghost use Rattle.order_answers.specs.Answers.{table_number, record_count, record_of, HeaderPromise, RecordPromise, AlikePromise};

use order_answers::{BrokenFile, Header, NotAnOrderFile, OrderTable, Record};
use order_file::layout;

// All of the header's numbers.
pub fn read_header(file: &[u8]) -> Result<Header, NotAnOrderFile>
    ensures { HeaderPromise file.now result }
{
    if order_check::well_formed(file) {
        Ok(Header {
            edition: little_endian::u16_at(file, 0) as u16,
            steps: little_endian::u16_at(file, 2) as u16,
            orders: little_endian::u16_at(file, 4) as u16,
            links: little_endian::u16_at(file, 6) as u16,
            rounds: little_endian::u32_at(file, 8) as u32,
            windows_at: little_endian::u32_at(file, 12) as u32,
            orders_at: little_endian::u32_at(file, 16) as u32,
            links_at: little_endian::u32_at(file, 20) as u32,
        })
    } else {
        Err(NotAnOrderFile)
    }
}

// How many records a table has.
fn record_count(file: &[u8], table: OrderTable) -> usize
    ensures { (result ≡ record_count (contents_of file.now) (table_number table)) × (result < 65536) }
{
    match table {
        OrderTable::Windows => layout::steps(file),
        OrderTable::Orders => layout::orders(file),
        OrderTable::Links => layout::links(file),
    }
}

// The paper's gap of a gap plus `GAP_BIAS`.
fn signed_gap(gap: usize) -> i32
    requires { gap < gap_span }
    ensures { result ≡ signed_gap gap }
{
    if gap < layout::GAP_BIAS {
        (gap as i32) - layout::GAP_BIAS as i32
    } else {
        (gap - layout::GAP_BIAS) as i32
    }
}

// The record of a table and a number.
fn record_of(file: &[u8], table: OrderTable, k: usize) -> Record
    requires { k < 65536 }
    ensures { result ≡ record_of (contents_of file.now) (table_number table) k }
{
    match table {
        OrderTable::Windows => Record::Window {
            limit: layout::limit(file, k) as u32,
            latest: layout::latest(file, k) as u32,
            earliest: layout::earliest(file, k) as u32,
        },
        OrderTable::Orders => Record::Order {
            first: layout::first(file, k) as u16,
            second: layout::second(file, k) as u16,
            gap: signed_gap(layout::gap(file, k)),
        },
        OrderTable::Links => Record::Link(layout::link(file, k) as u16),
    }
}

// One record: of table 0 a window, of 1 an order, of 2 a link.
pub fn read_record(file: &[u8], table: u32, number: u32) -> Result<Record, NotAnOrderFile>
    ensures { RecordPromise file.now table number result }
{
    let Some(named) = OrderTable::numbered(table) else {
        return Err(NotAnOrderFile);
    };
    let k = number as usize;
    if order_check::well_formed(file) & (k < record_count(file, named)) {
        Ok(record_of(file, named, k))
    } else {
        Err(NotAnOrderFile)
    }
}

// Whether two files are alike.
pub fn alike(a: &[u8], b: &[u8]) -> Result<bool, BrokenFile>
    ensures { AlikePromise a.now b.now result }
{
    if !order_check::well_formed(a) {
        return Err(BrokenFile::First);
    }
    if !order_check::well_formed(b) {
        return Err(BrokenFile::Second);
    }
    Ok(compare::same_contents(a, b))
}
