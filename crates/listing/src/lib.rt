// What a reader found, as numbers in a lent list.
#![tactic(auto)]

ghost use Rattle.std.specs.Prelude.{◌≡◌, set};
ghost use Rattle.listing.specs.Listed as spec;

use order_answers::{Header, NotAnOrderFile, Record};

// Puts a number at an entry, if the list has that entry.
fn put(at: usize, n: u32, list: &mut [u32])
    ensures { list.new ≡ set list.old at n }
{
    if at < list.len() {
        list[at] = n;
    }
}

// Puts numbers at the front of a list, as many as it has room for.
fn fill(numbers: &[u32], list: &mut [u32])
    ensures { list.new ≡ spec.filled list.old numbers.now }
{
    for k in 0..numbers.len() {
        put(k, numbers[k], list);
    }
}

// Puts a header's numbers into a list; a refusal changes no entry.
pub fn list_header(read: Result<Header, NotAnOrderFile>, list: &mut [u32])
    ensures { list.new ≡ spec.filled list.old (spec.header_list read) }
{
    if let Ok(header) = read {
        fill(&header.numbers(), list);
    }
}

// Puts a record's numbers into a list; a refusal changes no entry.
pub fn list_record(read: Result<Record, NotAnOrderFile>, list: &mut [u32])
    ensures { list.new ≡ spec.filled list.old (spec.record_list read) }
{
    match read {
        Ok(
            Record::Window {
                limit,
                latest,
                earliest,
            },
        ) => fill(&[limit, latest, earliest], list),
        Ok(Record::Order { first, second, gap }) => {
            fill(
                &[u32::from(first), u32::from(second), gap.cast_unsigned()],
                list,
            )
        }
        Ok(Record::Link(link)) => fill(&[u32::from(link)], list),
        Err(_) => {}
    }
}
