// Cases about order files.
use crate::fields::{LONGEST_FIELD, read_field, read_number};
use crate::lines;
use order_answers::Record;
use order_reader::numbers;
use std::io;
use std::io::{Read, Write};

// The table of the links, whose records have one number; those of the others have three.
const LINKS: u32 = 2;

// `h`: the header.
pub fn serve_header(cases: &mut impl Read, output: &mut impl Write) -> io::Result<bool> {
    let mut file = [0u8; LONGEST_FIELD];
    let Some(n) = read_field(cases, &mut file)? else {
        return lines::bad_cases(output);
    };
    let header = order_reader::read_header(&file[..n]);
    lines::begin(
        output,
        b"h",
        numbers::header_number(header),
        numbers::header_place(header),
    )?;
    lines::print_numbers(output, &numbers::header_values(header))?;
    lines::end(output)
}

// The zeros after a refusal, as many as a record of the table has numbers.
fn print_zeros(output: &mut impl Write, table: u32) -> io::Result<()> {
    lines::print_number(output, 0)?;
    if table != LINKS {
        lines::print_number(output, 0)?;
        lines::print_number(output, 0)?;
    }
    Ok(())
}

// The numbers of a record.
fn print_record(output: &mut impl Write, record: Record) -> io::Result<()> {
    match record {
        Record::Window {
            limit,
            latest,
            earliest,
        } => {
            lines::print_number(output, limit as u64)?;
            lines::print_number(output, latest as u64)?;
            lines::print_number(output, earliest as u64)
        }
        Record::Order { first, second, gap } => {
            lines::print_number(output, first as u64)?;
            lines::print_number(output, second as u64)?;
            lines::print_signed(output, gap)
        }
        Record::Link(link) => lines::print_number(output, link as u64),
    }
}

// `r`: one record.
pub fn serve_record(cases: &mut impl Read, output: &mut impl Write) -> io::Result<bool> {
    let mut file = [0u8; LONGEST_FIELD];
    let field = read_field(cases, &mut file)?;
    let table = read_number(cases)?;
    let number = read_number(cases)?;
    let (Some(n), Some(table), Some(number)) = (field, table, number) else {
        return lines::bad_cases(output);
    };
    let answer = order_reader::read_record(&file[..n], table, number);
    lines::begin(
        output,
        b"r",
        numbers::record_number(answer),
        numbers::record_place(answer),
    )?;
    match answer {
        Ok(record) => print_record(output, record)?,
        Err(_refusal) => print_zeros(output, table)?,
    }
    lines::end(output)
}

// `a`: whether two are alike.
pub fn serve_alike(cases: &mut impl Read, output: &mut impl Write) -> io::Result<bool> {
    let mut a = [0u8; LONGEST_FIELD];
    let mut b = [0u8; LONGEST_FIELD];
    let first = read_field(cases, &mut a)?;
    let second = read_field(cases, &mut b)?;
    let (Some(n), Some(m)) = (first, second) else {
        return lines::bad_cases(output);
    };
    let answer = order_reader::alike(&a[..n], &b[..m]);
    lines::begin(
        output,
        b"a",
        numbers::alike_number(answer),
        numbers::alike_place(answer),
    )?;
    lines::print_number(output, u64::from(numbers::alike_yes(answer)))?;
    lines::end(output)
}
