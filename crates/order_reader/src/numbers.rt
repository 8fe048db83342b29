// The paper's number and place of each answer, and the numbers of a header.
ghost use Rattle.std.specs.Prelude.{◌≡◌};
ghost use Rattle.order_answers.specs.Answers.{header_number, header_place, header_values, record_number, record_place};
ghost use Rattle.order_answers.specs.Answers.{alike_number, alike_place, alike_yes};

use order_answers::{BrokenFile, Header, NotAnOrderFile, Record};
use verdict::NOWHERE;

pub fn header_number(answer: Result<Header, NotAnOrderFile>) -> u16
    ensures { result ≡ header_number answer }
{
    match answer {
        Ok(_header) => 0,
        Err(refusal) => refusal.number(),
    }
}

pub fn header_place(answer: Result<Header, NotAnOrderFile>) -> u16
    ensures { result ≡ header_place answer }
{
    match answer {
        Ok(_header) => NOWHERE,
        Err(refusal) => refusal.place(),
    }
}

// The header's eight numbers, zeros after a refusal.
pub fn header_values(answer: Result<Header, NotAnOrderFile>) -> [u32; 8]
    ensures { result ≡ header_values answer }
{
    match answer {
        Ok(header) => header.numbers(),
        Err(_refusal) => [0; 8],
    }
}

pub fn record_number(answer: Result<Record, NotAnOrderFile>) -> u16
    ensures { result ≡ record_number answer }
{
    match answer {
        Ok(_record) => 0,
        Err(refusal) => refusal.number(),
    }
}

pub fn record_place(answer: Result<Record, NotAnOrderFile>) -> u16
    ensures { result ≡ record_place answer }
{
    match answer {
        Ok(_record) => NOWHERE,
        Err(refusal) => refusal.place(),
    }
}

pub fn alike_number(answer: Result<bool, BrokenFile>) -> u16
    ensures { result ≡ alike_number answer }
{
    match answer {
        Ok(_same) => 0,
        Err(file) => file.number(),
    }
}

pub fn alike_place(answer: Result<bool, BrokenFile>) -> u16
    ensures { result ≡ alike_place answer }
{
    match answer {
        Ok(_same) => NOWHERE,
        Err(file) => file.place(),
    }
}

pub fn alike_yes(answer: Result<bool, BrokenFile>) -> bool
    ensures { result ≡ alike_yes answer }
{
    answer.unwrap_or(false)
}
