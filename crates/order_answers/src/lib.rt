// What the reader of order files and the alike test answer, and the paper's number and place of each refusal.
#![tactic(auto)]

mod refusals;
mod tables;

pub use tables::OrderTable;

// The numbers of a header.
#[derive(Clone, Copy, Debug, PartialEq, Eq)]
pub struct Header {
    pub edition: u16,
    pub steps: u16,
    pub orders: u16,
    pub links: u16,
    pub rounds: u32,
    pub windows_at: u32,
    pub orders_at: u32,
    pub links_at: u32,
}

// One record: a step's window, an order, or a link.
#[derive(Clone, Copy, Debug, PartialEq, Eq)]
pub enum Record {
    Window {
        limit: u32,
        latest: u32,
        earliest: u32,
    },
    Order {
        first: u16,
        second: u16,
        gap: i32,
    },
    Link(u16),
}

// The bytes are no order file, or the record is not there.
#[derive(Clone, Copy, Debug, PartialEq, Eq)]
pub struct NotAnOrderFile;

// Which of two files is no order file: of two broken ones the first.
#[derive(Clone, Copy, Debug, PartialEq, Eq)]
pub enum BrokenFile {
    First,
    Second,
}
