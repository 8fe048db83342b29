// The paper's number and place of each refusal, and the numbers of a header.
ghost use Rattle.std.specs.Prelude.{◌≡◌};
ghost use Rattle.order_answers.specs.Answers.{no_order_file, broken_place, numbers_of};

use crate::{BrokenFile, Header, NotAnOrderFile};

// The refusal of a file that is no order file.
const NO_ORDER_FILE: u16 = 16;

impl NotAnOrderFile {
    pub fn number(self) -> u16
        ensures { result ≡ no_order_file }
    {
        NO_ORDER_FILE
    }

    pub fn place(self) -> u16
        ensures { result ≡ 0 }
    {
        0
    }
}

impl BrokenFile {
    pub fn number(self) -> u16
        ensures { result ≡ no_order_file }
    {
        NO_ORDER_FILE
    }

    pub fn place(self) -> u16
        ensures { result ≡ broken_place self }
    {
        match self {
            BrokenFile::First => 0,
            BrokenFile::Second => 1,
        }
    }
}

impl Header {
    // All eight of them, in the file's order.
    pub fn numbers(self) -> [u32; 8]
        ensures { result ≡ numbers_of self }
    {
        [
            u32::from(self.edition),
            u32::from(self.steps),
            u32::from(self.orders),
            u32::from(self.links),
            self.rounds,
            self.windows_at,
            self.orders_at,
            self.links_at,
        ]
    }
}
