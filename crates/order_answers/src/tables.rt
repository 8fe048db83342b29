// The tables of an order file, and their numbers.
ghost use Rattle.std.specs.Prelude.{◌≡◌, ◌<◌};
ghost use Rattle.std.specs.Option.{MatchOption};
ghost use Rattle.order_answers.specs.Answers.{table_number};

#[derive(Clone, Copy, Debug, PartialEq, Eq)]
pub enum OrderTable {
    Windows,
    Orders,
    Links,
}

impl OrderTable {
    // The table of a number, if there is one.
    pub fn numbered(number: u32) -> Option<OrderTable>
        ensures { MatchOption result (2 < number) (λ t. number ≡ table_number t) }
    {
        match number {
            0 => Some(OrderTable::Windows),
            1 => Some(OrderTable::Orders),
            2 => Some(OrderTable::Links),
            _ => None,
        }
    }
}
