// The forms of a page: which tables it has, and how long they are.
ghost use Rattle.std.specs.Prelude.{◌≡◌, ◌<◌, ◌^◌};
ghost use Rattle.pages.specs.Pages.{row_wide, tables_of, head_long, page_length};

// A table has some columns of every row: the keys; the life counts and the readings; the times.
#[derive(Clone, Copy)]
pub enum Table {
    Keys,
    Readings,
    Times,
}

// An old page has keys and readings, a new one times too.
#[derive(Clone, Copy)]
pub enum Form {
    Old,
    New,
}

impl Table {
    // The octets that a table has of a row.
    pub(crate) fn row_wide(self) -> usize
        ensures { result ≡ row_wide self }
    {
        match self {
            Table::Keys => 4,
            Table::Readings => 12,
            Table::Times => 4,
        }
    }
}

impl Form {
    // The octets of a head.
    pub(crate) fn head_long(self) -> usize
        ensures { result ≡ head_long (tables_of self) }
    {
        match self {
            Form::Old => 8,
            Form::New => 10,
        }
    }

    // The octets of a page of n rows; a head has two octets for n.
    #[tactic(auto, unfolding(crate::specs::Pages::row_long))]
    pub(crate) fn page_length(self, n: usize) -> usize
        requires { n < 2 ^ 16 }
        ensures { result ≡ page_length (tables_of self) n }
    {
        match self {
            Form::Old => 8 + 16 * n,
            Form::New => 10 + 20 * n,
        }
    }
}
