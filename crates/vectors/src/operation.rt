// The operations, and their letters.
use doors::cell::CELLS;

#[derive(Clone, Copy)]
pub enum Operation {
    Read,
    Step,
    Entry,
    Rewrite,
    Write,
    Post,
    Load,
    Store,
    ToNew,
    ToOld,
    Feed,
}

impl Operation {
    // How many numbers stand before the octets: a place, a room, a number of a record; of `write` the room and the cells of a record.
    pub(crate) fn numbers(self) -> usize {
        match self {
            Operation::Read | Operation::Load => 0,
            Operation::Step
            | Operation::Rewrite
            | Operation::Post
            | Operation::Store
            | Operation::ToNew
            | Operation::ToOld
            | Operation::Feed => 1,
            Operation::Entry => 2,
            Operation::Write => 1 + CELLS,
        }
    }
}

// The most letters of an operation.
const LONGEST: usize = 7;

// Letters of an operation so far: octets and how many, on no heap.
#[derive(Clone, Copy)]
pub struct Letters {
    octets: [u8; LONGEST],
    len: usize,
}

impl Letters {
    pub(crate) const NONE: Letters = Letters {
        octets: [0; LONGEST],
        len: 0,
    };

    // One more; none where they are too many.
    pub(crate) fn with(self, c: u8) -> Option<Letters> {
        let mut octets = self.octets;
        *octets.get_mut(self.len)? = c;
        Some(Letters {
            octets,
            len: self.len + 1,
        })
    }

    // The operation that they name.
    pub(crate) fn operation(self) -> Option<Operation> {
        match self.octets.get(..self.len)? {
            b"read" => Some(Operation::Read),
            b"step" => Some(Operation::Step),
            b"entry" => Some(Operation::Entry),
            b"rewrite" => Some(Operation::Rewrite),
            b"write" => Some(Operation::Write),
            b"post" => Some(Operation::Post),
            b"load" => Some(Operation::Load),
            b"store" => Some(Operation::Store),
            b"to_new" => Some(Operation::ToNew),
            b"to_old" => Some(Operation::ToOld),
            b"feed" => Some(Operation::Feed),
            _ => None,
        }
    }
}
