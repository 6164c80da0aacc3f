// What the reads of standard input have given.
ghost use Rattle.std.specs.Prelude.{◌≡◌, ◌-◌, ◌≤◌, length, take, IfSome};
ghost use Rattle.feed.specs.Totals.{up};
ghost use Rattle.wear.specs.Turns.{unread, told_of, has_failed, Heard, OneMore, ReadOn};

use std::io::{Read, Stdin};

// Whether it goes on, is over, or a read failed: of the input, and of the run over it, which may also stop.
#[derive(Clone, Copy, PartialEq)]
pub enum Going {
    On,
    Over,
    Stopped,
    Failed,
}

// How many octets the reads have given in all, up to 2^64 - 1, and how the input stands since the last of them. The fields are this file's own:
// nobody else can make one of these or change it, so that whoever has one has it from the reads that it tells of.
#[derive(Clone, Copy)]
pub struct Reads {
    octets: u64,
    input: Going,
}

// So many octets more, up to 2^64 - 1.
pub(crate) fn more(octets: u64, n: usize) -> u64
    ensures { result ≡ up octets n }
{
    octets.saturating_add(n as u64)
}

// One read behind what is held: how many octets came, or none where it failed.
fn ask(mut stdin: Stdin, buffer: &mut [u8], held: usize) -> Option<usize>
    requires { held ≤ length buffer.old }
    ensures { (take held buffer.new ≡ take held buffer.old) × IfSome result (λ n. n ≤ length buffer.old - held) }
{
    stdin.read(&mut buffer[held..]).ok()
}

impl Reads {
    // Nothing has been read.
    pub(crate) fn none() -> Reads
        ensures { result ≡ unread }
    {
        Reads {
            octets: 0,
            input: Going::On,
        }
    }

    // One read more: what it gave, which is no octets at the end of the input.
    fn after(self, came: Option<usize>) -> Reads
        ensures told { result ≡ told_of self came }
        ensures more { OneMore self result }
    {
        match came {
            Some(n) => Reads {
                octets: more(self.octets, n),
                input: if n == 0 { Going::Over } else { Going::On },
            },
            None => Reads {
                input: Going::Failed,
                ..self
            },
        }
    }

    // One read behind what is held: how many octets came, or none where it failed.
    pub(crate) fn read_behind(
        &mut self,
        stdin: Stdin,
        buffer: &mut [u8],
        held: usize,
    ) -> Option<usize>
        requires { held ≤ length buffer.old }
        ensures held { take held buffer.new ≡ take held buffer.old }
        ensures heard { Heard (length buffer.old - held) self.old result self.new }
        ensures more { OneMore self.old self.new }
    {
        let came = ask(stdin, buffer, held);
        *self = self.after(came);
        came
    }

    // Reads on to the end of the input, or to a read that fails, or for as long as can be counted: only to count what comes.
    pub(crate) fn read_on(&mut self, stdin: Stdin, buffer: &mut [u8])
        ensures { ReadOn self.old self.new }
    {
        'reads: for _ in 0..u64::MAX {
            if self.input != Going::On {
                return;
            }
            self.read_behind(stdin, buffer, 0);
        }
    }

    // How many octets the reads have given behind so many.
    pub(crate) fn behind(self, used: u64) -> u64
        ensures { result ≡ self.octets - used }
    {
        self.octets.saturating_sub(used)
    }

    // Whether a read failed.
    pub(crate) fn has_failed(self) -> bool
        ensures { result ≡ has_failed self }
    {
        self.input == Going::Failed
    }
}
