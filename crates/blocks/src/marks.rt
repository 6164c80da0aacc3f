// The marks of a record's fields as a number: bit f - 1 for field f.
ghost use Rattle.std.specs.Prelude.{◌≡◌, [], ◌∷◌, ◌+◌, ◌*◌, ◌-◌, ◌/◌, ◌≤◌, ◌<◌, length};
ghost use Rattle.std.specs.Option.{MatchOption};
ghost use Rattle.octets.specs.Refusals.{refusal_in};
ghost use Rattle.layouts.specs.Categories.{category};
ghost use Rattle.blocks.specs.Specification.{flags};
ghost use Rattle.blocks.specs.Marks.{marks_of, flags_of, marked, groups_of, next_from};
ghost use Rattle.blocks.specs.Records.{marks_spare, marks_refusal};

use octets::refusal::Refusal;

// The marks of one specification octet.
fn octet_marks(x: u8) -> u32
    ensures { (result ≡ marks_of (flags (x / 2 ∷ []))) × (result < 128) }
{
    // Bit by bit, since `reverse_bits` was tried and is slower.
    (x / 128 % 2
        + x / 64 % 2 * 2
        + x / 32 % 2 * 4
        + x / 16 % 2 * 8
        + x / 8 % 2 * 16
        + x / 4 % 2 * 32
        + x / 2 % 2 * 64) as u32
}

// The marks in the specification octets from one offset up to another: at most four, and they lie in the slice.
pub(crate) fn marks_at(s: &[u8], from: usize, to: usize) -> u32
    requires { (from ≤ to) × (to ≤ from + 4) × (to ≤ length s.now) }
    ensures { result ≡ marks_of (flags (groups_of (to - from) s.now from)) }
{
    s[from..to]
        .iter()
        .rev()
        .fold(0, |m, x| (m << 7) + octet_marks(*x))
}

// Whether a field is marked. Only for the next layer: a field from 1 to 32.
pub fn is_marked(marks: u32, field: usize) -> bool
    requires { (1 ≤ field) × (field ≤ 32) }
    ensures { result ≡ marked marks field }
{
    (marks >> (field - 1)) % 2 == 1
}

// The first marked field from a field on.
pub(crate) fn next_field(marks: u32, from: usize) -> Option<usize>
    requires { (1 ≤ from) × (from ≤ 33) }
    ensures { MatchOption result (next_from marks from ≡ 33) (λ f. (f ≡ next_from marks from) × (from ≤ f) × (f ≤ 32)) }
{
    // In 64 bits, since from field 33 on the shift is one by 32.
    let left = u64::from(marks) >> (from - 1);
    if left == 0 {
        None
    } else {
        Some(from + left.trailing_zeros() as usize)
    }
}

// A category's last field: a specification octet marks seven. One that is not read has none.
pub fn last_field(cat: u8) -> usize
    ensures { (result ≡ length (category cat).fields) × (result ≤ 14) }
{
    layouts::category::most_of(cat) as usize * 7
}

// Whether a field is marked that is spare, or past the category's last.
fn marks_spare(cat: u8, marks: u32) -> bool
    ensures { result ≡ marks_spare (flags_of 32 marks) (category cat).fields }
{
    marks & layouts::category::unused_of(cat) != 0
}

// 6 for no mark, 5 for one of a spare field or one past the category's last.
pub fn marks_refusal(cat: u8, marks: u32) -> Result<(), Refusal>
    ensures { refusal_in result ≡ marks_refusal (category cat) marks }
{
    if marks == 0 {
        return Err(Refusal::NoneMarked);
    }
    if marks_spare(cat, marks) {
        return Err(Refusal::SpareMarked);
    }
    Ok(())
}
