// Which items a record has, by its type.
ghost use Rattle.std.specs.Prelude.{◌≡◌, ◌≤◌};
ghost use Rattle.layouts.specs.Presence.{needs_of, need_at, met, meets};
ghost use Rattle.blocks.specs.Marks.{flags_of, marked, has_all};

use crate::marks::{is_marked, last_field};
use layouts::category::mandatory_of;
use layouts::presence::{Need, rule_of};

// Every mark of the first is one of the second.
fn has_all(mandatory: u32, marks: u32) -> bool
    ensures { result ≡ has_all 32 mandatory marks }
{
    marks & mandatory == mandatory
}

// Whether a field is as the rule of the record's type asks. Its mark is looked at only where that matters, which keeps the test of all fields cheap.
fn is_met(cat: u8, message_type: u8, marks: u32, f: usize) -> bool
    requires { (1 ≤ f) × (f ≤ 32) }
    ensures { result ≡ met (need_at (needs_of cat) message_type f) (marked marks f) }
{
    match rule_of(cat, message_type, f).0 {
        Need::M => is_marked(marks, f),
        Need::O => true,
        Need::X => !is_marked(marks, f),
    }
}

// Whether a record of a type has the items that it must have, and none that it must not. One that lacks a mandatory item, as 000, without which it
// has no type, is not looked at further; of any other each field is held to the rule of its type.
pub fn is_present(cat: u8, message_type: u8, marks: u32) -> bool
    ensures { result ≡ meets (needs_of cat) message_type (flags_of 32 marks) }
{
    has_all(mandatory_of(cat), marks)
        && (1..last_field(cat) + 1).all(|f| is_met(cat, message_type, marks, f))
}
