// What a record of each type has at a field: whether it must, may or must not be there, and how long it is (01 "Presence"). The walk goes by the
// fields' constants, as there is no type before item 000, which may be missing.
ghost use Rattle.std.specs.Prelude.{◌≡◌};
ghost use Rattle.layouts.specs.Presence.{rule_at};

use crate::category::{Cat23, Cat65, Cat242, Category};
use crate::ends::Kind;

// The letters of 000 §5.2.1: mandatory, optional, never present.
#[derive(Clone, Copy)]
pub enum Need {
    M,
    O,
    X,
}

// A field's presence, and its length.
#[derive(Clone, Copy)]
pub struct Rule(pub Need, pub Kind);

impl Rule {
    // A spare field, or one past the category's last: nothing is asked here, since a mark of it was refused before (5).
    pub const SPARE: Rule = Rule(Need::O, Kind::Spare);
}

// What a record of a category and a type has at a field.
pub fn rule_of(cat: u8, message_type: u8, f: usize) -> Rule
    ensures { result ≡ rule_at cat message_type f }
{
    match cat {
        Cat23::CAT => Cat23::rule(message_type, f),
        Cat65::CAT => Cat65::rule(message_type, f),
        Cat242::CAT => Cat242::rule(message_type, f),
        _ => Rule::SPARE,
    }
}
