// The categories: what each gives (document 01, "Block and field specification"), and the same by its CAT.
ghost use Rattle.std.specs.Prelude.{◌≡◌, ℕ};
ghost use Rattle.layouts.specs.Categories.{known, category, field_at, field_marks, unused_marks};
ghost use Rattle.layouts.specs.Presence.{mandatory, needs_of, rule_at};

pub use crate::cat23::Cat23;
pub use crate::cat65::Cat65;
pub use crate::cat242::Cat242;
use crate::ends::Kind;
use crate::form::Form;
use crate::presence::Rule;

// What stands at a field: its form, and its kind with the sizes.
#[derive(Clone, Copy)]
pub struct Field(pub Form, pub Kind);

impl Field {
    pub const SPARE: Field = Field(Form::Spare, Kind::Spare);
}

// What a category gives, as a type with these constants. The constants are held to the definitions where they are given by CAT, below.
pub trait Category {
    ghost CAT: { ℕ };

    const CAT: u8;

    // The most specification octets.
    const MOST: u8;

    // The marks that every record has: bit f - 1 is field f.
    const MANDATORY: u32;

    // The marks that no record has: of 32 fields those that are spare, or past the last.
    const UNUSED: u32;

    // What stands at a field; a field past the last is spare.
    fn field(f: usize) -> Field
        ensures { result ≡ field_at (category CAT) f };

    // What a record of a type has at a field.
    fn rule(message_type: u8, f: usize) -> Rule
        ensures { result ≡ rule_at CAT message_type f };
}

// The functions below take a CAT, and a type, as any octet, since each octet is answered: what no category has is none of them. Each picks its own, as a
// type is no value that one function could hand out.

// Whether the box reads a category.
pub fn is_known(cat: u8) -> bool
    ensures { result ≡ known cat }
{
    matches!(cat, Cat23::CAT | Cat65::CAT | Cat242::CAT)
}

// The most specification octets of a category.
pub fn most_of(cat: u8) -> u8
    ensures { result ≡ (category cat).most }
{
    match cat {
        Cat23::CAT => Cat23::MOST,
        Cat65::CAT => Cat65::MOST,
        Cat242::CAT => Cat242::MOST,
        _ => 0,
    }
}

// The marks that every record of a category has.
pub fn mandatory_of(cat: u8) -> u32
    ensures { result ≡ field_marks (mandatory (needs_of cat)) }
{
    match cat {
        Cat23::CAT => Cat23::MANDATORY,
        Cat65::CAT => Cat65::MANDATORY,
        Cat242::CAT => Cat242::MANDATORY,
        _ => 0,
    }
}

// The marks that no record of a category has: of 32 fields those that are spare, or past the category's last.
pub fn unused_of(cat: u8) -> u32
    ensures { result ≡ unused_marks 32 (category cat).fields }
{
    match cat {
        Cat23::CAT => Cat23::UNUSED,
        Cat65::CAT => Cat65::UNUSED,
        Cat242::CAT => Cat242::UNUSED,
        _ => 0xFFFF_FFFF,
    }
}

// What stands at a field of a category; a field past the last is spare.
pub fn field_of(cat: u8, f: usize) -> Field
    ensures { result ≡ field_at (category cat) f }
{
    match cat {
        Cat23::CAT => Cat23::field(f),
        Cat65::CAT => Cat65::field(f),
        Cat242::CAT => Cat242::field(f),
        _ => Field::SPARE,
    }
}
