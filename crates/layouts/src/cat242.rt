// Category 242 (002): its constants, its fields, and what its records must have.
use crate::category::{Category, Field};
use crate::ends::Kind;
use crate::form::Form;
use crate::presence::{Need, Rule};

#[derive(Clone, Copy)]
pub struct Cat242;

impl Cat242 {
    pub const I010: Field = Field(Form::Source, Kind::Fixed(2));

    pub const I140: Field = Field(Form::Time, Kind::Fixed(3));

    // The octets of an entry of 550.
    pub const ENTRY: usize = 3;

    pub const I550: Field = Field(Form::Versions, Kind::Repeated(Self::ENTRY as u8));

    pub const SP: Field = Field(Form::Purpose, Kind::Explicit);

    pub const RE: Field = Field(Form::Expansion, Kind::Explicit);
}

impl Category for Cat242 {
    ghost CAT = { 242 };

    const CAT: u8 = 242;

    const MOST: u8 = 1;

    // Bit f - 1 is field f: 010, 140 and 550.
    const MANDATORY: u32 = 0b111;

    // The spare fields, 4 and 5, and those past the last.
    const UNUSED: u32 = 0xFFFF_FF98;

    fn field(f: usize) -> Field {
        match f {
            1 => Self::I010,
            2 => Self::I140,
            3 => Self::I550,
            6 => Self::SP,
            7 => Self::RE,
            _ => Field::SPARE,
        }
    }

    // The category has no types: its three items must be there (01 "Presence").
    fn rule(_message_type: u8, f: usize) -> Rule {
        match f {
            1 => Rule(Need::M, Kind::Fixed(2)), // 010
            2 => Rule(Need::M, Kind::Fixed(3)), // 140
            3 => Rule(Need::M, Kind::Repeated(3)), // 550
            4..=5 => Rule::SPARE,
            6..=7 => Rule(Need::O, Kind::Explicit), // SP, RE
            _ => Rule::SPARE,
        }
    }
}
