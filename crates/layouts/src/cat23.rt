// Category 23 (003): its constants, its fields, and what its records must have.
use crate::category::{Category, Field};
use crate::ends::Kind;
use crate::form::Form;
use crate::presence::{Need, Rule};

#[derive(Clone, Copy)]
pub struct Cat23;

impl Cat23 {
    // The value of 000 in a statistics report, and the fields of what it is told by: 010, 015 and 120.
    pub const STATISTICS: u8 = 3;

    pub const F010: usize = 1;

    pub const F015: usize = 3;

    pub const F120: usize = 9;

    pub const I010: Field = Field(Form::Source, Kind::Fixed(2));

    pub const I000: Field = Field(Form::MessageType, Kind::Fixed(1));

    pub const I015: Field = Field(Form::Service, Kind::Fixed(1));

    pub const I070: Field = Field(Form::Time, Kind::Fixed(3));

    pub const I100: Field = Field(Form::Station, Kind::Extended(1, 1));

    pub const I101: Field = Field(Form::Configuration, Kind::Extended(2, 1));

    pub const I200: Field = Field(Form::Range, Kind::Fixed(1));

    pub const I110: Field = Field(Form::Status, Kind::Extended(1, 0));

    // The octets of an entry of 120.
    pub const ENTRY: usize = 6;

    pub const I120: Field = Field(Form::Statistics, Kind::Repeated(Self::ENTRY as u8));

    pub const RE: Field = Field(Form::Expansion, Kind::Explicit);

    pub const SP: Field = Field(Form::Purpose, Kind::Explicit);
}

impl Category for Cat23 {
    ghost CAT = { 23 };

    const CAT: u8 = 23;

    const MOST: u8 = 2;

    // Bit f - 1 is field f: 000 and 070.
    const MANDATORY: u32 = 0b1010;

    // The spare fields, 10 to 12, and those past the last.
    const UNUSED: u32 = 0xFFFF_CE00;

    fn field(f: usize) -> Field {
        match f {
            Self::F010 => Self::I010,
            2 => Self::I000,
            Self::F015 => Self::I015,
            4 => Self::I070,
            5 => Self::I100,
            6 => Self::I101,
            7 => Self::I200,
            8 => Self::I110,
            Self::F120 => Self::I120,
            13 => Self::RE,
            14 => Self::SP,
            _ => Field::SPARE,
        }
    }

    // In every type: 000 and 070 must be there (01 "Presence").
    fn rule(_message_type: u8, f: usize) -> Rule {
        match f {
            1 => Rule(Need::O, Kind::Fixed(2)), // 010
            2 => Rule(Need::M, Kind::Fixed(1)), // 000
            3 => Rule(Need::O, Kind::Fixed(1)), // 015
            4 => Rule(Need::M, Kind::Fixed(3)), // 070
            5 => Rule(Need::O, Kind::Extended(1, 1)), // 100
            6 => Rule(Need::O, Kind::Extended(2, 1)), // 101
            7 => Rule(Need::O, Kind::Fixed(1)), // 200
            8 => Rule(Need::O, Kind::Extended(1, 0)), // 110
            9 => Rule(Need::O, Kind::Repeated(6)), // 120
            10..=12 => Rule::SPARE,
            13..=14 => Rule(Need::O, Kind::Explicit), // RE, SP
            _ => Rule::SPARE,
        }
    }
}
