// Category 65 (000): its constants, its fields, and what its records must have.
use crate::category::{Category, Field};
use crate::ends::Kind;
use crate::form::Form;
use crate::presence::{Need, Rule};

#[derive(Clone, Copy)]
pub struct Cat65;

impl Cat65 {
    // The values of 000 (000 §5.2.1).
    pub const SDPS_STATUS: u8 = 1;

    pub const END_OF_BATCH: u8 = 2;

    pub const SERVICE_STATUS_REPORT: u8 = 3;

    pub const I010: Field = Field(Form::Source, Kind::Fixed(2));

    pub const I000: Field = Field(Form::MessageType, Kind::Fixed(1));

    pub const I015: Field = Field(Form::Identification, Kind::Fixed(1));

    pub const I030: Field = Field(Form::Time, Kind::Fixed(3));

    pub const I020: Field = Field(Form::Batch, Kind::Fixed(1));

    pub const I040: Field = Field(Form::Sdps, Kind::Fixed(1));

    pub const I050: Field = Field(Form::Report, Kind::Fixed(1));

    pub const RE: Field = Field(Form::Expansion, Kind::Explicit);

    pub const SP: Field = Field(Form::Purpose, Kind::Explicit);
}

impl Category for Cat65 {
    ghost CAT = { 65 };

    const CAT: u8 = 65;

    const MOST: u8 = 2;

    // Bit f - 1 is field f: 010, 000, 015 and 030.
    const MANDATORY: u32 = 0b1111;

    // The spare fields, 8 to 12, and those past the last.
    const UNUSED: u32 = 0xFFFF_CF80;

    fn field(f: usize) -> Field {
        match f {
            1 => Self::I010,
            2 => Self::I000,
            3 => Self::I015,
            4 => Self::I030,
            5 => Self::I020,
            6 => Self::I040,
            7 => Self::I050,
            13 => Self::RE,
            14 => Self::SP,
            _ => Field::SPARE,
        }
    }

    // The table of 000 §5.2.1, type by type. The last row is for no type: a record without 000.
    fn rule(message_type: u8, f: usize) -> Rule {
        match message_type {
            Self::SDPS_STATUS => match f {
                1 => Rule(Need::M, Kind::Fixed(2)), // 010
                2..=3 => Rule(Need::M, Kind::Fixed(1)), // 000, 015
                4 => Rule(Need::M, Kind::Fixed(3)), // 030
                5 => Rule(Need::X, Kind::Fixed(1)), // 020
                6 => Rule(Need::M, Kind::Fixed(1)), // 040
                7 => Rule(Need::X, Kind::Fixed(1)), // 050
                8..=12 => Rule::SPARE,
                13..=14 => Rule(Need::O, Kind::Explicit), // RE, SP
                _ => Rule::SPARE,
            },
            Self::END_OF_BATCH => match f {
                1 => Rule(Need::M, Kind::Fixed(2)),
                2..=3 => Rule(Need::M, Kind::Fixed(1)),
                4 => Rule(Need::M, Kind::Fixed(3)),
                5 => Rule(Need::M, Kind::Fixed(1)), // 020
                6..=7 => Rule(Need::X, Kind::Fixed(1)), // 040, 050
                8..=12 => Rule::SPARE,
                13..=14 => Rule(Need::O, Kind::Explicit),
                _ => Rule::SPARE,
            },
            Self::SERVICE_STATUS_REPORT => match f {
                1 => Rule(Need::M, Kind::Fixed(2)),
                2..=3 => Rule(Need::M, Kind::Fixed(1)),
                4 => Rule(Need::M, Kind::Fixed(3)),
                5..=6 => Rule(Need::X, Kind::Fixed(1)), // 020, 040
                7 => Rule(Need::M, Kind::Fixed(1)), // 050
                8..=12 => Rule::SPARE,
                13..=14 => Rule(Need::O, Kind::Explicit),
                _ => Rule::SPARE,
            },
            _ => match f {
                1 => Rule(Need::M, Kind::Fixed(2)),
                2..=3 => Rule(Need::M, Kind::Fixed(1)),
                4 => Rule(Need::M, Kind::Fixed(3)),
                5..=7 => Rule(Need::X, Kind::Fixed(1)), // 020, 040, 050
                8..=12 => Rule::SPARE,
                13..=14 => Rule(Need::O, Kind::Explicit),
                _ => Rule::SPARE,
            },
        }
    }
}
