// The typed forms of items. Units are types: none can stand where another is asked for.

// Of 0.5 s.
#[derive(Clone, Copy)]
pub struct HalfSeconds(pub u8);

#[derive(Clone, Copy)]
pub struct Seconds(pub u8);

// Of 1/128 s since midnight.
#[derive(Clone, Copy)]
pub struct TimeOfDay(pub u32);

// The greatest values: of a type (23/000, 65/000) and of a report (65/050), which count from 1; of a time of day, which may be
// in a leap second; of a period in seconds (GSSP, SSRP), at least 1; and of a version number (242/550).
pub const LAST_TYPE: u8 = 3;

pub const LAST_REPORT: u8 = 16;

pub const LATEST: u32 = 11059327;

pub const LONGEST: u8 = 127;

pub const LAST_VERSION: u8 = 99;

// The most that a count octet says: entries, or octets of RE or SP with that octet itself.
pub const MOST_COUNTED: usize = 255;

// 010.
#[derive(Clone, Copy)]
pub struct Source {
    pub sac: u8,
    pub sic: u8,
}

// 23/015.
#[derive(Clone, Copy)]
pub struct Service {
    pub sid: u8,
    pub styp: u8,
}

// 65/040. STTN changes its value whenever the SDPS starts to re-number its tracks.
#[derive(Clone, Copy)]
pub struct Sdps {
    pub nogo: u8,
    pub ovl: u8,
    pub tsv: u8,
    pub pss: u8,
    pub sttn: u8,
}

// 23/100. Extended is 1 where the extension is there, else 0: a number, and no Option of the period, since a writer refuses any other number (11).
#[derive(Clone, Copy)]
pub struct Station {
    pub nogo: u8,
    pub odp: u8,
    pub oxt: u8,
    pub msc: u8,
    pub tsv: u8,
    pub spo: u8,
    pub rn: u8,
    pub extended: u8,
    pub gssp: Seconds,
}

// 23/101. Extended is a number, as that of 23/100.
#[derive(Clone, Copy)]
pub struct Configuration {
    pub rp: HalfSeconds,
    pub sc: u8,
    pub extended: u8,
    pub ssrp: Seconds,
}

// Entries or content: the offset of the first, and how many there are.
#[derive(Clone, Copy)]
pub struct Place {
    pub at: usize,
    pub count: usize,
}

// An entry of 23/120. REF is the bit as it stands, and no enum, since entries are handed on in the document's numbers, to C too.
#[derive(Clone, Copy)]
pub struct Counter {
    pub typ: u8,
    pub reference: u8,
    pub count: u32,
}

// An entry of 242/550.
#[derive(Clone, Copy)]
pub struct Version {
    pub category: u8,
    pub main: u8,
    pub sub: u8,
}

// An item in its typed form.
#[derive(Clone, Copy)]
pub enum Item {
    Absent,
    Source(Source),
    MessageType(u8),
    Service(Service),
    Identification(u8),
    Time(TimeOfDay),
    Batch(u8),
    Sdps(Sdps),
    Report(u8),
    Station(Station),
    Configuration(Configuration),
    Range(u8),
    Status(u8),
    Statistics(Place),
    Versions(Place),
    Expansion(Place),
    Purpose(Place),
}
