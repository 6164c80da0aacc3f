// The cells of a record and those of a feed: the enums of include/wear.h, by their names. They are numbers, as an enum's variants would be
// cast at each use. First a record's.
pub const CATEGORY: usize = 0;

pub const MARKS: usize = CATEGORY + 1;

pub const SAC: usize = MARKS + 1;

pub const SIC: usize = SAC + 1;

pub const TYPE: usize = SIC + 1;

pub const SERVICE: usize = TYPE + 1;

pub const SID: usize = SERVICE + 1;

pub const STYP: usize = SID + 1;

pub const TIME: usize = STYP + 1;

pub const BATCH: usize = TIME + 1;

pub const NOGO: usize = BATCH + 1;

pub const OVL: usize = NOGO + 1;

pub const TSV: usize = OVL + 1;

pub const PSS: usize = TSV + 1;

pub const STTN: usize = PSS + 1;

pub const REPORT: usize = STTN + 1;

pub const GS_NOGO: usize = REPORT + 1;

pub const GS_ODP: usize = GS_NOGO + 1;

pub const GS_OXT: usize = GS_ODP + 1;

pub const GS_MSC: usize = GS_OXT + 1;

pub const GS_TSV: usize = GS_MSC + 1;

pub const GS_SPO: usize = GS_TSV + 1;

pub const GS_RN: usize = GS_SPO + 1;

pub const GS_EXTENDED: usize = GS_RN + 1;

pub const GSSP: usize = GS_EXTENDED + 1;

pub const RP: usize = GSSP + 1;

pub const SC: usize = RP + 1;

pub const SC_EXTENDED: usize = SC + 1;

pub const SSRP: usize = SC_EXTENDED + 1;

pub const RANGE: usize = SSRP + 1;

pub const STAT: usize = RANGE + 1;

pub const ENTRIES_AT: usize = STAT + 1;

pub const ENTRIES: usize = ENTRIES_AT + 1;

pub const RE_AT: usize = ENTRIES + 1;

pub const RE_OCTETS: usize = RE_AT + 1;

pub const SP_AT: usize = RE_OCTETS + 1;

pub const SP_OCTETS: usize = SP_AT + 1;

pub const CELLS: usize = SP_OCTETS + 1;

// A feed's.
pub const FEED_PAGE: usize = 0;

pub const FEED_USED: usize = FEED_PAGE + 1;

pub const FEED_LEFT_OFF: usize = FEED_USED + 1;

pub const FEED_ACCEPTED: usize = FEED_LEFT_OFF + 1;

pub const FEED_REFUSED: usize = FEED_ACCEPTED + 1;

pub const FEED_POSTED: usize = FEED_REFUSED + 1;

pub const FEED_UNPOSTED: usize = FEED_POSTED + 1;

pub const FEED_CELLS: usize = FEED_UNPOSTED + 1;
