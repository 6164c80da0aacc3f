// The items that document 01 lists.

// What an item holds: one name for each layout and place in the typed record.
#[derive(Clone, Copy)]
pub enum Form {
    Spare,
    // 010.
    Source,
    // 23/000, 65/000.
    MessageType,
    // 23/015.
    Service,
    // 65/015.
    Identification,
    // 23/070, 65/030, 242/140.
    Time,
    // 65/020.
    Batch,
    // 65/040.
    Sdps,
    // 65/050.
    Report,
    // 23/100.
    Station,
    // 23/101.
    Configuration,
    // 23/200, in NM.
    Range,
    // 23/110, STAT.
    Status,
    // 23/120.
    Statistics,
    // 242/550.
    Versions,
    // RE.
    Expansion,
    // SP.
    Purpose,
}
