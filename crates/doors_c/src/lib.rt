#![tactic(auto)]

// The doors as a C program links them: each export calls the function of the same name in `doors`, and promises the same. C links functions by name, so
// each stands here once more.
ghost use Rattle.std.specs.Prelude.{◌||◌, [], ◌∷◌, ◌≡◌, ◌+◌, ◌≤◌, length};
ghost use Rattle.octets.specs.Numbers.{laid};
ghost use Rattle.octets.specs.Outcomes.{within, answer_of, output_of, listed_written, outcome_listed};
ghost use Rattle.blocks.specs.Walks.{read_listed};
ghost use Rattle.blocks.specs.Steps.{step_listed, entry_listed};
ghost use Rattle.writing.specs.Written.{rewrite_of};
ghost use Rattle.pages.specs.Pages.{old, new, tables_of, turn_of};
ghost use Rattle.doors.specs.Cell.{cell_count, feed_cell_count};
ghost use Rattle.doors.specs.Answers.{version, is_few, refusal_or, cells_or, read_cells, step_cells, entry_cells, put_refusal, put_output, put_length, cells_written, page_posted};
ghost use Rattle.doors.specs.Feeds.{is_over, feed_run, page_fed, feed_cells};

// The version of these doors, to be compared with the header's.
#[unsafe(no_mangle)]
pub extern "C" fn wear_version() -> u32
    ensures { result ≡ version }
{
    doors::wear_version()
}

// Offset, LEN, count of records.
#[unsafe(no_mangle)]
pub extern "C" fn wear_read(s: &[u8], cells: &mut [u64]) -> u32
    ensures { (result ≡ refusal_or (is_few 3 cells.old) (read_listed s.now).refusal)
        × (cells.new ≡ cells_or (is_few 3 cells.old) cells.old (read_cells (read_listed s.now))) }
{
    doors::wear_read(s, cells)
}

// Offset, next start, and the record's cells.
#[unsafe(no_mangle)]
pub extern "C" fn wear_step(s: &[u8], start: usize, cells: &mut [u64]) -> u32
    ensures { (result ≡ refusal_or (is_few (2 + cell_count) cells.old) (step_listed s.now start).refusal)
        × (cells.new ≡ cells_or (is_few (2 + cell_count) cells.old) cells.old (step_cells (step_listed s.now start))) }
{
    doors::wear_step(s, start, cells)
}

// Offset, and the entry's three values.
#[unsafe(no_mangle)]
pub extern "C" fn wear_entry(s: &[u8], start: usize, k: usize, cells: &mut [u64]) -> u32
    ensures { (result ≡ refusal_or (is_few 4 cells.old) (entry_listed s.now start k).refusal)
        × (cells.new ≡ cells_or (is_few 4 cells.old) cells.old (entry_cells (entry_listed s.now start k))) }
{
    doors::wear_entry(s, start, k, cells)
}

// A record's cells as a block; entries and content from the source.
#[unsafe(no_mangle)]
pub extern "C" fn wear_write(cells: &[u64], source: &[u8], out: &mut [u8], size: &mut [u64]) -> u32
    ensures { (result ≡ put_refusal (is_few cell_count cells.now || is_few 1 size.old) (within (length out.old) (cells_written cells.now source.now)))
        × (out.new ≡ put_output (is_few cell_count cells.now || is_few 1 size.old) out.old (within (length out.old) (cells_written cells.now source.now)))
        × (size.new ≡ put_length (is_few cell_count cells.now || is_few 1 size.old) size.old (within (length out.old) (cells_written cells.now source.now))) }
{
    doors::wear_write(cells, source, out, size)
}

// A block in normal form.
#[unsafe(no_mangle)]
pub extern "C" fn wear_rewrite(s: &[u8], out: &mut [u8], size: &mut [u64]) -> u32
    ensures { (result ≡ put_refusal (is_few 1 size.old) (within (length out.old) (rewrite_of s.now)))
        × (out.new ≡ put_output (is_few 1 size.old) out.old (within (length out.old) (rewrite_of s.now)))
        × (size.new ≡ put_length (is_few 1 size.old) size.old (within (length out.old) (rewrite_of s.now))) }
{
    doors::wear_rewrite(s, out, size)
}

// An old page as a new one with all times unknown.
#[unsafe(no_mangle)]
pub extern "C" fn wear_page_to_new(page: &[u8], out: &mut [u8], size: &mut [u64]) -> u32
    ensures { (result ≡ put_refusal (is_few 1 size.old) (within (length out.old) (turn_of old new page.now)))
        × (out.new ≡ put_output (is_few 1 size.old) out.old (within (length out.old) (turn_of old new page.now)))
        × (size.new ≡ put_length (is_few 1 size.old) size.old (within (length out.old) (turn_of old new page.now))) }
{
    doors::wear_page_to_new(page, out, size)
}

// A new page as an old one, without the times.
#[unsafe(no_mangle)]
pub extern "C" fn wear_page_to_old(page: &[u8], out: &mut [u8], size: &mut [u64]) -> u32
    ensures { (result ≡ put_refusal (is_few 1 size.old) (within (length out.old) (turn_of new old page.now)))
        × (out.new ≡ put_output (is_few 1 size.old) out.old (within (length out.old) (turn_of new old page.now)))
        × (size.new ≡ put_length (is_few 1 size.old) size.old (within (length out.old) (turn_of new old page.now))) }
{
    doors::wear_page_to_old(page, out, size)
}

// Load, post, store: the ledger goes in and out as a page.
#[unsafe(no_mangle)]
pub extern "C" fn wear_post(
    page: &[u8],
    s: &[u8],
    k: usize,
    out: &mut [u8],
    size: &mut [u64],
) -> u32
    ensures { (result ≡ put_refusal (is_few 1 size.old) (within (length out.old) (page_posted page.now s.now k)))
        × (out.new ≡ put_output (is_few 1 size.old) out.old (within (length out.old) (page_posted page.now s.now k)))
        × (size.new ≡ put_length (is_few 1 size.old) size.old (within (length out.old) (page_posted page.now s.now k))) }
{
    doors::wear_post(page, s, k, out, size)
}

// The blocks at hand of a feed posted to the ledger of a page, and the ledger stored; `more` is 0 where the input ends with them.
#[unsafe(no_mangle)]
pub extern "C" fn wear_feed(
    page: &[u8],
    s: &[u8],
    more: u32,
    out: &mut [u8],
    cells: &mut [u64],
) -> u32
    ensures { (result ≡ put_refusal (is_few feed_cell_count cells.old) (within (length out.old) (page_fed page.now s.now (is_over more))))
        × (out.new ≡ put_output (is_few feed_cell_count cells.old) out.old (within (length out.old) (page_fed page.now s.now (is_over more))))
        × (cells.new ≡ cells_or (is_few feed_cell_count cells.old) cells.old (feed_cells (within (length out.old) (page_fed page.now s.now (is_over more))) (feed_run page.now s.now (is_over more)))) }
{
    doors::wear_feed(page, s, more, out, cells)
}
