// A page written.
ghost use Rattle.std.specs.Prelude.{◌≡◌, ◌+◌, ◌*◌, ◌≤◌, length};
ghost use Rattle.octets.specs.Numbers.{laid};
ghost use Rattle.octets.specs.Written.{as_written};
ghost use Rattle.octets.specs.Outcomes.{puts, within, answer_of, output_of, listed_written, outcome_listed};
ghost use Rattle.ledger.specs.Ledgers.{count_of, rows_of, table, as_row};
ghost use Rattle.pages.specs.Pages.{row_octets, row_wide, tables_of, head_long, page_length, head_of, page_of};

use crate::forms::{Form, Table};
use ledger::cells::{Row, count_of, row_at};
use ledger::kept::KeptLedger;
use octets::refusal::Refusal;
use octets::write;

// Writes what a table has of a row.
fn put_part(out: &mut [u8], at: usize, which: Table, row: Row)
    requires { at + row_wide which ≤ length out.old }
    ensures { out.new ≡ laid out.old at (row_octets which (as_row row)) }
{
    match which {
        Table::Keys => write(out, at, 4, row.key),
        Table::Readings => {
            write(out, at, 8, row.life);
            write(out, at + 8, 4, row.reading);
        }
        Table::Times => write(out, at, 4, row.time),
    }
}

// Writes a table of a ledger.
fn put_table(out: &mut [u8], at: usize, which: Table, ledger: &KeptLedger)
    requires { at + row_wide which * count_of ledger.now.cells ≤ length out.old }
    ensures { out.new ≡ laid out.old at (table (row_octets which) (rows_of ledger.now.cells)) }
{
    let wide = which.row_wide();
    for i in 0..count_of(&ledger.cells) {
        put_part(out, at + wide * i, which, row_at(&ledger.cells, i));
    }
}

// Writes the head of a page of n rows. Where the readings end the times begin, or an old page ends.
fn put_head(out: &mut [u8], form: Form, n: usize)
    requires { (n ≤ 256) × (8 ≤ length out.old) × (head_long (tables_of form) ≤ length out.old) }
    ensures { out.new ≡ laid out.old 0 (head_of (tables_of form) n) }
{
    let head = form.head_long();
    write(out, 0, 2, n as u64);
    write(out, 2, 2, head as u64);
    write(out, 4, 2, (head + 4 * n) as u64);
    write(out, 6, 2, (head + 16 * n) as u64);
    match form {
        Form::Old => (),
        Form::New => write(out, 8, 2, (head + 20 * n) as u64),
    }
}

// Writes the page of a ledger.
fn put_page(out: &mut [u8], form: Form, ledger: &KeptLedger)
    requires { page_length (tables_of form) (count_of ledger.now.cells) ≤ length out.old }
    ensures { out.new ≡ laid out.old 0 (page_of (tables_of form) (rows_of ledger.now.cells)) }
{
    let n = count_of(&ledger.cells);
    let head = form.head_long();
    put_head(out, form, n);
    put_table(out, head, Table::Keys, ledger);
    put_table(out, head + 4 * n, Table::Readings, ledger);
    match form {
        Form::Old => (),
        Form::New => put_table(out, head + 16 * n, Table::Times, ledger),
    }
}

// Stores a ledger as a page in either form: 12; octets past the page stay. For the next layer.
pub fn store_kept(ledger: &KeptLedger, form: Form, out: &mut [u8]) -> Result<usize, Refusal>
    ensures { let outcome = within (length out.old) (puts (page_of (tables_of form) (rows_of ledger.now.cells))) in
        (out.new ≡ output_of out.old outcome) × (as_written result ≡ answer_of outcome)
        × (listed_written (as_written result) ≡ outcome_listed outcome) }
{
    let size = form.page_length(count_of(&ledger.cells));
    if out.len() < size {
        return Err(Refusal::OutputTooShort);
    }
    put_page(out, form, ledger);
    Ok(size)
}
