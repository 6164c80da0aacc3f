// One typed record in normal form; its entries and content lie in a lent source.
ghost use Rattle.std.specs.Prelude.{◌≡◌, true, ◌+◌, ◌≤◌, ◌<◌, ◌^◌, length};
ghost use Rattle.octets.specs.Numbers.{laid};
ghost use Rattle.layouts.specs.Categories.{known};
ghost use Rattle.blocks.specs.Specification.{put_marks};
ghost use Rattle.blocks.specs.Meaning.{item_in, sevens};
ghost use Rattle.items.specs.Size.{as_size};
ghost use Rattle.writing.specs.Judged.{items_size, items_octets, flags, fields, marked_type, specification_octet, record_octets, record_size};

use crate::judged::Judged;
use blocks::marks::{is_marked, last_field, marks_refusal};
use blocks::presence::is_present;
use blocks::record::Record;
use items::item::{judge, put_item};
use items::typed::Item;
use layouts::category::{Cat242, Category, field_of, is_known};
use layouts::form::Form;
use octets::refusal::Refusal;

// The low bit of a specification octet, set where others follow.
const FX: u8 = 1;

// The item of a form.
fn item_in(record: Record, form: Form) -> Item
    ensures { result ≡ item_in «record» form }
{
    match form {
        Form::Spare => Item::Absent,
        Form::Source => Item::Source(record.source),
        Form::MessageType => Item::MessageType(record.message_type),
        Form::Service => Item::Service(record.service),
        Form::Identification => Item::Identification(record.identification),
        Form::Time => Item::Time(record.time),
        Form::Batch => Item::Batch(record.batch),
        Form::Sdps => Item::Sdps(record.sdps),
        Form::Report => Item::Report(record.report),
        Form::Station => Item::Station(record.station),
        Form::Configuration => Item::Configuration(record.configuration),
        Form::Range => Item::Range(record.range),
        Form::Status => Item::Status(record.status),
        Form::Statistics => Item::Statistics(record.entries),
        Form::Versions => Item::Versions(record.entries),
        Form::Expansion => Item::Expansion(record.expansion),
        Form::Purpose => Item::Purpose(record.purpose),
    }
}

// How many octets the marked items have, or the refusal of the first that has one.
fn items_size(record: Record, source: &[u8]) -> Result<usize, Refusal>
    requires { known «record».category ≡ true }
    ensures { as_size result ≡ items_size source.now «record» (flags source.now «record») (fields source.now «record») }
{
    let cat = record.category;
    let last = last_field(cat);
    let mut total: usize = 0;
    for f in 1..=last {
        if is_marked(record.marks, f) {
            let field = field_of(cat, f);
            total += judge(item_in(record, field.0), field, source)?;
        }
    }
    Ok(total)
}

// The record's type, for presence: the value of item 000, where it is marked; category 242 has none.
fn type_of(record: Record) -> u8
    ensures { result ≡ marked_type «record».category «record».marks «record».message_type }
{
    if record.category != Cat242::CAT && is_marked(record.marks, 2) {
        record.message_type
    } else {
        0
    }
}

// How many octets the specification has: none behind the last that marks something.
fn marks_octets(marks: u32) -> usize
    requires { marks < 128 ^ 4 }
    ensures { result ≡ length (put_marks (sevens 4 marks)) }
{
    match marks {
        0..128 => 1,
        128..16384 => 2,
        16384..2097152 => 3,
        _ => 4,
    }
}

// How many octets a record has in normal form, or what refuses it: 2, 6, 5, by item 7, 8, 11; 10.
pub(crate) fn record_size(record: Record, source: &[u8]) -> Result<usize, Refusal>
    ensures { as_size result ≡ record_size source.now «record» }
{
    let cat = record.category;
    let marks = record.marks;
    if !is_known(cat) {
        return Err(Refusal::UnknownCategory);
    }
    marks_refusal(cat, marks)?;
    let size = items_size(record, source)?;
    if is_present(cat, type_of(record), marks) {
        Ok(marks_octets(marks) + size)
    } else {
        Err(Refusal::PresenceBroken)
    }
}

// A specification octet of the low seven marks: the first field's is its high bit. FX is not set.
fn marks_octet(low: u32) -> u8
    requires { low < 128 }
    ensures { (result ≡ specification_octet low) × (result < 255) }
{
    (low as u8).reverse_bits()
}

// Writes the specification, and gives the offset behind it.
fn put_marks(out: &mut [u8], at: usize, marks: u32) -> usize
    requires { (marks < 128 ^ 4) × (at + length (put_marks (sevens 4 marks)) ≤ length out.old) }
    ensures { (out.new ≡ laid out.old at (put_marks (sevens 4 marks))) × (result ≡ at + length (put_marks (sevens 4 marks))) }
{
    let last = at + marks_octets(marks) - 1;
    let mut left = marks;
    for p in at..last {
        out[p] = marks_octet(left % 128) + FX;
        left /= 128;
    }
    out[last] = marks_octet(left);
    last + 1
}

impl<'a> Judged<'a> {
    // Writes the marked items, and gives the offset behind them.
    fn put_items(&self, out: &mut [u8], at: usize) -> usize
        requires { at + length (items_octets self.now.source.now self.now.typed) ≤ length out.old }
        ensures { (out.new ≡ laid out.old at (items_octets self.now.source.now self.now.typed))
            × (result ≡ at + length (items_octets self.now.source.now self.now.typed)) }
    {
        let cat = self.typed.category;
        let last = last_field(cat);
        let mut p = at;
        for f in 1..=last {
            if is_marked(self.typed.marks, f) {
                let field = field_of(cat, f);
                p = put_item(out, p, item_in(self.typed, field.0), field, self.source);
            }
        }
        p
    }

    // Writes the record in normal form, and gives the offset behind it.
    pub(crate) fn put(&self, out: &mut [u8], at: usize) -> usize
        requires { at + length (record_octets self.now.source.now self.now.typed) ≤ length out.old }
        ensures { (out.new ≡ laid out.old at (record_octets self.now.source.now self.now.typed))
            × (result ≡ at + length (record_octets self.now.source.now self.now.typed)) }
    {
        let p = put_marks(out, at, self.typed.marks);
        self.put_items(out, p)
    }
}
