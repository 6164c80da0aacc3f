// One item in octets: read, judged and written, by what stands at its field.
ghost use Rattle.std.specs.Prelude.{◌≡◌, true, [], ◌++◌, ℕ, ◌+◌, ◌*◌, ◌%◌, ◌≤◌, ◌<◌, ltb, leb, eqb, length, get_or};
ghost use Rattle.octets.specs.Choice.{pick, when, odd};
ghost use Rattle.octets.specs.Numbers.{number, octets, laid};
ghost use Rattle.octets.specs.Refusals.{refusal_in, passes_end, no_count, out_of_range};
ghost use Rattle.layouts.specs.Groups.{values, fits};
ghost use Rattle.layouts.specs.Formats.{fits_in, put};
ghost use Rattle.layouts.specs.Offsets.{item_at, trace_at, extension_at, groups_at};
ghost use Rattle.layouts.specs.Layouts.{Layout, octet, times, format, kind_of, first_group, first_octets, entry_octets, entry_group};
ghost use Rattle.items.specs.Size.{as_size};
ghost use Rattle.layouts.specs.End.{as_end, At};
ghost use Rattle.layouts.specs.Ends.{Ends, end_of, kind_end};
ghost use Rattle.layouts.specs.Tables.{time, period, counter, version, layout};
ghost use Rattle.items.specs.Typed.{field_of, counted_octets, item_format, given, exact_fits, item_refusal, item_octets, size_of, listed_size, size_listed, counter_of, version_of, val, source_of, service_of, time_of, sdps_of, station_of, configuration_of, place_at};

use crate::typed::{
    Configuration, Counter, Item, LAST_REPORT, LAST_TYPE, LAST_VERSION, LATEST, LONGEST,
    MOST_COUNTED, Place, Sdps, Service, Source, Station, TimeOfDay, Version,
};
use crate::values::within;
use layouts::category::{Cat23, Cat242, Field};
use layouts::ends::{Kind, Window};
use layouts::form::Form;
use octets::refusal::Refusal;

// How many octets an item's first group has.
fn first_octets(kind: Kind) -> usize
    ensures { result ≡ first_octets kind }
{
    match kind {
        Kind::Fixed(size) | Kind::Extended(size, _) => size as usize,
        Kind::Spare | Kind::Repeated(_) | Kind::Explicit => 1,
    }
}

// How many octets an entry has; content has entries of one.
fn entry_octets(kind: Kind) -> usize
    ensures { result ≡ entry_octets kind }
{
    match kind {
        Kind::Repeated(size) => size as usize,
        Kind::Spare | Kind::Fixed(_) | Kind::Extended(_, _) | Kind::Explicit => 1,
    }
}

// An entry of 23/120. This and the next are two, as each gives a struct of its own.
pub fn counter_at(s: &[u8], at: usize) -> Counter
    ensures { result ≡ counter_of (values counter.parts (number counter.wide s.now at)) }
{
    crate::values::counter_of(octets::read(s, at, Cat23::ENTRY))
}

// An entry of 242/550.
pub fn version_at(s: &[u8], at: usize) -> Version
    ensures { result ≡ version_of (values version.parts (number version.wide s.now at)) }
{
    crate::values::version_of(octets::read(s, at, Cat242::ENTRY))
}

// The number of an item's extension, where FX of its first number is set; 0 where there is none.
fn extension_at(s: &[u8], at: usize, kind: Kind, first: u64) -> u64
    ensures { result ≡ extension_at s.now at kind first }
{
    match kind {
        Kind::Extended(size, _) if first % 2 == 1 => octets::octet(s, at, size as usize),
        _ => 0,
    }
}

// 7, 8 and 11 for entries or content at a place of a source of len octets; their count octet has extra more.
fn place_refusal(len: usize, place: Place, size: usize, extra: usize) -> Result<(), Refusal>
    requires { (0 < size) × (extra ≤ 255) }
    ensures { refusal_in result ≡ pick (ltb len (place.at + place.count * size)) passes_end (pick (eqb place.count 0) no_count (pick (leb (place.count + extra) 255) 0 out_of_range)) }
{
    if len < place.at {
        return Err(Refusal::PassesEnd);
    }
    if (len - place.at) / size < place.count {
        return Err(Refusal::PassesEnd);
    }
    if place.count == 0 {
        return Err(Refusal::NoCount);
    }
    if MOST_COUNTED - extra < place.count {
        return Err(Refusal::OutOfRange);
    }
    Ok(())
}

// The version numbers of the entry at an offset are in range.
fn version_fits(s: &[u8], at: usize) -> bool
    ensures { result ≡ fits version.parts (values version.parts (number version.wide s.now at)) }
{
    let entry = version_at(s, at);
    entry.main <= LAST_VERSION && entry.sub <= LAST_VERSION
}

// The versions of entries are in range.
fn versions_fit(s: &[u8], at: usize, count: usize) -> bool
    requires { at + count * version.wide ≤ length s.now }
    ensures { result ≡ fits_in (times count version) (groups_at count version s.now at) }
{
    (0..count).all(|i| version_fits(s, at + i * Cat242::ENTRY))
}

// Writes entries or content from a place of the source, spare bits cleared. The octets lie in both slices.
fn put_entries(
    out: &mut [u8],
    at: usize,
    source: &[u8],
    from: usize,
    count: usize,
    form: Form,
    size: usize,
)
    requires { (size ≡ (entry_group (layout form)).wide) × (from + count * size ≤ length source.now) × (at + count * size ≤ length out.old) }
    ensures { out.new ≡ laid out.old at (put (times count (entry_group (layout form))) (groups_at count (entry_group (layout form)) source.now from) []) }
{
    for i in 0..count {
        let x = octets::read(source, from + i * size, size);
        let cleared = crate::values::entry_number(form, x);
        octets::write(out, at + i * size, size, cleared);
    }
}

// 11 for a value that does not fit.
fn exact_refusal(item: Item) -> Result<(), Refusal>
    ensures { refusal_in result ≡ pick (exact_fits (item_format item) (given item)) 0 out_of_range }
{
    if crate::values::exact_fits(item) {
        Ok(())
    } else {
        Err(Refusal::OutOfRange)
    }
}

// As place_refusal, and 11 for a version out of range.
fn versions_refusal(place: Place, size: usize, source: &[u8]) -> Result<(), Refusal>
    requires { size ≡ version.wide }
    ensures { refusal_in result ≡ item_refusal source.now (Item.Versions place) }
{
    place_refusal(source.len(), place, size, 0)?;
    if versions_fit(source, place.at, place.count) {
        Ok(())
    } else {
        Err(Refusal::OutOfRange)
    }
}

// What refuses an item for writing, entries and content in the source: 7, 8, 11. The field is the item's; the two are no struct, as both are made anew
// for each marked field and taken apart at once.
pub(crate) fn item_refusal(item: Item, field: Field, source: &[u8]) -> Result<(), Refusal>
    requires { field ≡ field_of item }
    ensures { refusal_in result ≡ item_refusal source.now item }
{
    let size = entry_octets(field.1);
    match item {
        Item::Statistics(p) => place_refusal(source.len(), p, size, 0),
        Item::Versions(p) => versions_refusal(p, size, source),
        Item::Expansion(p) | Item::Purpose(p) => place_refusal(source.len(), p, size, 1),
        _ => exact_refusal(item),
    }
}

// How many octets an item that is not refused has.
fn octets_of(item: Item, field: Field, source: &[u8]) -> usize
    requires { (field ≡ field_of item) × (item_refusal source.now item ≡ 0) }
    ensures { result ≡ length (item_octets source.now item) }
{
    let place = crate::values::place_of(item);
    match field.1 {
        Kind::Spare => 0,
        Kind::Fixed(size) => size as usize,
        Kind::Extended(size, _) => size as usize + (crate::values::first_of(item) % 2) as usize,
        Kind::Repeated(size) => 1 + place.count * size as usize,
        Kind::Explicit => 1 + place.count,
    }
}

// How many octets an item has when written, or what refuses it. Only for the next layer: the field is the item's.
pub fn judge(item: Item, field: Field, source: &[u8]) -> Result<usize, Refusal>
    requires { field ≡ field_of item }
    ensures { (as_size result ≡ size_of source.now item) × (listed_size (as_size result) ≡ size_listed source.now item) }
{
    item_refusal(item, field, source)?;
    Ok(octets_of(item, field, source))
}

// Writes a part, and its extension where FX is set; gives the offset behind them.
fn put_extended(out: &mut [u8], at: usize, size: usize, first: u64, second: u64) -> usize
    requires { at + (size + first % 2) ≤ length out.old }
    ensures { (out.new ≡ laid out.old at (octets size first ++ when (odd first) (octets 1 second))) × (result ≡ at + (size + first % 2)) }
{
    octets::write(out, at, size, first);
    if first % 2 == 1 {
        octets::write(out, at + size, 1, second);
        at + size + 1
    } else {
        at + size
    }
}

// Writes a count octet, and the entries or content behind it; gives the offset behind them.
fn put_counted(
    out: &mut [u8],
    at: usize,
    source: &[u8],
    place: Place,
    form: Form,
    size: usize,
    extra: usize,
) -> usize
    requires { (size ≡ (entry_group (layout form)).wide) × (place.at + place.count * size ≤ length source.now) × (at + (1 + place.count * size) ≤ length out.old) × (place.count + extra ≤ 255) }
    ensures { (out.new ≡ laid out.old at (counted_octets source.now extra (entry_group (layout form)) place)) × (result ≡ at + (1 + place.count * size)) }
{
    octets::write(out, at, 1, (place.count + extra) as u64);
    put_entries(out, at + 1, source, place.at, place.count, form, size);
    at + 1 + place.count * size
}

// Writes an item that is not refused, and gives the offset behind it. Only for the next layer: the field is the item's, and its
// octets lie in the output. Output and offset stay two: a struct over what is lent needs a lifetime, and a copy of it in each function.
pub fn put_item(out: &mut [u8], at: usize, item: Item, field: Field, source: &[u8]) -> usize
    requires { (field ≡ field_of item) × (item_refusal source.now item ≡ 0) × (at + length (item_octets source.now item) ≤ length out.old) }
    ensures { (out.new ≡ laid out.old at (item_octets source.now item)) × (result ≡ at + length (item_octets source.now item)) }
{
    let Field(form, kind) = field;
    let first = crate::values::first_of(item);
    let second = crate::values::second_of(item);
    let place = crate::values::place_of(item);
    match kind {
        Kind::Spare => at,
        Kind::Fixed(size) => {
            octets::write(out, at, size as usize, first);
            at + size as usize
        }
        Kind::Extended(size, _) => put_extended(out, at, size as usize, first, second),
        Kind::Repeated(size) => put_counted(out, at, source, place, form, size as usize, 0),
        Kind::Explicit => put_counted(out, at, source, place, form, 1, 1),
    }
}

// The time at an offset is in its range.
fn time_fits(s: &[u8], at: usize) -> bool
    requires { at + time.wide ≤ length s.now }
    ensures { result ≡ fits time.parts (values time.parts (number time.wide s.now at)) }
{
    time_at(s, at).0 <= LATEST
}

// The values of an item's first group are in their ranges.
fn first_fits(s: &[u8], at: usize, form: Form) -> bool
    requires { at + (first_group (layout form)).wide ≤ length s.now }
    ensures { result ≡ fits (first_group (layout form)).parts (values (first_group (layout form)).parts (number (first_group (layout form)).wide s.now at)) }
{
    match form {
        Form::MessageType => within(s[at], 1, LAST_TYPE),
        Form::Time => time_fits(s, at),
        Form::Report => within(s[at], 1, LAST_REPORT),
        _ => true,
    }
}

// The period of an extension is in its range, where FX of the octet before it says that there is one.
fn extension_fits(s: &[u8], last: usize) -> bool
    requires { last + (1 + get_or s.now last 0 % 2) ≤ length s.now }
    ensures { result ≡ pick (odd (get_or s.now last 0)) (fits period.parts (values period.parts (get_or s.now (last + 1) 0))) true }
{
    s[last] % 2 == 0 || within(s[last + 1] / 2, 1, LONGEST)
}

// The values of an item that ends in the block are in their ranges. It is of no fixed length.
fn varying_fits(window: &Window, at: usize, form: Form) -> bool
    requires { ((n : ℕ) → kind_of (layout form) ≡ Kind.Fixed n → ⊥) × ((q : ℕ) × (kind_end window.now.octets.now window.now.len (kind_of (layout form)) at ≡ At q)) }
    ensures { result ≡ fits_in (format (layout form)) (trace_at (format (layout form)) window.now.octets.now at) }
{
    let s = window.octets;
    match form {
        Form::Station => extension_fits(s, at),
        Form::Configuration => extension_fits(s, at + 1),
        Form::Versions => versions_fit(s, at + 1, s[at] as usize),
        _ => true,
    }
}

// Where an item of no fixed length ends, once its values have been judged: 11 for one out of its range.
fn judged(
    window: &Window,
    at: usize,
    form: Form,
    end: Result<usize, Refusal>,
) -> Result<usize, Refusal>
    requires { ((n : ℕ) → kind_of (layout form) ≡ Kind.Fixed n → ⊥) × (as_end end ≡ kind_end window.now.octets.now window.now.len (kind_of (layout form)) at) }
    ensures { as_end result ≡ end_of (item_at window.now.octets.now window.now.len (format (layout form)) at) }
{
    let q = end?;
    if varying_fits(window, at, form) {
        Ok(q)
    } else {
        Err(Refusal::OutOfRange)
    }
}

// Where the item at an offset ends, or what refuses it: 7, 8 and 9 as met, then 11. Only for the next layer: the offset
// is at most LEN, and the field's kind is its form's.
pub fn pass(window: &Window, at: usize, field: Field) -> Result<usize, Refusal>
    requires { (at ≤ window.now.len) × (field.1 ≡ kind_of (layout field.0)) }
    ensures { Ends result (end_of (item_at window.now.octets.now window.now.len (format (layout field.0)) at)) }
{
    let Field(form, kind) = field;
    match kind {
        Kind::Fixed(size) => {
            if window.len - at < size as usize {
                return Err(Refusal::PassesEnd);
            }
            if first_fits(window.octets, at, form) {
                Ok(at + size as usize)
            } else {
                Err(Refusal::OutOfRange)
            }
        }
        Kind::Repeated(size) => judged(window, at, form, window.counted_end(at, 0, size)),
        _ => judged(window, at, form, window.varying_end(at, kind)),
    }
}

// Typed items at an offset, here and in all that follow; from the slice's end on, zeros.
pub fn source_at(s: &[u8], at: usize) -> Source
    ensures { result ≡ source_of (trace_at (format (layout Form.Source)) s.now at) }
{
    crate::values::source_of(octets::read(s, at, 2))
}

pub fn service_at(s: &[u8], at: usize) -> Service
    ensures { result ≡ service_of (trace_at (format (layout Form.Service)) s.now at) }
{
    crate::values::service_of(octets::octet(s, at, 0))
}

pub fn time_at(s: &[u8], at: usize) -> TimeOfDay
    ensures { result ≡ time_of (trace_at (format (layout Form.Time)) s.now at) }
{
    TimeOfDay(octets::read(s, at, 3) as u32)
}

pub fn sdps_at(s: &[u8], at: usize) -> Sdps
    ensures { result ≡ sdps_of (trace_at (format (layout Form.Sdps)) s.now at) }
{
    crate::values::sdps_of(octets::octet(s, at, 0))
}

// This and the next are two, as each gives a struct of its own.
pub fn station_at(s: &[u8], at: usize) -> Station
    ensures { result ≡ station_of (trace_at (format (layout Form.Station)) s.now at) }
{
    let kind = Cat23::I100.1;
    let first = octets::read(s, at, first_octets(kind));
    crate::values::station_of(first, extension_at(s, at, kind, first))
}

pub fn configuration_at(s: &[u8], at: usize) -> Configuration
    ensures { result ≡ configuration_of (trace_at (format (layout Form.Configuration)) s.now at) }
{
    let kind = Cat23::I101.1;
    let first = octets::read(s, at, first_octets(kind));
    crate::values::configuration_of(first, extension_at(s, at, kind, first))
}

// An item of one octet that is one value.
pub fn octet_at(s: &[u8], at: usize) -> u8
    ensures { result ≡ val (trace_at (format (Layout.fixed octet)) s.now at) 0 0 }
{
    octets::octet(s, at, 0) as u8
}

pub fn status_at(s: &[u8], at: usize) -> u8
    ensures { result ≡ val (trace_at (format (layout Form.Status)) s.now at) 0 0 }
{
    (octets::octet(s, at, 0) / 2 % 8) as u8
}

// Where entries or content lie, whose count octet has extra more; nowhere from the slice's end on.
pub fn place_at(s: &[u8], at: usize, extra: usize) -> Place
    ensures { result ≡ place_at s.now at extra }
{
    if s.len() <= at {
        Place { at: 0, count: 0 }
    } else {
        Place {
            at: at + 1,
            count: (octets::octet(s, at, 0) as usize).saturating_sub(extra),
        }
    }
}
