// The typed record, made from the places where its items start.
ghost use Rattle.std.specs.Prelude.{◌≡◌, ℕ, ◌+◌, ◌≤◌, length, get_or};
ghost use Rattle.layouts.specs.Formats.{got};
ghost use Rattle.layouts.specs.Offsets.{run_at};
ghost use Rattle.layouts.specs.Layouts.{format, kind_of};
ghost use Rattle.layouts.specs.Tables.{layout};
ghost use Rattle.layouts.specs.Categories.{entries_form};
ghost use Rattle.blocks.specs.Records.{Rec};
ghost use Rattle.blocks.specs.Forms.{form_number};
ghost use Rattle.blocks.specs.Typed.{stop_of};
ghost use Rattle.blocks.specs.InBlock.{record_in, items_in, typed_in, made_in};

use crate::block::Block;
use crate::marks::{marks_at, next_field};
use items::item::{
    configuration_at, octet_at, place_at, sdps_at, service_at, source_at, station_at, status_at,
    time_at,
};
use items::typed::{Configuration, Place, Sdps, Service, Source, Station, TimeOfDay};
use layouts::category::{Cat242, Category, Field, field_of, most_of};
use layouts::ends::Window;
use layouts::form::Form;

// A record: its category, the marks of its fields (bit f - 1 for field f), and all items of document 01. An item that is not marked is
// all zero. Entries are those of 23/120 or 242/550.
#[derive(Clone, Copy)]
pub struct Record {
    pub category: u8,
    pub marks: u32,
    pub source: Source,
    pub message_type: u8,
    pub service: Service,
    pub identification: u8,
    pub time: TimeOfDay,
    pub batch: u8,
    pub sdps: Sdps,
    pub report: u8,
    pub station: Station,
    pub configuration: Configuration,
    pub range: u8,
    pub status: u8,
    pub entries: Place,
    pub expansion: Place,
    pub purpose: Place,
}

// How many forms there are.
pub(crate) const FORMS: usize = 17;

// A record's marks, where its items start, by the numbers of their forms, and where the last ends.
#[derive(Clone, Copy)]
pub(crate) struct Starts {
    pub marks: u32,
    pub items: [usize; FORMS],
    pub end: usize,
}

impl Starts {
    // Where the item of a form starts.
    pub(crate) fn of(&self, form: Form) -> usize
        ensures { result ≡ get_or self.now.items (form_number form) 0 }
    {
        self.items[form as usize]
    }
}

// Where an item ends; its start, where it does not end.
fn item_end(window: &Window, field: Field, p: usize) -> usize
    requires { (p ≤ window.now.len) × (field.1 ≡ kind_of (layout field.0)) }
    ensures { (result ≡ stop_of p (run_at window.now.octets.now window.now.len (format (layout field.0)) p)) × (result ≤ window.now.len) }
{
    window.kind_end(p, field.1).unwrap_or(p)
}

// The form of a category's entries.
fn entries_form(cat: u8) -> Form
    ensures { result ≡ entries_form cat }
{
    if cat == Cat242::CAT {
        Form::Versions
    } else {
        Form::Statistics
    }
}

impl<'a> Block<'a> {
    // Where the specification at an offset ends; the offset, where it does not end.
    fn items_from(&self, at: usize) -> usize
        requires { at ≤ self.now.window.len }
        ensures { (result ≡ items_in self.now at) × (at ≤ result) × (result ≤ self.now.window.len) × (result ≤ at + 4) }
    {
        self.window
            .specification_end(at, most_of(self.cat))
            .unwrap_or(at)
    }

    // The starts of a record at an offset: past the items of its marked fields. Of a record that reading gives, these make the typed record.
    pub(crate) fn starts_at(&self, at: usize) -> Starts
        requires { at ≤ self.now.window.len }
        ensures { (x : Rec) → (q : ℕ) → record_in self.now at ≡ got x q → (result.end ≡ q) × (made_in self.now result ≡ typed_in self.now at x) }
    {
        let s = self.window.octets;
        let first = self.items_from(at);
        let marks = marks_at(s, at, first);
        // No Option: where an item is not there, it is read from the end of the octets, behind which all is zero.
        let none = s.len();
        let mut items = [none; FORMS];
        let mut p = first;
        let mut from = 1;
        while let Some(f) = next_field(marks, from) {
            let field = field_of(self.cat, f);
            items[field.0 as usize] = p;
            p = item_end(&self.window, field, p);
            from = f + 1;
        }
        Starts {
            marks,
            items,
            end: p,
        }
    }

    // The typed record of items that start at these offsets.
    fn record_by(&self, starts: &Starts) -> Record
        ensures { result ≡ made_in self.now starts.now }
    {
        let s = self.window.octets;
        Record {
            category: self.cat,
            marks: starts.marks,
            source: source_at(s, starts.of(Form::Source)),
            message_type: octet_at(s, starts.of(Form::MessageType)),
            service: service_at(s, starts.of(Form::Service)),
            identification: octet_at(s, starts.of(Form::Identification)),
            time: time_at(s, starts.of(Form::Time)),
            batch: octet_at(s, starts.of(Form::Batch)),
            sdps: sdps_at(s, starts.of(Form::Sdps)),
            report: octet_at(s, starts.of(Form::Report)),
            station: station_at(s, starts.of(Form::Station)),
            configuration: configuration_at(s, starts.of(Form::Configuration)),
            range: octet_at(s, starts.of(Form::Range)),
            status: status_at(s, starts.of(Form::Status)),
            entries: place_at(s, starts.of(entries_form(self.cat)), 0),
            expansion: place_at(s, starts.of(Form::Expansion), 1),
            purpose: place_at(s, starts.of(Form::Purpose), 1),
        }
    }

    // The typed record at an offset, of a record that reading gives.
    pub(crate) fn typed_record(&self, at: usize) -> Record
        requires { at ≤ self.now.window.len }
        ensures { (x : Rec) → (q : ℕ) → record_in self.now at ≡ got x q → result ≡ typed_in self.now at x }
    {
        self.record_by(&self.starts_at(at))
    }
}
