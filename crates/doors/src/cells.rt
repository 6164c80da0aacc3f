// A record as 64-bit cells, in the order of include/wear.h.
ghost use Rattle.std.specs.Prelude.{◌≡◌, ◌+◌, ◌≤◌, ◌<◌, ◌%◌, ◌^◌, length, get_or};
ghost use Rattle.octets.specs.Outcomes.{within, answer_of, output_of, listed_written, outcome_listed};
ghost use Rattle.octets.specs.Refusals.{refusal_in};
ghost use Rattle.octets.specs.Written.{as_written};
ghost use Rattle.layouts.specs.Categories.{category};
ghost use Rattle.blocks.specs.Marks.{flags_of};
ghost use Rattle.doors.specs.Cell.{cell_count};
ghost use Rattle.doors.specs.Cells.{record_cells, record_of, octet_fits, extension_fits, item_fits, all_fit, cells_refusal};
ghost use Rattle.doors.specs.Answers.{cells_written};

use crate::cell;
use blocks::marks::{is_marked, last_field, marks_refusal};
use blocks::record::Record;
use items::typed::{
    Configuration, HalfSeconds, Place, Sdps, Seconds, Service, Source, Station, TimeOfDay,
};
use layouts::category::{field_of, is_known};
use layouts::form::Form;
use octets::refusal::Refusal;
use writing::block::write;

// A record given as cells, which may be too wide for its places; cells past a record's are not looked at.
#[derive(Clone, Copy)]
pub struct RecordCells<'a> {
    pub cells: &'a [u64],
    ghost enough: { cell_count ≤ length cells.now },
}

// The cells of a record.
pub fn record_cells(record: Record) -> [u64; cell::CELLS]
    ensures { result ≡ record_cells «record» }
{
    [
        record.category as u64,
        record.marks as u64,
        record.source.sac as u64,
        record.source.sic as u64,
        record.message_type as u64,
        record.identification as u64,
        record.service.sid as u64,
        record.service.styp as u64,
        record.time.0 as u64,
        record.batch as u64,
        record.sdps.nogo as u64,
        record.sdps.ovl as u64,
        record.sdps.tsv as u64,
        record.sdps.pss as u64,
        record.sdps.sttn as u64,
        record.report as u64,
        record.station.nogo as u64,
        record.station.odp as u64,
        record.station.oxt as u64,
        record.station.msc as u64,
        record.station.tsv as u64,
        record.station.spo as u64,
        record.station.rn as u64,
        record.station.extended as u64,
        record.station.gssp.0 as u64,
        record.configuration.rp.0 as u64,
        record.configuration.sc as u64,
        record.configuration.extended as u64,
        record.configuration.ssrp.0 as u64,
        record.range as u64,
        record.status as u64,
        record.entries.at as u64,
        record.entries.count as u64,
        record.expansion.at as u64,
        record.expansion.count as u64,
        record.purpose.at as u64,
        record.purpose.count as u64,
    ]
}

#[tactic(auto, unfolding(crate::specs::Cells::record_of))]
impl<'a> RecordCells<'a> {
    // What a place of 8 bits, and one of 32, has of its cell: two functions, as no bound of std casts a cell down to either.
    // That a cell is one of the record's is asked in each clause, as it is a constant of cell.rt or a parameter.
    fn octet(&self, i: usize) -> u8
        requires { i < cell_count }
        ensures { result ≡ get_or self.now.cells.now i 0 % 2 ^ 8 }
    {
        (self.cells[i] % 0x100) as u8
    }

    fn long(&self, i: usize) -> u32
        requires { i < cell_count }
        ensures { result ≡ get_or self.now.cells.now i 0 % 2 ^ 32 }
    {
        (self.cells[i] % 0x1_0000_0000) as u32
    }

    // Where entries or content lie, by the cell of the offset and the next.
    fn place(&self, i: usize) -> Place
        requires { i + 1 < cell_count }
        ensures { result ≡ record { at = get_or self.now.cells.now i 0; count = get_or self.now.cells.now (i + 1) 0 } }
    {
        Place {
            at: self.cells[i] as usize,
            count: self.cells[i + 1] as usize,
        }
    }

    fn source(&self) -> Source
        ensures { result ≡ (record_of self.now.cells.now).source }
    {
        Source {
            sac: self.octet(cell::SAC),
            sic: self.octet(cell::SIC),
        }
    }

    fn service(&self) -> Service
        ensures { result ≡ (record_of self.now.cells.now).service }
    {
        Service {
            sid: self.octet(cell::SID),
            styp: self.octet(cell::STYP),
        }
    }

    fn sdps(&self) -> Sdps
        ensures { result ≡ (record_of self.now.cells.now).sdps }
    {
        Sdps {
            nogo: self.octet(cell::NOGO),
            ovl: self.octet(cell::OVL),
            tsv: self.octet(cell::TSV),
            pss: self.octet(cell::PSS),
            sttn: self.octet(cell::STTN),
        }
    }

    fn station(&self) -> Station
        ensures { result ≡ (record_of self.now.cells.now).station }
    {
        Station {
            nogo: self.octet(cell::GS_NOGO),
            odp: self.octet(cell::GS_ODP),
            oxt: self.octet(cell::GS_OXT),
            msc: self.octet(cell::GS_MSC),
            tsv: self.octet(cell::GS_TSV),
            spo: self.octet(cell::GS_SPO),
            rn: self.octet(cell::GS_RN),
            extended: self.octet(cell::GS_EXTENDED),
            gssp: Seconds(self.octet(cell::GSSP)),
        }
    }

    fn configuration(&self) -> Configuration
        ensures { result ≡ (record_of self.now.cells.now).configuration }
    {
        Configuration {
            rp: HalfSeconds(self.octet(cell::RP)),
            sc: self.octet(cell::SC),
            extended: self.octet(cell::SC_EXTENDED),
            ssrp: Seconds(self.octet(cell::SSRP)),
        }
    }

    // The record, each cell cut to its place.
    pub fn record(&self) -> Record
        ensures { result ≡ record_of self.now.cells.now }
    {
        Record {
            category: self.octet(cell::CATEGORY),
            marks: self.long(cell::MARKS),
            source: self.source(),
            message_type: self.octet(cell::TYPE),
            identification: self.octet(cell::SERVICE),
            service: self.service(),
            time: TimeOfDay(self.long(cell::TIME)),
            batch: self.octet(cell::BATCH),
            sdps: self.sdps(),
            report: self.octet(cell::REPORT),
            station: self.station(),
            configuration: self.configuration(),
            range: self.octet(cell::RANGE),
            status: self.octet(cell::STAT),
            entries: self.place(cell::ENTRIES_AT),
            expansion: self.place(cell::RE_AT),
            purpose: self.place(cell::SP_AT),
        }
    }

    // Whether a cell fits a place of 8 bits.
    fn octet_fits(&self, i: usize) -> bool
        requires { i < cell_count }
        ensures { result ≡ octet_fits self.now.cells.now i }
    {
        self.cells[i] < 0x100
    }

    // An extension: whether it is there, and its value where it is.
    fn extension_fits(&self, e: usize, i: usize) -> bool
        requires { (e < cell_count) × (i < cell_count) }
        ensures { result ≡ extension_fits self.now.cells.now e i }
    {
        self.octet_fits(e) && (self.cells[e] == 0 || self.octet_fits(i))
    }

    fn sdps_fits(&self) -> bool
        ensures { result ≡ item_fits self.now.cells.now Form.Sdps }
    {
        self.octet_fits(cell::NOGO)
            && self.octet_fits(cell::OVL)
            && self.octet_fits(cell::TSV)
            && self.octet_fits(cell::PSS)
            && self.octet_fits(cell::STTN)
    }

    fn station_fits(&self) -> bool
        ensures { result ≡ item_fits self.now.cells.now Form.Station }
    {
        self.octet_fits(cell::GS_NOGO)
            && self.octet_fits(cell::GS_ODP)
            && self.octet_fits(cell::GS_OXT)
            && self.octet_fits(cell::GS_MSC)
            && self.octet_fits(cell::GS_TSV)
            && self.octet_fits(cell::GS_SPO)
            && self.octet_fits(cell::GS_RN)
            && self.extension_fits(cell::GS_EXTENDED, cell::GSSP)
    }

    fn configuration_fits(&self) -> bool
        ensures { result ≡ item_fits self.now.cells.now Form.Configuration }
    {
        self.octet_fits(cell::RP)
            && self.octet_fits(cell::SC)
            && self.extension_fits(cell::SC_EXTENDED, cell::SSRP)
    }

    // Whether the cells of an item fit their places.
    fn item_fits(&self, form: Form) -> bool
        ensures { result ≡ item_fits self.now.cells.now form }
    {
        match form {
            Form::Source => self.octet_fits(cell::SAC) && self.octet_fits(cell::SIC),
            Form::MessageType => self.octet_fits(cell::TYPE),
            Form::Service => self.octet_fits(cell::SID) && self.octet_fits(cell::STYP),
            Form::Identification => self.octet_fits(cell::SERVICE),
            Form::Time => self.cells[cell::TIME] < 0x1_0000_0000,
            Form::Batch => self.octet_fits(cell::BATCH),
            Form::Sdps => self.sdps_fits(),
            Form::Report => self.octet_fits(cell::REPORT),
            Form::Station => self.station_fits(),
            Form::Configuration => self.configuration_fits(),
            Form::Range => self.octet_fits(cell::RANGE),
            Form::Status => self.octet_fits(cell::STAT),
            Form::Spare | Form::Statistics | Form::Versions | Form::Expansion | Form::Purpose =>
                true,
        }
    }

    // Whether the cells of every marked item fit their places.
    fn all_fit(&self, cat: u8, marks: u32) -> bool
        ensures { result ≡ all_fit self.now.cells.now (flags_of 32 marks) (category cat).fields }
    {
        for f in 1..=last_field(cat) {
            if is_marked(marks, f) && !self.item_fits(field_of(cat, f).0) {
                return false;
            }
        }
        true
    }

    // 2, 6 and 5 of the category's cell and the marks', then 11 for a cell of a marked item that does not fit its place.
    pub fn refusal(&self) -> Result<(), Refusal>
        ensures { refusal_in result ≡ cells_refusal self.now.cells.now }
    {
        let Ok(cat) = u8::try_from(self.cells[cell::CATEGORY]) else {
            return Err(Refusal::UnknownCategory);
        };
        if !is_known(cat) {
            return Err(Refusal::UnknownCategory);
        }
        let Ok(marks) = u32::try_from(self.cells[cell::MARKS]) else {
            return Err(Refusal::SpareMarked);
        };
        marks_refusal(cat, marks)?;
        if !self.all_fit(cat, marks) {
            return Err(Refusal::OutOfRange);
        }
        Ok(())
    }

    // The record as a block; entries and content from the source.
    pub fn write(&self, source: &[u8], out: &mut [u8]) -> Result<usize, Refusal>
        ensures { (out.new ≡ output_of out.old (within (length out.old) (cells_written self.now.cells.now source.now)))
            × (as_written result ≡ answer_of (within (length out.old) (cells_written self.now.cells.now source.now)))
            × (listed_written (as_written result) ≡ outcome_listed (within (length out.old) (cells_written self.now.cells.now source.now))) }
    {
        self.refusal()?;
        write(self.record(), source, out)
    }
}
