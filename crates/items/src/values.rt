// Typed items and the numbers that their groups are. Nothing here looks at octets.
ghost use Rattle.std.specs.Prelude.{◌≡◌, ◌&&◌, [], ◌∷◌, leb, eqb};
ghost use Rattle.octets.specs.Choice.{pick};
ghost use Rattle.layouts.specs.Groups.{values, merge};
ghost use Rattle.layouts.specs.Layouts.{first_group, entry_group};
ghost use Rattle.layouts.specs.Tables.{source, service, sdps, station, configuration, period, counter, version, layout};
ghost use Rattle.items.specs.Typed.{form_of, item_format, given, first_number, second_number, place_of, exact_fits, counter_of, version_of, source_of, service_of, sdps_of, station_of, configuration_of};

use crate::typed::{
    Configuration, Counter, HalfSeconds, Item, LAST_REPORT, LAST_TYPE, LATEST, LONGEST, Place,
    Sdps, Seconds, Service, Source, Station, Version,
};
use layouts::form::Form;

pub(crate) fn source_of(first: u64) -> Source
    ensures { result ≡ source_of (values source.parts first ∷ []) }
{
    Source {
        sac: (first / 256 % 256) as u8,
        sic: (first % 256) as u8,
    }
}

pub(crate) fn service_of(first: u64) -> Service
    ensures { result ≡ service_of (values service.parts first ∷ []) }
{
    Service {
        sid: (first / 16 % 16) as u8,
        styp: (first % 16) as u8,
    }
}

pub(crate) fn sdps_of(first: u64) -> Sdps
    ensures { result ≡ sdps_of (values sdps.parts first ∷ []) }
{
    Sdps {
        nogo: (first / 64 % 4) as u8,
        ovl: (first / 32 % 2) as u8,
        tsv: (first / 16 % 2) as u8,
        pss: (first / 4 % 4) as u8,
        sttn: (first / 2 % 2) as u8,
    }
}

pub(crate) fn station_of(first: u64, second: u64) -> Station
    ensures { result ≡ station_of (values station.parts first ∷ values period.parts second ∷ []) }
{
    Station {
        nogo: (first / 128 % 2) as u8,
        odp: (first / 64 % 2) as u8,
        oxt: (first / 32 % 2) as u8,
        msc: (first / 16 % 2) as u8,
        tsv: (first / 8 % 2) as u8,
        spo: (first / 4 % 2) as u8,
        rn: (first / 2 % 2) as u8,
        extended: (first % 2) as u8,
        gssp: Seconds((second / 2 % 128) as u8),
    }
}

pub(crate) fn configuration_of(first: u64, second: u64) -> Configuration
    ensures { result ≡ configuration_of (values configuration.parts first ∷ values period.parts second ∷ []) }
{
    Configuration {
        rp: HalfSeconds((first / 256 % 256) as u8),
        sc: (first / 32 % 8) as u8,
        extended: (first % 2) as u8,
        ssrp: Seconds((second / 2 % 128) as u8),
    }
}

// The number of an item's first group; 0 for entries and content.
pub(crate) fn first_of(item: Item) -> u64
    ensures { result ≡ first_number (first_group (layout (form_of item))) (given item) }
{
    match item {
        Item::Source(x) => x.sac as u64 * 256 + x.sic as u64,
        Item::MessageType(x) => x as u64,
        Item::Service(x) => x.sid as u64 * 16 + x.styp as u64,
        Item::Identification(x) => x as u64,
        Item::Time(x) => x.0 as u64,
        Item::Batch(x) => x as u64,
        Item::Sdps(x) => {
            x.nogo as u64 * 64
                + x.ovl as u64 * 32
                + x.tsv as u64 * 16
                + x.pss as u64 * 4
                + x.sttn as u64 * 2
        }
        Item::Report(x) => x as u64,
        Item::Station(x) => {
            x.nogo as u64 * 128
                + x.odp as u64 * 64
                + x.oxt as u64 * 32
                + x.msc as u64 * 16
                + x.tsv as u64 * 8
                + x.spo as u64 * 4
                + x.rn as u64 * 2
                + x.extended as u64
        }
        Item::Configuration(x) => x.rp.0 as u64 * 256 + x.sc as u64 * 32 + x.extended as u64,
        Item::Range(x) => x as u64,
        Item::Status(x) => x as u64 * 2,
        Item::Absent
        | Item::Statistics(_)
        | Item::Versions(_)
        | Item::Expansion(_)
        | Item::Purpose(_) => 0,
    }
}

// The number of an item's extension; 0 where there is none.
pub(crate) fn second_of(item: Item) -> u64
    ensures { result ≡ second_number (given item) }
{
    match item {
        Item::Station(x) if x.extended == 1 => x.gssp.0 as u64 * 2,
        Item::Configuration(x) if x.extended == 1 => x.ssrp.0 as u64 * 2,
        _ => 0,
    }
}

// Where an item's entries or content lie; zeros for the others.
pub(crate) fn place_of(item: Item) -> Place
    ensures { result ≡ place_of (given item) }
{
    match item {
        Item::Statistics(p) | Item::Versions(p) | Item::Expansion(p) | Item::Purpose(p) => p,
        _ => Place { at: 0, count: 0 },
    }
}

// An entry's number with its spare bits cleared.
pub(crate) fn entry_number(form: Form, x: u64) -> u64
    ensures { result ≡ merge (entry_group (layout form)).parts (values (entry_group (layout form)).parts x) 0 }
{
    match form {
        Form::Statistics => {
            x / 1099511627776 % 256 * 1099511627776
                + x / 549755813888 % 2 * 549755813888
                + x % 4294967296
        }
        Form::Versions => x / 65536 % 256 * 65536 + x / 256 % 256 * 256 + x % 256,
        _ => x % 256,
    }
}

// An entry of 23/120.
pub(crate) fn counter_of(x: u64) -> Counter
    ensures { result ≡ counter_of (values counter.parts x) }
{
    Counter {
        typ: (x / 1099511627776 % 256) as u8,
        reference: (x / 549755813888 % 2) as u8,
        count: (x % 4294967296) as u32,
    }
}

// An entry of 242/550.
pub(crate) fn version_of(x: u64) -> Version
    ensures { result ≡ version_of (values version.parts x) }
{
    Version {
        category: (x / 65536 % 256) as u8,
        main: (x / 256 % 256) as u8,
        sub: (x % 256) as u8,
    }
}

// A number from a least to a greatest.
pub(crate) fn within(x: u8, least: u8, greatest: u8) -> bool
    ensures { result ≡ (leb least x && leb x greatest) }
{
    least <= x && x <= greatest
}

// A period in its range, where the extension is there.
fn period_fits(extended: u8, seconds: Seconds) -> bool
    ensures { result ≡ pick (eqb extended 1) (leb 1 seconds.0 && leb seconds.0 127) (eqb extended 0) }
{
    if extended == 1 {
        within(seconds.0, 1, LONGEST)
    } else {
        extended == 0
    }
}

fn service_fits(x: Service) -> bool
    ensures { result ≡ exact_fits (item_format (Item.Service x)) (given (Item.Service x)) }
{
    x.sid < 16 && x.styp < 16
}

fn sdps_fits(x: Sdps) -> bool
    ensures { result ≡ exact_fits (item_format (Item.Sdps x)) (given (Item.Sdps x)) }
{
    x.nogo < 4 && x.ovl < 2 && x.tsv < 2 && x.pss < 4 && x.sttn < 2
}

fn station_fits(x: Station) -> bool
    ensures { result ≡ exact_fits (item_format (Item.Station x)) (given (Item.Station x)) }
{
    x.nogo < 2
        && x.odp < 2
        && x.oxt < 2
        && x.msc < 2
        && x.tsv < 2
        && x.spo < 2
        && x.rn < 2
        && period_fits(x.extended, x.gssp)
}

fn configuration_fits(x: Configuration) -> bool
    ensures { result ≡ exact_fits (item_format (Item.Configuration x)) (given (Item.Configuration x)) }
{
    x.sc < 8 && period_fits(x.extended, x.ssrp)
}

// The values that an item gives as such fit their bits and ranges. Of entries and content nothing is said.
pub(crate) fn exact_fits(item: Item) -> bool
    ensures { result ≡ exact_fits (item_format item) (given item) }
{
    match item {
        Item::Absent => false,
        Item::MessageType(x) => within(x, 1, LAST_TYPE),
        Item::Service(x) => service_fits(x),
        Item::Time(x) => x.0 <= LATEST,
        Item::Sdps(x) => sdps_fits(x),
        Item::Report(x) => within(x, 1, LAST_REPORT),
        Item::Station(x) => station_fits(x),
        Item::Configuration(x) => configuration_fits(x),
        Item::Status(x) => x < 8,
        _ => true,
    }
}
