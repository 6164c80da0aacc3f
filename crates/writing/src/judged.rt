// A typed record that nothing refuses.
ghost use Rattle.std.specs.Prelude.{◌≡◌};
ghost use Rattle.writing.specs.Judged.{record_refusal};

use blocks::record::Record;

// The record, and the source, in which its entries and content lie.
#[derive(Clone, Copy)]
pub(crate) struct Judged<'a> {
    pub typed: Record,
    pub source: &'a [u8],
    ghost fine: { record_refusal source.now typed ≡ 0 },
}
