// Octets that are a page.
ghost use Rattle.std.specs.Prelude.{◌≡◌, true};
ghost use Rattle.pages.specs.Pages.{tables_of, count_in, head_keeps};

use crate::forms::Form;

// Their form and their row count, from which the head follows, and the length too.
#[derive(Clone, Copy)]
pub(crate) struct Page<'a> {
    pub octets: &'a [u8],
    pub form: Form,
    pub n: usize,
    ghost headed: { head_keeps (tables_of form) octets.now ≡ true },
    ghost counted: { n ≡ count_in octets.now },
}
