// A block whose header is good.
ghost use Rattle.std.specs.Prelude.{◌≡◌, true};
ghost use Rattle.layouts.specs.Categories.{known};

use layouts::ends::Window;

// The octets lent, with LEN, and the category.
#[derive(Clone, Copy)]
pub struct Block<'a> {
    pub window: Window<'a>,
    pub cat: u8,
    ghost known: { known cat ≡ true },
}
