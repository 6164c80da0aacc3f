// The header of a block: CAT and LEN.
ghost use Rattle.std.specs.Prelude.{◌≡◌, IfOk};
ghost use Rattle.blocks.specs.Head.{as_head};
ghost use Rattle.blocks.specs.Headers.{header_of, listed_head, head_listed};

use crate::block::Block;
use layouts::category::is_known;
use layouts::ends::Window;
use octets::refusal::Refusal;

// The block, or what refuses it before its records: under 3 octets; category; LEN below 4; LEN beyond the octets lent.
pub(crate) fn header(s: &[u8]) -> Result<Block<'_>, Refusal>
    ensures { (as_head result ≡ header_of s.now) × (listed_head (as_head result) ≡ head_listed s.now) × IfOk result (λ block. block.window.octets.now ≡ s.now) }
{
    if s.len() < 3 {
        return Err(Refusal::TooShort);
    }
    let cat = s[0];
    if !is_known(cat) {
        return Err(Refusal::UnknownCategory);
    }
    let len = octets::read(s, 1, 2) as usize;
    if len < 4 {
        return Err(Refusal::LenTooSmall);
    }
    if s.len() < len {
        return Err(Refusal::TooShort);
    }
    Ok(Block {
        window: Window { octets: s, len },
        cat,
    })
}
