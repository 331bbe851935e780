// What a file says before its cards or tags. Where the file ends before that, zeros stand behind it.
ghost use Rattle.std.specs.Prelude.{◌<◌};

use files::tagfile::Head;
use files::{message, tagfile};

// As many bytes as stand before the cards or the tags in any version.
fn front(s: &[u8]) -> [u8; 12] {
    let mut bytes = [0u8; 12];
    let n = s.len().min(12);
    bytes[..n].copy_from_slice(&s[..n]);
    bytes
}

// The count of a message.
#[tactic(auto, using(crate::proofs::Fitting::count_in))]
pub fn count_in(s: &[u8]) -> usize
    ensures { result < 65536 }
{
    message::item_count(&front(s))
}

// The number of a message.
#[tactic(auto, using(crate::proofs::Fitting::stamp_in_lem))]
pub fn number_in(s: &[u8]) -> u32 {
    let stamp = stamp::stamp_of(&front(s));
    stamp.number
}

// What a tag file says.
#[tactic(auto, using(crate::proofs::Fitting::head_in))]
pub fn head_in(s: &[u8]) -> Head {
    tagfile::head_of(&front(s))
}
