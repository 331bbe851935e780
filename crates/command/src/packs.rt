// One card packed.
ghost use Rattle.std.specs.Prelude.{◌≡◌, ◌≤◌, length, IfOk};
ghost use Rattle.files.specs.Refusals.{refusal, number_of, told};
ghost use Rattle.packing.specs.Packing.{append_refusal, append_writes};
ghost use Rattle.command.specs.Packing.{placed, size_with};

use files::{Reason, Refused};

// A refusal of Append as that of card file k.
fn placed(r: Refused, k: usize) -> Refused
    ensures { refusal (number_of result.reason) result.place ≡ placed (refusal (number_of r.reason) r.place) k }
{
    let reason = match r.reason {
        Reason::Room => Reason::Message,
        reason => reason,
    };
    Refused { reason, place: k }
}

// Appends the card of file k to the message that the first n bytes of file are, and gives how many bytes the message has then. Refuses 9, and 3
// where the message would be too long, at place k; file is then as it was.
pub fn add_card(file: &mut [u8], n: usize, card: &[u8], k: usize) -> Result<usize, Refused>
    ensures refused { told result ≡ placed (append_refusal file.old n card.now) k }
    ensures size { IfOk result (λ size. size ≡ size_with file.old n card.now) }
    ensures written { file.new ≡ append_writes file.old n card.now }
    ensures inside { IfOk result (λ size. size ≤ length file.new) }
{
    match packing::append(file, n, card) {
        Ok(()) => Ok(n + 2 + card.len()),
        Err(r) => Err(placed(r, k)),
    }
}
