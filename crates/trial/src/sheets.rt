// Sheets of every version, each in 1,400 bytes that it is handed.
ghost use Rattle.std.specs.Prelude.{length};
ghost use Rattle.checks.specs.Passed.{Taggable};

use cipher::engine;
use files::tagfile::Head;
use stamp::Stamp;

// The sheet that Tag's rule gives for a shelf that Tag does not refuse, in a version.
fn in_version(keys: &[u8], size: u64, shelf: &[u8], version: u16, room: [u8; 1400]) -> [u8; 1400]
    requires { Taggable keys.now size shelf.now (length room) }
{
    let t = engine::tables();
    let k = tagging::keys_in(keys);
    let newest = tagging::head_for(size, shelf);
    let own = newest.stamp;
    let stamp = Stamp {
        version,
        number: own.number,
    };
    let mut sums = [0u8; sums::TAGS_MOST];
    tagging::add_items(&t, size, k, stamp, shelf, &mut sums);
    let head = Head {
        stamp,
        code: size,
        count: newest.count,
    };
    let mut out = room;
    tagging::write_file(&t, head, k, &sums, &mut out);
    out
}

// The sheet of a shelf in a version: Tag's own in the version that Tag writes, and by its rule in another. Where Tag refuses, the bytes
// stay.
pub fn tagged(keys: &[u8], size: u64, shelf: &[u8], version: u64, room: [u8; 1400]) -> [u8; 1400] {
    let mut sheet = room;
    if scheme::tag(keys, size, shelf, &mut sheet).is_err() {
        return room;
    }
    if version == 3 {
        return sheet;
    }
    in_version(keys, size, shelf, (version % 65536) as u16, room)
}
