// The lines that the command prints beside the report program's, put behind a text like those of the crate printing, and the name of a file that
// is not whole yet.
ghost use Rattle.std.specs.Prelude.{◌≡◌, ◌++◌, ◌+◌, ◌≤◌, length};
ghost use Rattle.command.specs.Said.{count_line, message_line, item_end, item_line, family_part, new_size, size_line, temporary_name};

use files::tagfile;
use files::tagfile::Head;
use printing::Text;

// Puts the line of how many cards there are.
pub fn put_count_line<const N: usize>(text: &mut Text<N>, n: usize)
    requires { length text.old + 27 ≤ N }
    ensures written { text.new ≡ text.old ++ count_line n }
    ensures short { length text.new ≤ length text.old + 27 }
{
    text.put_labelled(b"cards ", n as u64);
    text.put(b"\n");
}

// Puts the line of how many cards a message has, and of its number.
pub fn put_message_line<const N: usize>(text: &mut Text<N>, n: usize, number: u32)
    requires { length text.old + 55 ≤ N }
    ensures written { text.new ≡ text.old ++ message_line n number }
    ensures short { length text.new ≤ length text.old + 55 }
{
    text.put_labelled(b"cards ", n as u64);
    text.put_labelled(b" number ", number as u64);
    text.put(b"\n");
}

// Puts the end of a card's line.
fn put_item_end<const N: usize>(text: &mut Text<N>, long: usize)
    requires { length text.old + length (item_end long) ≤ N }
    ensures { text.new ≡ text.old ++ item_end long }
{
    if long == 0 {
        text.put(b" vacant\n");
    } else {
        text.put(b"\n");
    }
}

// Puts the line of a card and its length.
pub fn put_item_line<const N: usize>(text: &mut Text<N>, j: usize, long: usize)
    requires { length text.old + 60 ≤ N }
    ensures written { text.new ≡ text.old ++ item_line j long }
    ensures short { length text.new ≤ length text.old + 60 }
{
    text.put_labelled(b"card ", j as u64);
    text.put_labelled(b" bytes ", long as u64);
    put_item_end(text, long);
}

// Puts how many cards a size has at most, its tags and its limit.
fn put_family<const N: usize>(text: &mut Text<N>, code: u64)
    requires { length text.old + length (family_part code) ≤ N }
    ensures { text.new ≡ text.old ++ family_part code }
{
    text.put_labelled(b" cards ", sizes::items(code) as u64);
    text.put_labelled(b" tags ", sizes::tags(code) as u64);
    text.put_labelled(b" limit ", sizes::limit(code) as u64);
}

// How many bytes a size's tag files have that are made anew.
fn new_size(code: u64) -> usize
    ensures { result ≡ new_size code }
{
    let stamp = tagfile::stamp_for(0);
    tagfile::file_size(Head {
        stamp,
        code,
        count: sizes::items(code),
    })
}

// Puts the line of a size code and its numbers.
pub fn put_size_line<const N: usize>(text: &mut Text<N>, code: u64)
    requires { length text.old + 133 ≤ N }
    ensures written { text.new ≡ text.old ++ size_line code }
    ensures short { length text.new ≤ length text.old + 133 }
{
    text.put_labelled(b"size ", code);
    put_family(text, code);
    text.put_labelled(b" bytes ", new_size(code) as u64);
    text.put(b"\n");
}

// Puts the name under which a file is written until it is whole.
pub fn put_temporary<const N: usize>(text: &mut Text<N>, name: &[u8], process: u64)
    requires { length text.old + (length name.now + 25) ≤ N }
    ensures written { text.new ≡ text.old ++ temporary_name name.now process }
    ensures short { length text.new ≤ length text.old + (length name.now + 25) }
{
    text.put(name);
    text.put_labelled(b".", process);
    text.put(b".new");
}
