// Tag's rule (000, section 4.3): the items' hashes added to the sums of their rows, and a tag file written from sums. Sessions and the
// calls on whole messages rest on these.
#![tactic(auto)]

ghost use Rattle.std.specs.Prelude.{◌≡◌, true, ◌++◌, ◌*◌, ◌≤◌, length, drop};
ghost use Rattle.blocks.specs.Block.{◌⊕◌};
ghost use Rattle.cipher.specs.Cmac.{mac_with};
ghost use Rattle.sizes.specs.Sizes.{known, family_of};
ghost use Rattle.files.specs.Refusals.{none};
ghost use Rattle.stamp.specs.Front.{version_of};
ghost use Rattle.files.specs.Message.{items_at, item_count, item, refuse5};
ghost use Rattle.files.specs.TagFile.{file_size};
ghost use Rattle.keyed.specs.Keyed.{item_hash_by};
ghost use Rattle.sums.specs.Adding.{sum_in, Holds, Added};
ghost use Rattle.tagging.specs.Tagging.{keys_in, tag_sum, file_of, tag_head};

use blocks::block;
use cipher::cmac::MacKey;
use cipher::engine::Tables;
use cipher::{cmac, engine};
use files::tagfile::Head;
use files::{message, tagfile};
use stamp::Stamp;

// The three keys (document 01: card key, tag key, seal key).
#[derive(Clone, Copy, PartialEq, Eq)]
pub struct Keys {
    pub item: [u8; 16],
    pub tag: [u8; 16],
    pub seal: [u8; 16],
}

// The keys of a bundle of 48 bytes. (The length is a premise: the bundle is a lent slice of any length until refusal 1 has looked at it.)
pub fn keys_in(s: &[u8]) -> Keys
    requires { 48 ≤ length s.now }
    ensures { result ≡ keys_in s.now }
{
    Keys {
        item: block::block_at(s, 0),
        tag: block::block_at(s, 16),
        seal: block::block_at(s, 32),
    }
}

// What the tag file that Tag makes of a message says: the newest version and the message's number, size code and count. (It is asked of files
// that the checks of a call let through, and of bytes as long as a head by `reporting`, which has Tag's answer alone.)
pub fn head_for(code: u64, s: &[u8]) -> Head
    requires { items_at (version_of s.now) ≤ length s.now }
    ensures { result ≡ tag_head code s.now }
{
    let own = stamp::stamp_of(s);
    Head {
        stamp: tagfile::stamp_for(own.number),
        code,
        count: message::item_count(s),
    }
}

// Adds the hash of item j, under a key made ready, to the sums of its tagged rows; what is behind the sums stays. The item is laid out in
// room, whose bytes are of no account.
pub fn add_item(
    t: &Tables,
    code: u64,
    k: MacKey,
    stamp: Stamp,
    sums: &mut [u8],
    j: usize,
    item: &[u8],
    room: &mut [u8],
)
    requires code_in_bounds { 16 * (family_of code).tags ≤ length sums.old }
    requires item_len_bound { (length item.now ≤ 1024) × (1040 ≤ length room.old) }
    ensures added { Added (λ t. (family_of code).on ((family_of code).row_of_tag t) j) (family_of code).tags (item_hash_by (mac_with k) stamp j item.now) sums.old sums.new }
    ensures room { length room.new ≡ length room.old }
{
    let hash = keyed::item_hash(t, k, stamp, j as u64, item, room);
    sums::add_to_tags(code, sums, j, hash);
}

// Adds the hashes of the items of a message that is not refused, under this stamp, to the sums of their tagged rows; what is behind the sums
// stays.
pub fn add_items(t: &Tables, code: u64, keys: Keys, stamp: Stamp, s: &[u8], sums: &mut [u8])
    requires s_in_bounds { (items_at (version_of s.now) ≤ length s.now) × (length s.now ≤ 65536) × (refuse5 s.now ≡ none) }
    requires code_in_bounds { 16 * (family_of code).tags ≤ length sums.old }
    ensures { Holds (family_of code).tags (λ k. sum_in sums.old k ⊕ tag_sum keys stamp code (item s.now) (item_count s.now) k) sums.old sums.new }
{
    let key = keys.item;
    let k = cmac::prepare(t, key);
    let n = message::item_count(s);
    let mut room = [0u8; keyed::ROOM];
    let mut at = message::first_at(s);
    for i in 0..n {
        let end = message::item_end(s, at);
        add_item(t, code, k, stamp, sums, i + 1, &s[at + 2..end], &mut room);
        at = end;
    }
}

// Writes the tag file that says head before its tags, which are made of the sums at the front of sums, sealed, to the front of out; what is
// behind it stays.
pub fn write_file(t: &Tables, head: Head, keys: Keys, sums: &[u8], out: &mut [u8])
    requires code_value { known head.code ≡ true }
    requires count_bound { head.count ≤ (family_of head.code).items }
    requires code_in_bounds { (16 * (family_of head.code).tags ≤ length sums.now) × (file_size head ≤ length out.old) }
    ensures { out.new ≡ file_of keys head (sum_in sums.now) ++ drop (file_size head) out.old }
{
    let stamp = head.stamp;
    let at = tagfile::tags_at(stamp.version);
    let n = sizes::tags(head.code);
    let tag_key = keys.tag;
    let seal_key = keys.seal;
    tagfile::put_header(out, head);
    keyed::write_tags(t, engine::expand(t, tag_key), sums, n, &mut out[at..]);
    tagfile::seal(t, seal_key, out, at + 16 * n);
}
