// The keyed functions of the scheme (000, section 4.3: F and G): an item's hash, tags from sums and back. Callers take the engine's tables and
// expand their keys once and hand over what comes of it; each contract says what is given for any key handed over so, and
// proofs/KeyedLaws.antt what that is for a key.
#![tactic(auto)]

ghost use Rattle.std.specs.Prelude.{◌≡◌, ◌++◌, suc, ◌+◌, ◌*◌, ◌≤◌, length, drop};
ghost use Rattle.blocks.specs.Block.{◌⊕◌, slot, list_of};
ghost use Rattle.blocks.specs.Number.{big_endian};
ghost use Rattle.cipher.specs.Aes.{cipher, inv_cipher};
ghost use Rattle.cipher.specs.Cmac.{mac_with};
ghost use Rattle.keyed.specs.Keyed.{vacant, item_hash_by, doubled, mask_by, tags_by, sums_by};

use blocks::block;
use cipher::cmac::MacKey;
use cipher::engine::Tables;
use cipher::{aes, cmac, engine};
use stamp::Stamp;

// How long a buffer to lay an item out in is: numbers, 1,024 bytes and padding to whole blocks.
pub const ROOM: usize = 1040;

// Whether an item is a vacant place in a version.
fn vacant(version: u16, item: &[u8]) -> bool
    ensures { result ≡ vacant version item.now }
{
    version >= 3 && item.len() == 0
}

// Writes the numbers of the message and of the item, 4 bytes each, and the item to the front of out; what is behind them stays.
fn put_numbered(out: &mut [u8], number: u32, j: u64, item: &[u8])
    requires { 8 + length item.now ≤ length out.old }
    ensures { out.new ≡ ((big_endian 4 number ++ big_endian 4 j) ++ item.now) ++ drop (8 + length item.now) out.old }
{
    let numbers = block::to_be64((number as u64) * 0x1_0000_0000 + j % 0x1_0000_0000);
    block::put_bytes(out, 0, &numbers);
    block::put_bytes(out, 8, item);
}

// The hash of item j of the message that has this stamp, under a key made ready (document 01: code of card j); of a vacant place, zeros.
// The item is laid out in room, whose bytes are of no account, and its hash is one chain over whole blocks.
pub fn item_hash(
    t: &Tables,
    k: MacKey,
    stamp: Stamp,
    j: u64,
    item: &[u8],
    room: &mut [u8],
) -> [u8; 16]
    requires { (length item.now ≤ 1024) × (1040 ≤ length room.old) }
    ensures hash { result ≡ item_hash_by (mac_with k) stamp j item.now }
    ensures room { length room.new ≡ length room.old }
{
    if vacant(stamp.version, item) {
        return [0u8; 16];
    }
    put_numbered(room, stamp.number, j, item);
    cmac::mac_in_place(t, k, room, 8 + item.len())
}

// The mask before the first, with an expanded key: `block::double` gives each next one.
fn mask_zero(t: &Tables, w: &[u8; 176]) -> [u8; 16]
    ensures { result ≡ mask_by (cipher w.now) 0 }
{
    aes::encipher_with(t, w, [0u8; 16])
}

// XORs the masks 1 to n into the first n blocks of buf, given the mask before the first.
fn add_masks(m: [u8; 16], n: usize, buf: &mut [u8])
    requires { 16 * n ≤ length buf.old }
    ensures { buf.new ≡ list_of (λ k. doubled m (suc k) ⊕ slot buf.old k) n ++ drop (16 * n) buf.old }
{
    let mut mask = m;
    for k in 0..n {
        let next = block::double(mask);
        block::xor_at(buf, 16 * k, next);
        mask = next;
    }
}

// Writes the tags of n sums, which stand one after another in sums, to the front of out; what is behind them stays.
pub fn write_tags(t: &Tables, w: [u8; 176], sums: &[u8], n: usize, out: &mut [u8])
    requires { (16 * n ≤ length sums.now) × (16 * n ≤ length out.old) }
    ensures { out.new ≡ tags_by (cipher w) sums.now n ++ drop (16 * n) out.old }
{
    let m = mask_zero(t, &w);
    block::copy_blocks(sums, n, out);
    add_masks(m, n, out);
    aes::encipher_blocks(t, w, n, out);
    add_masks(m, n, out);
}

// Writes the sums that n tags, which stand one after another in tags, were made of to the front of out; what is behind them stays. They
// are deciphered together, so that the tables for deciphering are taken once. Not one function with `write_tags` over what stands between
// the masks: the five calls would become as many, and a closure with clauses of its own at each.
pub fn write_sums(t: &Tables, w: [u8; 176], tags: &[u8], n: usize, out: &mut [u8])
    requires { (16 * n ≤ length tags.now) × (16 * n ≤ length out.old) }
    ensures { out.new ≡ sums_by (cipher w) (inv_cipher w) tags.now n ++ drop (16 * n) out.old }
{
    let m = mask_zero(t, &w);
    block::copy_blocks(tags, n, out);
    add_masks(m, n, out);
    engine::decipher_blocks(w, n, out);
    add_masks(m, n, out);
}
