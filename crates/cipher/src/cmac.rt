// CMAC with AES-128 (SP 800-38B, RFC 4493). A caller with many messages takes the engine's tables and prepares the key once, with `prepare`.
// `mac` reads a message where it lies; `mac_in_place` is for one that may be written over: its last block is made ready where it stands, and
// the MAC is one chain over whole blocks.
ghost use Rattle.std.specs.Prelude.{◌≡◌, ◌++◌, ◌+◌, ◌-◌, ◌*◌, ◌/◌, ◌≤◌, ◌<◌, length, take, drop};
ghost use Rattle.cipher.specs.Cmac.{padded, last_block, laid_out, ready, mac_with, cmac};

use crate::engine::Tables;
use crate::{aes, engine};
use blocks::block;

// A key made ready: its schedule and the two subkeys. Crates above hold it and hand it on by value.
#[derive(Clone, Copy)]
pub struct MacKey {
    pub schedule: [u8; 176],
    pub k1: [u8; 16],
    pub k2: [u8; 16],
}

// The key made ready.
pub fn prepare(t: &Tables, key: [u8; 16]) -> MacKey
    ensures { result ≡ ready key }
{
    let schedule = engine::expand(t, key);
    let k1 = block::double(aes::encipher_with(t, &schedule, [0u8; 16]));
    let k2 = block::double(k1);
    MacKey { schedule, k1, k2 }
}

// Fewer than 16 bytes, padded.
fn padded(l: &[u8]) -> [u8; 16]
    requires { length l.now < 16 }
    ensures { result ≡ padded l.now }
{
    let n = l.len();
    let mut r = [0u8; 16];
    r[0..n].copy_from_slice(l);
    r[n] = 0x80;
    r
}

// The last block, whole or padded, masked by a subkey.
fn last_block(l: &[u8], k1: [u8; 16], k2: [u8; 16]) -> [u8; 16]
    requires { length l.now ≤ 16 }
    ensures { result ≡ last_block k1 k2 l.now }
{
    if l.len() == 16 {
        return block::xor(block::block_at(l, 0), k1);
    }
    block::xor(padded(l), k2)
}

// Where the last block of n bytes begins.
fn last_at(n: usize) -> usize
    ensures { (result ≡ 16 * ((n - 1) / 16)) × (result ≤ n) }
{
    if n == 0 { 0 } else { 16 * ((n - 1) / 16) }
}

// CMAC of a message under a key made ready, read where it lies.
pub fn mac(t: &Tables, key: MacKey, message: &[u8]) -> [u8; 16]
    ensures { result ≡ mac_with key message.now }
{
    let at = last_at(message.len());
    let last = last_block(&message[at..], key.k1, key.k2);
    let x = engine::absorb(t, &key.schedule, [0u8; 16], &message[0..at]);
    engine::absorb(t, &key.schedule, x, &last)
}

// CMAC of the first n bytes of buf under a key made ready. Their last block is laid out where it stands, with the bytes behind them up to its
// end; what is behind it stays.
pub fn mac_in_place(t: &Tables, key: MacKey, buf: &mut [u8], n: usize) -> [u8; 16]
    requires { 16 * ((n - 1) / 16) + 16 ≤ length buf.old }
    ensures mac { result ≡ mac_with key (take n buf.old) }
    ensures laid { buf.new ≡ laid_out key.k1 key.k2 (take n buf.old) ++ drop (16 * ((n - 1) / 16) + 16) buf.old }
{
    let at = last_at(n);
    let last = last_block(&buf[at..n], key.k1, key.k2);
    block::put_at(buf, at, last);
    engine::absorb(t, &key.schedule, [0u8; 16], &buf[0..at + 16])
}

// CMAC of a message, with the engine's tables.
pub fn cmac_with(t: &Tables, key: [u8; 16], message: &[u8]) -> [u8; 16]
    ensures { result ≡ cmac key message.now }
{
    mac(t, prepare(t, key), message)
}

// CMAC of a message.
pub fn cmac(key: [u8; 16], message: &[u8]) -> [u8; 16]
    ensures { result ≡ cmac key message.now }
{
    let t = engine::tables();
    cmac_with(&t, key, message)
}
