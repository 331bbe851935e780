// What bench/cipher.c measures: CMAC, AES-128 both ways over many blocks, and a key with one block, by the engine of tables and by the
// plain one. Each writes to the front of `out` and answers 1. Where the key is not 16 bytes long or `out` has no room it answers 0, and
// `out` is as it was.
#![tactic(auto)]

ghost use Rattle.std.specs.Prelude.{◌≤◌, length, OnSome};

use blocks::block::{block_at, copy_blocks, put, put_at};
use cipher::{aes, cmac, engine};

// (The room is a premise of each: the exports look at it, by `key_in`, and answer 0 or 1, since C reads that.)

// Enciphers each block of input into out: copied, then all in place.
fn encipher_blocks(key: [u8; 16], input: &[u8], out: &mut [u8])
    requires { length input.now ≤ length out.old }
{
    let t = engine::tables();
    let w = engine::expand(&t, key);
    let count = input.len() / 16;
    copy_blocks(input, count, out);
    aes::encipher_blocks(&t, w, count, out);
}

// Deciphers each block of input into out: copied, then all in place.
fn decipher_blocks(key: [u8; 16], input: &[u8], out: &mut [u8])
    requires { length input.now ≤ length out.old }
{
    let w = aes::key_expansion(key);
    let count = input.len() / 16;
    copy_blocks(input, count, out);
    engine::decipher_blocks(w, count, out);
}

// The expanded key, by the plain engine.
fn plain_expand(key: [u8; 16]) -> [u8; 176] {
    let t = fips197::sbox::table();
    plain::schedule::expand(&t, key)
}

// Turns each block of input into out.
fn turn_blocks<F: Fn([u8; 16]) -> [u8; 16]>(input: &[u8], out: &mut [u8], turn: F)
    requires callable { F.IsAlwaysCallable turn }
    requires room { length input.now ≤ length out.old }
{
    for n in 0..input.len() / 16 {
        put_at(out, 16 * n, turn(block_at(input, 16 * n)));
    }
}

// Enciphers each block of input into out by the plain engine, with its table taken once.
fn plain_encipher_blocks(w: [u8; 176], input: &[u8], out: &mut [u8])
    requires { length input.now ≤ length out.old }
{
    let t = fips197::sbox::table();
    turn_blocks(input, out, |block| plain::rounds::cipher(&t, &w, block));
}

// Deciphers each block of input into out by the plain engine, with its table taken once.
fn plain_decipher_blocks(w: [u8; 176], input: &[u8], out: &mut [u8])
    requires { length input.now ≤ length out.old }
{
    let t = fips197::inv_sbox::table();
    turn_blocks(input, out, |block| plain::rounds::inv_cipher(&t, &w, block));
}

// The key, if it is 16 bytes long and out has so much room.
fn key_in(key: &[u8], out: &[u8], room: usize) -> Option<[u8; 16]>
    ensures { OnSome result (room ≤ length out.now) }
{
    if key.len() != 16 || out.len() < room {
        return None;
    }
    Some(block_at(key, 0))
}

// CMAC of a message. out has room for 16 bytes.
#[unsafe(no_mangle)]
pub extern "C" fn bench_cmac(key: &[u8], message: &[u8], out: &mut [u8]) -> u64 {
    let Some(key) = key_in(key, out, 16) else {
        return 0;
    };
    put(out, cmac::cmac(key, message));
    1
}

// Enciphers every whole block of the input, the key expanded once. out has room for the input.
#[unsafe(no_mangle)]
pub extern "C" fn bench_encipher(key: &[u8], input: &[u8], out: &mut [u8]) -> u64 {
    let Some(key) = key_in(key, out, input.len()) else {
        return 0;
    };
    encipher_blocks(key, input, out);
    1
}

// Deciphers every whole block of the input, the key expanded once. out has room for the input.
#[unsafe(no_mangle)]
pub extern "C" fn bench_decipher(key: &[u8], input: &[u8], out: &mut [u8]) -> u64 {
    let Some(key) = key_in(key, out, input.len()) else {
        return 0;
    };
    decipher_blocks(key, input, out);
    1
}

// Enciphers every whole block of the input, the key expanded once, by the plain engine. out has room for the input.
#[unsafe(no_mangle)]
pub extern "C" fn bench_plain_encipher(key: &[u8], input: &[u8], out: &mut [u8]) -> u64 {
    let Some(key) = key_in(key, out, input.len()) else {
        return 0;
    };
    plain_encipher_blocks(plain_expand(key), input, out);
    1
}

// Deciphers every whole block of the input, the key expanded once, by the plain engine. out has room for the input.
#[unsafe(no_mangle)]
pub extern "C" fn bench_plain_decipher(key: &[u8], input: &[u8], out: &mut [u8]) -> u64 {
    let Some(key) = key_in(key, out, input.len()) else {
        return 0;
    };
    plain_decipher_blocks(plain_expand(key), input, out);
    1
}

// Expands the key and enciphers the block at the front of out.
#[unsafe(no_mangle)]
pub extern "C" fn bench_setup(key: &[u8], out: &mut [u8]) -> u64 {
    let Some(key) = key_in(key, out, 16) else {
        return 0;
    };
    let block = block_at(out, 0);
    put(out, aes::encipher(key, block));
    1
}

// Expands the key and enciphers the block at the front of out by the plain engine.
#[unsafe(no_mangle)]
pub extern "C" fn bench_plain_setup(key: &[u8], out: &mut [u8]) -> u64 {
    let Some(key) = key_in(key, out, 16) else {
        return 0;
    };
    let block = block_at(out, 0);
    put(out, plain::encipher(key, block));
    1
}
