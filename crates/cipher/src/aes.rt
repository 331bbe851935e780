// AES-128 (FIPS 197). A caller with one block uses `encipher` and `decipher`. A caller with many takes the engine's tables and expands the
// key once, with `engine::expand`, and hands both to `encipher_with` or, where the blocks stand in a row, to `encipher_blocks`; the way back
// is `engine::decipher_blocks`.
ghost use Rattle.std.specs.Prelude.{◌≡◌, List, ◌++◌, ℕ, ◌*◌, ◌≤◌, length, drop};
ghost use Rattle.blocks.specs.Block.{Block, slot, list_of};
ghost use Rattle.cipher.specs.Aes.{sbox, key_expansion, cipher, encipher, decipher};

use crate::engine;
use crate::engine::Tables;
use blocks::block;
use fips197::sbox;

// The S-box of a byte.
pub fn sub_byte(b: u8) -> u8
    ensures { result ≡ sbox b }
{
    let t = sbox::table();
    sbox::lookup(&t.bytes, b)
}

// The expanded key, for a caller who has not taken the tables.
pub fn key_expansion(key: [u8; 16]) -> [u8; 176]
    ensures { result ≡ key_expansion key }
{
    let t = engine::tables();
    engine::expand(&t, key)
}

// Enciphers a block with an expanded key.
pub fn encipher_with(t: &Tables, w: &[u8; 176], block: [u8; 16]) -> [u8; 16]
    ensures { result ≡ cipher w.now block }
{
    engine::absorb(t, w, [0u8; 16], &block)
}

// Enciphers the first n blocks of buf, each in its place, with an expanded key.
pub fn encipher_blocks(t: &Tables, w: [u8; 176], n: usize, buf: &mut [u8])
    requires { 16 * n ≤ length buf.old }
    ensures { buf.new ≡ list_of (λ k. cipher w (slot buf.old k)) n ++ drop (16 * n) buf.old }
{
    block::each_block(
        buf,
        n,
        |b: [u8; 16]| -> [u8; 16]
            ensures { result ≡ cipher w b }
        { encipher_with(t, &w, b) },
    );
}

// AES-128 of a block. Of a deciphered block it gives the block back.
pub fn encipher(key: [u8; 16], block: [u8; 16]) -> [u8; 16]
    ensures enciphered { result ≡ encipher key block }
    ensures undoes { (b : List ℕ) → Block b → block ≡ decipher key b → result ≡ b }
{
    let t = engine::tables();
    encipher_with(&t, &engine::expand(&t, key), block)
}

// The inverse of AES-128. Of an enciphered block it gives the block back.
pub fn decipher(key: [u8; 16], block: [u8; 16]) -> [u8; 16]
    ensures deciphered { result ≡ decipher key block }
    ensures undoes { (b : List ℕ) → Block b → block ≡ encipher key b → result ≡ b }
{
    engine::decipher_with(key_expansion(key), block)
}
