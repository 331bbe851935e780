// The plain engine: AES-128 (FIPS 197), each step of a round computed as the standard has it, four bytes at a time, with no table but
// the S-box and its inverse. A caller with one block uses `encipher` and `decipher`. A caller with many takes the table and expands the key
// once, with `schedule::expand`, and hands both to `rounds::cipher`, or the expanded key to `encipher_with` and `decipher_with`.
#![tactic(auto)]

ghost use Rattle.std.specs.Prelude.{◌≡◌, List, ℕ};
ghost use Rattle.fips197.specs.Block.{Block};
ghost use Rattle.fips197.specs.Aes.{cipher, inv_cipher, encipher, decipher};

pub use fips197::schedule;
use fips197::{inv_sbox, sbox};

pub mod rounds;

// Enciphers a block with an expanded key.
pub fn encipher_with(w: [u8; 176], block: [u8; 16]) -> [u8; 16]
    ensures { result ≡ cipher w block }
{
    let t = sbox::table();
    rounds::cipher(&t, &w, block)
}

// Deciphers a block with an expanded key.
pub fn decipher_with(w: [u8; 176], block: [u8; 16]) -> [u8; 16]
    ensures { result ≡ inv_cipher w block }
{
    let t = inv_sbox::table();
    rounds::inv_cipher(&t, &w, block)
}

// AES-128 of a block. Of a deciphered block it gives the block back.
pub fn encipher(key: [u8; 16], block: [u8; 16]) -> [u8; 16]
    ensures enciphered { result ≡ encipher key block }
    ensures undoes { (b : List ℕ) → Block b → block ≡ decipher key b → result ≡ b }
{
    let t = sbox::table();
    let w = schedule::expand(&t, key);
    rounds::cipher(&t, &w, block)
}

// The inverse of AES-128. Of an enciphered block it gives the block back.
pub fn decipher(key: [u8; 16], block: [u8; 16]) -> [u8; 16]
    ensures deciphered { result ≡ decipher key block }
    ensures undoes { (b : List ℕ) → Block b → block ≡ encipher key b → result ≡ b }
{
    let t = sbox::table();
    decipher_with(schedule::expand(&t, key), block)
}
