// AES-128 by round tables, the second engine (document 02, request 2.8): a look-up for each byte joins SubBytes and MixColumns. Its calls
// have the contracts of the plain engine's, so that for every key and block each gives what the other gives. A caller with many blocks
// takes the tables once and calls `schedule::expand` and `rounds::absorb`.
#![tactic(auto)]

ghost use Rattle.std.specs.Prelude.{◌≡◌};
ghost use Rattle.fips197.specs.Aes.{cipher, inv_cipher};

use fips197::inv_sbox;
pub use fips197::schedule;

pub mod inv_round_tables;
pub mod keys;
pub mod round_tables;
pub mod rounds;

// Enciphers a block with an expanded key.
pub fn encipher_with(w: [u8; 176], block: [u8; 16]) -> [u8; 16]
    ensures { result ≡ cipher w block }
{
    let t = round_tables::table();
    rounds::absorb(&t, &w, [0u8; 16], &block)
}

// Deciphers a block with an expanded key.
pub fn decipher_with(w: [u8; 176], block: [u8; 16]) -> [u8; 16]
    ensures { result ≡ inv_cipher w block }
{
    let t = inv_round_tables::table();
    let last = inv_sbox::table();
    let k = keys::decipher_words(w);
    rounds::inv_cipher(&t, &last, &k, block)
}
