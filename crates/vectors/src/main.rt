// Runs the examples of FIPS 197, RFC 4493 and document 01 and prints what comes out, a line each. What the standards say comes out
// is typed in from them; a line whose result differs says WRONG, and what was expected. The cipher layer, which computes by the tables,
// runs them all; the plain engine runs those of AES-128.
#![tactic(auto)]

ghost use Rattle.std.specs.Prelude.{◌≤◌};

use blocks::block;
use cipher::{aes, cmac, engine};
use std::io;

// FIPS 197, appendix B.
const B_KEY: [u8; 16] = *b"\x2b\x7e\x15\x16\x28\xae\xd2\xa6\xab\xf7\x15\x88\x09\xcf\x4f\x3c";

const B_INPUT: [u8; 16] = *b"\x32\x43\xf6\xa8\x88\x5a\x30\x8d\x31\x31\x98\xa2\xe0\x37\x07\x34";

const B_OUTPUT: [u8; 16] = *b"\x39\x25\x84\x1d\x02\xdc\x09\xfb\xdc\x11\x85\x97\x19\x6a\x0b\x32";

// FIPS 197, appendix C.1.
const C1_KEY: [u8; 16] = *b"\x00\x01\x02\x03\x04\x05\x06\x07\x08\x09\x0a\x0b\x0c\x0d\x0e\x0f";

const C1_PLAINTEXT: [u8; 16] = *b"\x00\x11\x22\x33\x44\x55\x66\x77\x88\x99\xaa\xbb\xcc\xdd\xee\xff";

const C1_CIPHERTEXT: [u8; 16] =
    *b"\x69\xc4\xe0\xd8\x6a\x7b\x04\x30\xd8\xcd\xb7\x80\x70\xb4\xc5\x5a";

// RFC 4493, section 4: the key, what it makes of the zero block, and the subkeys.
const KEY: [u8; 16] = *b"\x2b\x7e\x15\x16\x28\xae\xd2\xa6\xab\xf7\x15\x88\x09\xcf\x4f\x3c";

const ZERO_ENCIPHERED: [u8; 16] =
    *b"\x7d\xf7\x6b\x0c\x1a\xb8\x99\xb3\x3e\x42\xf0\x47\xb9\x1b\x54\x6f";

const K1: [u8; 16] = *b"\xfb\xee\xd6\x18\x35\x71\x33\x66\x7c\x85\xe0\x8f\x72\x36\xa8\xde";

const K2: [u8; 16] = *b"\xf7\xdd\xac\x30\x6a\xe2\x66\xcc\xf9\x0b\xc1\x1e\xe4\x6d\x51\x3b";

// RFC 4493, section 4: the messages are the first 0, 16, 40 and 64 bytes of this one.
const MESSAGE: [u8; 64] = *b"\
    \x6b\xc1\xbe\xe2\x2e\x40\x9f\x96\xe9\x3d\x7e\x11\x73\x93\x17\x2a\
    \xae\x2d\x8a\x57\x1e\x03\xac\x9c\x9e\xb7\x6f\xac\x45\xaf\x8e\x51\
    \x30\xc8\x1c\x46\xa3\x5c\xe4\x11\xe5\xfb\xc1\x19\x1a\x0a\x52\xef\
    \xf6\x9f\x24\x45\xdf\x4f\x9b\x17\xad\x2b\x41\x7b\xe6\x6c\x37\x10";

const MAC_0: [u8; 16] = *b"\xbb\x1d\x69\x29\xe9\x59\x37\x28\x7f\xa3\x7d\x12\x9b\x75\x67\x46";

const MAC_16: [u8; 16] = *b"\x07\x0a\x16\xb4\x6b\x4d\x41\x44\xf7\x9b\xdd\x9d\xd0\x4a\x28\x7c";

const MAC_40: [u8; 16] = *b"\xdf\xa6\x67\x47\xde\x9a\xe6\x30\x30\xca\x32\x61\x14\x97\xc8\x27";

const MAC_64: [u8; 16] = *b"\x51\xf0\xbe\xbf\x7e\x3b\x9d\x92\xfc\x49\x74\x17\x79\x36\x3c\xfe";

// Document 01, bench cards: 80 and fifteen 00, and what they double to.
const TOP_BIT: [u8; 16] = *b"\x80\0\0\0\0\0\0\0\0\0\0\0\0\0\0\0";

const TOP_BIT_DOUBLED: [u8; 16] = *b"\0\0\0\0\0\0\0\0\0\0\0\0\0\0\0\x87";

// Prints bytes in hexadecimal.
fn print_hex(rt: &impl Print, bytes: &[u8]) -> io::Result<()> {
    for byte in bytes {
        print!(rt; "{byte:02x}")?;
    }
    Ok(())
}

// Prints a line: a name, the result, and what was expected where that differs.
fn line(rt: &impl Print, name: &[u8], res: &[u8], expected: &[u8]) -> io::Result<()> {
    rt.write_all(name)?;
    rt.write_all(b" ")?;
    print_hex(rt, res)?;
    if res != expected {
        rt.write_all(b" WRONG, expected ")?;
        print_hex(rt, expected)?;
    }
    rt.write_all(b"\n")
}

fn fips_197(rt: &impl Print) -> io::Result<()> {
    line(
        rt,
        b"FIPS 197 B encipher",
        &aes::encipher(B_KEY, B_INPUT),
        &B_OUTPUT,
    )?;
    line(
        rt,
        b"FIPS 197 B decipher",
        &aes::decipher(B_KEY, B_OUTPUT),
        &B_INPUT,
    )?;
    line(
        rt,
        b"FIPS 197 C.1 encipher",
        &aes::encipher(C1_KEY, C1_PLAINTEXT),
        &C1_CIPHERTEXT,
    )?;
    line(
        rt,
        b"FIPS 197 C.1 decipher",
        &aes::decipher(C1_KEY, C1_CIPHERTEXT),
        &C1_PLAINTEXT,
    )
}

fn subkeys(rt: &impl Print) -> io::Result<()> {
    let t = engine::tables();
    let key = cmac::prepare(&t, KEY);
    line(
        rt,
        b"RFC 4493 AES-128(key,0)",
        &aes::encipher(KEY, [0u8; 16]),
        &ZERO_ENCIPHERED,
    )?;
    line(rt, b"RFC 4493 K1", &key.k1, &K1)?;
    line(rt, b"RFC 4493 K2", &key.k2, &K2)
}

fn examples(rt: &impl Print) -> io::Result<()> {
    let m = MESSAGE;
    line(
        rt,
        b"RFC 4493 Example 1",
        &cmac::cmac(KEY, &m[0..0]),
        &MAC_0,
    )?;
    line(
        rt,
        b"RFC 4493 Example 2",
        &cmac::cmac(KEY, &m[0..16]),
        &MAC_16,
    )?;
    line(
        rt,
        b"RFC 4493 Example 3",
        &cmac::cmac(KEY, &m[0..40]),
        &MAC_40,
    )?;
    line(
        rt,
        b"RFC 4493 Example 4",
        &cmac::cmac(KEY, &m[0..64]),
        &MAC_64,
    )
}

// Prints the line of an example whose message, the first n bytes, is laid out where it stands.
fn in_place(rt: &impl Print, name: &[u8], n: usize, mac: [u8; 16]) -> io::Result<()>
    requires { n ≤ 64 }
{
    let t = engine::tables();
    let mut m = MESSAGE;
    let result = cmac::mac_in_place(&t, cmac::prepare(&t, KEY), &mut m, n);
    line(rt, name, &result, &mac)
}

fn examples_in_place(rt: &impl Print) -> io::Result<()> {
    in_place(rt, b"RFC 4493 Example 1 in place", 0, MAC_0)?;
    in_place(rt, b"RFC 4493 Example 2 in place", 16, MAC_16)?;
    in_place(rt, b"RFC 4493 Example 3 in place", 40, MAC_40)?;
    in_place(rt, b"RFC 4493 Example 4 in place", 64, MAC_64)
}

fn bench_cards(rt: &impl Print) -> io::Result<()> {
    line(rt, b"S-box of 53", &[aes::sub_byte(0x53)], b"\xed")?;
    line(
        rt,
        b"80 and fifteen 00 doubled",
        &block::double(TOP_BIT),
        &TOP_BIT_DOUBLED,
    )
}

// The examples of AES-128 by the plain engine.
fn by_the_plain_engine(rt: &impl Print) -> io::Result<()> {
    line(
        rt,
        b"FIPS 197 B encipher, plain engine",
        &plain::encipher(B_KEY, B_INPUT),
        &B_OUTPUT,
    )?;
    line(
        rt,
        b"FIPS 197 B decipher, plain engine",
        &plain::decipher(B_KEY, B_OUTPUT),
        &B_INPUT,
    )?;
    line(
        rt,
        b"FIPS 197 C.1 encipher, plain engine",
        &plain::encipher(C1_KEY, C1_PLAINTEXT),
        &C1_CIPHERTEXT,
    )?;
    line(
        rt,
        b"FIPS 197 C.1 decipher, plain engine",
        &plain::decipher(C1_KEY, C1_CIPHERTEXT),
        &C1_PLAINTEXT,
    )?;
    line(
        rt,
        b"RFC 4493 AES-128(key,0), plain engine",
        &plain::encipher(KEY, [0u8; 16]),
        &ZERO_ENCIPHERED,
    )
}

fn main(rt: HostRuntime) -> io::Result<()> {
    fips_197(&rt)?;
    subkeys(&rt)?;
    examples(&rt)?;
    examples_in_place(&rt)?;
    bench_cards(&rt)?;
    by_the_plain_engine(&rt)
}
