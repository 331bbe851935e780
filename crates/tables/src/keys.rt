// The schedule that deciphering with tables needs (FIPS 197, 5.3.5): the words of rounds 1 to 9 mixed back, so that a round adds its key
// behind the look-ups.
ghost use Rattle.std.specs.Prelude.{◌≡◌, ◌<◌, length};
ghost use Rattle.fips197.specs.Words.{bytes_of};
ghost use Rattle.tables.specs.RoundTables.{decipher_word, DecipherWords};

use fips197::words;

// Word i of the deciphering schedule.
fn decipher_word(w: &[u8; 176], i: usize) -> u32
    requires { i < 44 }
    ensures { bytes_of result ≡ decipher_word w.now i }
{
    let x = words::word_at(w, 4 * i);
    if i < 4 {
        return x;
    }
    if 39 < i {
        return x;
    }
    words::inv_mix(x)
}

// The deciphering schedule of a schedule.
pub fn decipher_words(w: [u8; 176]) -> [u32; 44]
    ensures { DecipherWords result w }
{
    let mut k = [0u32; 44];
    for i in 0..44 {
        k[i] = decipher_word(&w, i);
    }
    k
}
