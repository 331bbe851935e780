// The row pattern of a difference list, by the check polynomial of the cyclic code that the list generates (document 02, request 2.6).
#![tactic(auto)]

ghost use Rattle.std.specs.Prelude.{◌≡◌, ◌++◌, suc, ◌+◌, ◌-◌, ◌≤◌, ◌<◌, eqb, ltb, length, drop, set, if◌then◌else◌};
ghost use Rattle.incidence.specs.Count.{indicator};
ghost use Rattle.cyclic.specs.CyclicCode.{modulus, of_list, generator_polynomial, check_polynomial, steps_back};
ghost use Rattle.cyclic.specs.Deriving.{pattern_answer, pattern_writes};

// Adds the term x^e to a sum of terms, if e is below m.
fn add_term(m: usize, e: u16, p: &mut [u8])
    requires { m ≤ length p.old }
    ensures { p.new ≡ (if ltb e m then set p.old e 1 else p.old) }
{
    let place = e as usize;
    if place < m {
        p[place] = 1;
    }
}

// Puts D(x) into p, which has a place for each term to x^m.
fn put_list(list: &[u16], p: &mut [u8])
    requires { 0 < length p.old }
    ensures { p.new ≡ of_list (length p.old - 1) list.now }
{
    let m = p.len() - 1;
    p.fill(0);
    for i in (0..list.len()).rev() {
        add_term(m, list[i], p);
    }
}

// Puts x^m + 1 into p, likewise.
fn put_modulus(p: &mut [u8])
    requires { 1 < length p.old }
    ensures { p.new ≡ modulus (length p.old - 1) }
{
    let m = p.len() - 1;
    p.fill(0);
    p[0] = 1;
    p[m] = 1;
}

// Writes step k behind the others, where its coefficient c is 1, and gives the place behind it.
fn put_step(out: &mut [u16], at: usize, c: u8, k: usize) -> usize
    requires { (at < length out.old) × (k ≤ 273) }
    ensures written { out.new ≡ (if eqb c 1 then set out.old at k else out.old) }
    ensures behind { result ≡ at + indicator (eqb c 1) }
{
    if c == 1 {
        out[at] = k as u16;
        at + 1
    } else {
        at
    }
}

// Writes the steps back that h's terms stand for to the front of out, and gives how many.
fn put_steps(h: &[u8], out: &mut [u16]) -> usize
    requires { (length h.now ≤ 274) × (length h.now ≤ suc (length out.old)) }
    ensures written { out.new ≡ steps_back h.now ++ drop (length (steps_back h.now)) out.old }
    ensures count { result ≡ length (steps_back h.now) }
{
    let n = polynomials::size(h);
    let mut at = 0;
    for k in 1..n {
        at = put_step(out, at, h[n - 1 - k], k);
    }
    at
}

// Puts the generator polynomial of a list into p, likewise.
fn put_generator(list: &[u16], p: &mut [u8])
    requires { (1 < length p.old) × (length p.old ≤ 274) }
    ensures { p.new ≡ generator_polynomial (length p.old - 1) list.now }
{
    let mut q = [0u8; 274];
    let of_modulus = &mut q[..p.len()];
    put_list(list, p);
    put_modulus(of_modulus);
    polynomials::gcd(p, of_modulus);
}

// Puts the check polynomial of a list into h, likewise.
fn put_check(list: &[u16], h: &mut [u8])
    requires { (1 < length h.old) × (length h.old ≤ 274) }
    ensures { h.new ≡ check_polynomial (length h.old - 1) list.now }
{
    let mut p = [0u8; 274];
    let mut q = [0u8; 274];
    let of_modulus = &mut p[..h.len()];
    let generator = &mut q[..h.len()];
    put_modulus(of_modulus);
    put_generator(list, generator);
    polynomials::divide(h, of_modulus, generator);
}

// The row pattern of a difference list for m cards: writes its steps, rising, to the front of out, and gives how many. None, and out is as it was,
// where m is 0 or above 273 or out has fewer than m places. Members of the list from m on are left out.
// The steps go into a buffer lent, with their number beside it, as clause `written` says: there is no heap.
pub fn pattern(m: usize, list: &[u16], out: &mut [u16]) -> Option<usize>
    ensures answer { result ≡ pattern_answer m list.now (length out.old) }
    ensures written { out.new ≡ pattern_writes m list.now out.old }
{
    if m == 0 || 273 < m || out.len() < m {
        return None;
    }
    let mut space = [0u8; 274];
    let h = &mut space[..m + 1];
    put_check(list, h);
    Some(put_steps(h, out))
}
