// Arithmetic of polynomials over two elements, a byte a coefficient: sums, the greatest common divisor and the quotient (document 02, request 2.6).
// Those of a call are slices of one length, known when the program runs: a fact of two values, which the type of neither can hold.
#![tactic(auto)]

ghost use Rattle.std.specs.Prelude.{◌≡◌, ℕ, suc, ◌≤◌, length};
ghost use Rattle.blocks.specs.Block.{◌⊕◌};
ghost use Rattle.polynomials.specs.Polynomial.{poly_size, raised, gcd_in, gcd, quotient_in, quotient};

// How many coefficients there are up to the last 1.
pub fn size(p: &[u8]) -> usize
    ensures { result ≡ poly_size p.now }
{
    match p.iter().rposition(|c| *c == 1) {
        Some(last) => last + 1,
        None => 0,
    }
}

// Adds x^k times q to p.
fn add_raised(p: &mut [u8], q: &[u8], k: usize)
    requires { (length q.now ≡ length p.old) × (k ≤ length p.old) }
    ensures { p.new ≡ p.old ⊕ raised k q.now }
{
    for i in k..p.len() {
        p[i] ^= q[i - k];
    }
}

// A step of Euclid's algorithm: n more steps give what n + 1 gave before it.
fn lessen(p: &mut [u8], q: &mut [u8])
    requires { length q.old ≡ length p.old }
    ensures { (n : ℕ) → gcd_in n p.new q.new ≡ gcd_in (suc n) p.old q.old }
{
    let a = size(p);
    let b = size(q);
    if a > 0 && b > 0 {
        if a < b {
            add_raised(q, p, b - a);
        } else {
            add_raised(p, q, a - b);
        }
    }
}

// Puts the greatest common divisor of p and q in the place of p.
pub fn gcd(p: &mut [u8], q: &mut [u8])
    requires { (length q.old ≡ length p.old) × (length p.old ≤ 274) }
    ensures { p.new ≡ gcd p.old q.old }
{
    let most = size(p) + size(q);
    for _step in 0..most {
        lessen(p, q);
    }
    add_raised(p, q, 0);
}

// A step of long division, likewise.
fn divide_once(h: &mut [u8], p: &mut [u8], q: &[u8])
    requires { (length p.old ≡ length h.old) × (length q.now ≡ length h.old) }
    ensures { (n : ℕ) → quotient_in n h.new p.new q.now ≡ quotient_in (suc n) h.old p.old q.now }
{
    let a = size(p);
    let b = size(q);
    if b > 0 && b <= a {
        h[a - b] = 1;
        add_raised(p, q, a - b);
    }
}

// Puts the quotient of p by q into h; the remainder is left in p.
pub fn divide(h: &mut [u8], p: &mut [u8], q: &[u8])
    requires { (length h.old ≡ length p.old) × (length q.now ≡ length p.old) }
    ensures { h.new ≡ quotient p.old q.now }
{
    h.fill(0);
    let most = size(p);
    for _step in 0..most {
        divide_once(h, p, q);
    }
}
