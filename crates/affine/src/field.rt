// The field of 2^s elements, s = 2 and 3 (document 02, 2.7).
ghost use Rattle.std.specs.Prelude.{◌≡◌, true, ◌^◌, ◌<◌};
ghost use Rattle.affine.specs.Field.{offered, polynomial, element_times_x, product, element_inverse};

// The field of 2^s elements, for the two s that are offered.
#[derive(Clone, Copy)]
pub struct Field {
    pub s: usize,
    pub ghost here: { offered s ≡ true },
}

impl Field {
    // The polynomial.
    fn polynomial(self) -> usize
        ensures { result ≡ polynomial self.s }
    {
        if self.s == 2 { 7 } else { 11 }
    }

    // How many elements there are.
    pub fn elements(self) -> usize
        ensures { result ≡ 2 ^ self.s }
    {
        if self.s == 2 { 4 } else { 8 }
    }

    // An element times x.
    fn times_x(self, a: usize) -> usize
        requires { a < 2 ^ self.s }
        ensures { result ≡ element_times_x self.s a }
    {
        if a * 2 < self.elements() {
            return a * 2;
        }
        a * 2 ^ self.polynomial()
    }

    // The product of two elements.
    pub fn product(self, a: usize, b: usize) -> usize
        ensures { result ≡ product self.s a b }
    {
        let q = self.elements();
        let by = b % q;
        let once = a % q;
        let twice = self.times_x(once);
        let fourfold = self.times_x(twice);
        (by % 2 * once) ^ (by / 2 % 2 * twice) ^ (by / 4 * fourfold)
    }

    // The inverse of an element, which is its power 2^s - 2.
    pub fn inverse(self, a: usize) -> usize
        requires { a < 2 ^ self.s }
        ensures { result ≡ element_inverse self.s a }
    {
        let square = self.product(a, a);
        if self.s == 2 {
            return square;
        }
        self.product(square, self.product(square, square))
    }
}
