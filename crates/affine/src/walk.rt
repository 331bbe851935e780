// The tags of an item and the items of a row, in rising order, without a test of pairs: an item's line is solved, and each of its 2^s
// points gives the next tag or none; the lines through a row's point are had the same way, from the point's dual line.
ghost use Rattle.std.specs.Prelude.{◌≡◌, true, ◌++◌, ◌^◌, ◌≤◌, ◌<◌, length, drop};
ghost use Rattle.incidence.specs.Family.{items_of, tags_of};
ghost use Rattle.affine.specs.Lines.{chosen, crossing, line_of};
ghost use Rattle.affine.specs.Affine.{affine_family};
ghost use Rattle.affine.specs.Walk.{firsts, start_of, course_of, place_on, met, chosen_at, dual, through_count, through_at};

use crate::field::Field;
use crate::{Affine, Course, Line, table};
use incidence::{MADE_MOST, MOST, Rows};

// Lines, by the field alone.
impl Field {
    // The chosen line k, from 1: y = (k - 1) x, and last x = 0.
    fn chosen(self, k: usize) -> Line
        requires { 1 ≤ k }
        ensures { result ≡ chosen self.s k }
    {
        if k <= self.elements() {
            return Line {
                a: k - 1,
                b: 1,
                c: 0,
            };
        }
        Line { a: 1, b: 0, c: 0 }
    }

    // The line ax + by = 1 with a * 2^s + b = n.
    fn crossing(self, n: usize) -> Line
        ensures { result ≡ crossing self.s n }
    {
        let q = self.elements();
        Line {
            a: n / q,
            b: n % q,
            c: 1,
        }
    }

    // The line of item j.
    fn line_of(self, l: usize, j: usize) -> Line
        requires { 1 ≤ j }
        ensures { result ≡ line_of self.s l j }
    {
        if j <= l {
            return self.chosen(j);
        }
        self.crossing(j - l)
    }

    // A line solved.
    fn course_of(self, line: Line) -> Course
        requires { (line.a < 2 ^ self.s) × (line.b < 2 ^ self.s) }
        ensures { result ≡ course_of self.s line }
    {
        if line.a == 0 {
            return Course::Level {
                y: self.product(self.inverse(line.b), line.c),
            };
        }
        let turned = self.inverse(line.a);
        Course::Sloped {
            start: self.product(turned, line.c),
            slope: self.product(turned, line.b),
        }
    }

    // Its point at place t, from 0.
    fn place_on(self, course: Course, t: usize) -> usize
        requires { (start_of course < 2 ^ self.s) × (t < 2 ^ self.s) }
        ensures { result ≡ place_on self.s course t }
    {
        let q = self.elements();
        match course {
            Course::Level { y } => y * q + t + 1,
            Course::Sloped { start, slope } => t * q + (start ^ self.product(slope, t)) + 1,
        }
    }

    // Writes the entries, other than 0, of a table of points at the points of a course to the front of out.
    fn write_tags(self, course: Course, tags: &[u8], out: &mut [usize]) -> usize
        requires { (start_of course < 2 ^ self.s) × (64 ≤ length tags.now) × (9 ≤ length out.old) }
        ensures written { out.new ≡ met self.s course tags.now (2 ^ self.s) ++ drop (length (met self.s course tags.now (2 ^ self.s))) out.old }
        ensures count { result ≡ length (met self.s course tags.now (2 ^ self.s)) }
    {
        let q = self.elements();
        let mut n = 0;
        for t in 0..q {
            let tag = usize::from(tags[self.place_on(course, t) - 1]);
            if tag != 0 {
                out[n] = tag;
                n += 1;
            }
        }
        n
    }

    // Which of the 2^s + 1 lines through the origin goes through another point p: x = 0, or y = kx with k = y / x.
    fn chosen_at(self, p: usize) -> usize
        requires { 1 ≤ p }
        ensures { result ≡ chosen_at self.s p }
    {
        let q = self.elements();
        let x = (p - 1) % q;
        if x == 0 {
            return q + 1;
        }
        self.product(self.inverse(x), (p - 1) / q) + 1
    }

    // The line on which point (b, a) is where the line ax + by = 1 goes through point p.
    fn dual(self, p: usize) -> Line
        requires { 1 ≤ p }
        ensures { result ≡ dual self.s p }
    {
        let q = self.elements();
        Line {
            a: (p - 1) / q,
            b: (p - 1) % q,
            c: 1,
        }
    }
}

// The lists that go by s and l.
impl Affine {
    // How many items there are through point p, which is a row: at the origin the chosen lines, elsewhere one of them and 2^s others.
    fn item_count(&self, p: usize) -> usize
        ensures { result ≡ through_count self.now.field.s self.now.l p }
    {
        if p == 1 {
            self.l
        } else {
            self.field.elements() + 1
        }
    }

    // The item at place k, from 0, of those through point p, which is a row and whose dual line is solved.
    fn item_at(&self, p: usize, course: Course, k: usize) -> usize
        requires { (1 ≤ p) × (course ≡ course_of self.now.field.s (dual self.now.field.s p)) × (k < through_count self.now.field.s self.now.l p) }
        ensures { result ≡ through_at self.now.field.s self.now.l p k }
    {
        if p == 1 {
            return k + 1;
        }
        if k == 0 {
            return self.field.chosen_at(p);
        }
        self.l + self.field.place_on(course, k - 1) - 1
    }

    // Writes the items through point p, which is a row, to the front of out.
    fn write_items(&self, p: usize, course: Course, out: &mut [usize]) -> usize
        requires le_p { (1 ≤ p) × (course ≡ course_of self.now.field.s (dual self.now.field.s p)) }
        requires in_bounds { 9 ≤ length out.old }
        ensures written { out.new ≡ firsts (through_at self.now.field.s self.now.l p) (through_count self.now.field.s self.now.l p) ++ drop (through_count self.now.field.s self.now.l p) out.old }
        ensures count { result ≡ through_count self.now.field.s self.now.l p }
    {
        let n = self.item_count(p);
        for k in 0..n {
            out[k] = self.item_at(p, course, k);
        }
        n
    }

    // Writes the tags whose rows hold an item, rising, to the front of out, which 9 places serve, and gives how many; what is behind them
    // stays.
    pub fn list_tags(&self, item: usize, out: &mut [usize]) -> usize
        requires { 9 ≤ length out.old }
        ensures written { out.new ≡ tags_of (affine_family self.now.field.s self.now.l) item ++ drop (length (tags_of (affine_family self.now.field.s self.now.l) item)) out.old }
        ensures count { result ≡ length (tags_of (affine_family self.now.field.s self.now.l) item) }
    {
        if incidence::inside(self.items(), item) {
            let all = table::POINT_TAGS;
            let course = self.field.course_of(self.field.line_of(self.l, item));
            self.field.write_tags(course, self.part(&all), out)
        } else {
            0
        }
    }

    // Writes the items that a row holds, rising, likewise.
    pub fn list_items(&self, row: usize, out: &mut [usize]) -> usize
        requires { 9 ≤ length out.old }
        ensures written { out.new ≡ items_of (affine_family self.now.field.s self.now.l) row ++ drop (length (items_of (affine_family self.now.field.s self.now.l) row)) out.old }
        ensures count { result ≡ length (items_of (affine_family self.now.field.s self.now.l) row) }
    {
        if incidence::inside(self.rows(), row) {
            let p = self.point_of(row);
            self.write_items(p, self.field.course_of(self.field.dual(p)), out)
        } else {
            0
        }
    }

    // Writes the rows that a row is made of to the front of out, and gives how many; none where it has a tag. What is behind them stays.
    pub fn list_made(&self, row: usize, out: &mut [u16]) -> usize
        requires { 35 ≤ length out.old }
        ensures written { out.new ≡ (affine_family self.now.field.s self.now.l).made row ++ drop (length ((affine_family self.now.field.s self.now.l).made row)) out.old }
        ensures count { result ≡ length ((affine_family self.now.field.s self.now.l).made row) }
    {
        if incidence::inside(self.rows(), row) {
            self.made_at(row, out)
        } else {
            0
        }
    }
}

impl Rows for Affine {
    ghost family = { λ a. affine_family a.field.s a.l };

    fn items(&self) -> usize {
        let q = self.field.elements();
        self.l + (q * q - 1)
    }

    fn rows(&self) -> usize {
        self.l * (self.field.elements() - 1) + 1
    }

    fn tags(&self) -> usize {
        self.tag_count()
    }

    fn limit(&self) -> usize {
        self.l - 2
    }

    fn tags_of(&self, item: usize, out: &mut [usize; MOST]) -> usize {
        self.list_tags(item, out)
    }

    fn items_of(&self, row: usize, out: &mut [usize; MOST]) -> usize {
        self.list_items(row, out)
    }

    fn tag_of_row(&self, row: usize) -> usize {
        if incidence::inside(self.rows(), row) {
            self.row_tag(row)
        } else {
            0
        }
    }

    fn made_of(&self, row: usize, out: &mut [u16; MADE_MOST]) -> usize {
        self.list_made(row, out)
    }
}
