// Refusals: why a call refuses (document 01, 'From the input' and 'From the state'), as the error of its result. A call's checks stand one
// behind the other in document 01's order, each with a `?`, so that the first that applies is the call's.
ghost use Rattle.std.specs.Prelude.{◌≡◌, true, false, is_ok, Err};
ghost use Rattle.files.specs.Refusals.{number_of, told, unless};

// Why, each by document 01's number.
#[derive(Clone, Copy, PartialEq, Eq, Debug)]
pub enum Reason {
    Keys = 1,
    Code = 2,
    Message = 3,
    Count = 4,
    Items = 5,
    TagFile = 6,
    Room = 7,
    Number = 8,
    Item = 9,
    Mac = 20,
    Counts = 21,
    Full = 22,
    Early = 23,
    Shut = 24,
    Numbers = 25,
}

impl Reason {
    // Document 01's number.
    pub fn number(self) -> u8
        ensures { result ≡ number_of self }
    {
        self as u8
    }
}

// A refusal: why, and the place where document 01 names one, else 0.
#[derive(Clone, Copy, PartialEq, Eq, Debug)]
pub struct Refused {
    pub reason: Reason,
    pub place: usize,
}

// Nothing where the test holds, else the error, whichever it is.
pub fn ok_or<E: Drop>(ok: bool, error: E) -> Result<(), E>
    ensures passes { ok ≡ true → is_ok result ≡ true }
    ensures refuses { ok ≡ false → result ≡ Err error }
{
    if ok { Ok(()) } else { Err(error) }
}

// Refuses where the test does not hold.
pub fn unless(ok: bool, reason: Reason, place: usize) -> Result<(), Refused>
    ensures { told result ≡ unless ok (number_of reason) place }
{
    ok_or(ok, Refused { reason, place })
}
