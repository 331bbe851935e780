// Sessions that are under way.
use crate::given::{Argument, Given};
use files::message;
use session::{Session, Step};

// The session with the first k cards of a shelf put.
pub fn put_cards(begun: Session, shelf: &[u8], k: u64) -> Session {
    let mut s = begun;
    for i in 0..k {
        let next = s.put(message::fetch(shelf, i + 1));
        s = next.session;
    }
    s
}

// What a close gives, whether it refuses or not.
fn closed(s: Session) -> Session {
    let mut out = [0u8; files::tagfile::MOST];
    let step = s.close(&mut out);
    step.session
}

// The session with so many cards taken by its own word, where that is not 0.
fn with_taken(s: Session, taken: u64) -> Session {
    let mut r = s;
    if taken != 0 {
        r.taken = taken;
    }
    r
}

// What `begin` gives.
pub fn begin(given: &Given) -> Step {
    session::begin(
        given.part(Argument::Keys),
        given.size,
        given.count,
        given.number32(),
    )
}

// The session that put and close are called of.
pub fn under_way(given: &Given) -> Session {
    let step = begin(given);
    let put = put_cards(step.session, given.part(Argument::Shelf), given.puts);
    let s = with_taken(put, given.taken);
    if given.closed == 0 { s } else { closed(s) }
}
