// What a line says of a buffer and of a session.
use session::Session;
use tagging::Keys;

// How far a buffer that was full of one byte was written: behind its last byte that is another.
pub fn written(out: &[u8]) -> usize {
    match out.iter().rposition(|b| *b != 0xa5) {
        Some(last) => last + 1,
        None => 0,
    }
}

// Whether all fields of the session are zero.
pub fn closed(s: Session) -> bool {
    let zero = [0u8; 16];
    let keys = Keys {
        item: zero,
        tag: zero,
        seal: zero,
    };
    s == Session {
        number: 0,
        code: 0,
        count: 0,
        taken: 0,
        keys,
        sums: [0u8; sums::TAGS_MOST],
    }
}
