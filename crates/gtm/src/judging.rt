// Verify and report.
use crate::failure::Failure;
use crate::{heads, input, say, words};
use printing::Text;

fn say_verify(rt: &HostRuntime, keys: &[u8], message: &[u8], tags: &[u8]) -> Result<(), Failure> {
    let yes = scheme::verify(keys, message, tags)?;
    say::result(rt, if yes { b"yes\n" } else { b"no\n" })
}

// Reports, for the size code and the count that the tag file says. The marks behind the last card stay 0, so they name none.
fn say_report(rt: &HostRuntime, keys: &[u8], message: &[u8], tags: &[u8]) -> Result<(), Failure> {
    let mut marks = [0u8; decoding::MARKS_MOST];
    let found = scheme::report(keys, message, tags, &mut marks)?;
    let head = heads::head_in(tags);
    let mut text = Text::<7232>::new();
    text.put_report(head.code, head.count, found, &marks);
    say::result(rt, text.as_bytes())
}

// Reads the keys, the message and the tag file, and has them answered.
fn judge<F: Fn(&HostRuntime, &[u8], &[u8], &[u8]) -> Result<(), Failure>>(
    rt: &HostRuntime,
    answer: F,
) -> Result<(), Failure>
    requires { F.IsAlwaysCallable answer }
{
    words::exactly(rt, 5)?;
    let mut keys_room = [0u8; input::KEYS];
    let keys = input::read(rt, 2, &mut keys_room)?;
    let mut message_room = [0u8; input::MESSAGE];
    let message = input::read(rt, 3, &mut message_room)?;
    let mut tags_room = [0u8; input::TAG_FILE];
    let tags = input::read(rt, 4, &mut tags_room)?;
    answer(rt, keys, message, tags)
}

pub fn verify(rt: &HostRuntime) -> Result<(), Failure> {
    judge(rt, say_verify)
}

pub fn report(rt: &HostRuntime) -> Result<(), Failure> {
    judge(rt, say_report)
}
