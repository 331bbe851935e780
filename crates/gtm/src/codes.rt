// Sizes: the size codes and their numbers.
use crate::failure::Failure;
use crate::{say, words};
use command::lines;
use printing::Text;

// Says the line of a size code; a number that is none has no line.
fn say_size(rt: &HostRuntime, code: u64) -> Result<(), Failure> {
    if !sizes::known(code) {
        return Ok(());
    }
    let mut line = Text::<133>::new();
    lines::put_size_line(&mut line, code);
    say::result(rt, line.as_bytes())
}

// Says the line of every size code. In a tag file it is a byte.
pub fn list(rt: &HostRuntime) -> Result<(), Failure> {
    words::exactly(rt, 2)?;
    for code in 0..=u8::MAX {
        say_size(rt, u64::from(code))?;
    }
    Ok(())
}
