// An input read to its end, or until a lent buffer is full, where a failure is told apart from an end.
// What is known of a reader is the contract of std's `Read::read`: an error, or how many bytes it put at the front of what it was lent.
#![tactic(auto)]

ghost use Rattle.input.specs.ReadInto.{ReadInto};

use std::io;
use std::io::Read;

// Reads until the buffer is full, the input ends or a read fails; how many bytes stand at the front of the buffer.
// Each read but the last puts a byte into the buffer, so the loop ends. How far each gets is the reader's, so there is nothing to count.
pub fn read_all<R: Read>(reader: &mut R, buffer: &mut [u8]) -> io::Result<usize>
    ensures { ReadInto result buffer.new }
{
    let mut at = 0;
    while at < buffer.len() {
        let more = reader.read(&mut buffer[at..])?;
        if more == 0 {
            return Ok(at);
        }
        at += more;
    }
    Ok(at)
}
