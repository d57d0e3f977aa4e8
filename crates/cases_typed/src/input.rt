// Standard input, or whatever else is read, into a buffer.
ghost use Rattle.std.specs.Prelude.{IfOk};
ghost use Rattle.cases_typed.specs.Counts.{IsPrefixLen};

use std::io;
use std::io::Read;

// How many bytes a text of cases may have. Of a longer one those behind are left unread.
pub const ROOM: usize = 65536;

// Reads until the buffer is full or the input ends, and answers how many bytes came. What the buffer has no room for is left unread. A read
// that fails is answered, since what it left out could be cases. A loop by hand: `read_exact` wants the buffer filled, `read_to_end` a heap.
pub fn read_full<R: Read>(input: &mut R, buffer: &mut [u8]) -> io::Result<usize>
    ensures { IfOk result (λ end. IsPrefixLen end buffer.new) }
{
    let mut end = 0;
    while end < buffer.len() {
        let more = input.read(&mut buffer[end..])?;
        if more == 0 {
            break;
        }
        end += more;
    }
    Ok(end)
}
