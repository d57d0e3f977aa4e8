// Sheets as bytes: 4 for each start, two's complement, most significant first.
ghost use Rattle.std.specs.Prelude.{◌≡◌, ◌+◌, ◌<◌, length};
ghost use Rattle.examination.specs.Engine.Taken as taken;

use crate::Sheet;

impl Sheet {
    // The starts.
    pub fn starts(&self) -> &[i32]
        ensures { result.now ≡ taken.held self.now }
    {
        &self.row[..self.count]
    }
}

// The start that begins at a place of a sheet's bytes.
fn start_at(bytes: &[u8], at: usize) -> i32
    requires { at + 3 < length bytes.now }
    ensures { result ≡ taken.start_at bytes.now at }
{
    i32::from_be_bytes([bytes[at], bytes[at + 1], bytes[at + 2], bytes[at + 3]])
}

// A sheet taken apart.
pub fn sheet_of(bytes: &[u8]) -> Sheet
    ensures { taken.held result ≡ taken.sheet_of bytes.now }
{
    let mut row = [0i32; Sheet::PLACES];
    let count = bytes.len() / 4;
    if bytes.len() % 4 == 0 && count < Sheet::PLACES {
        // By index: the start's number is what its place in the bytes is made of, and the row's too.
        for i in 0..count {
            row[i] = start_at(bytes, i * 4);
        }
        return Sheet { count, row };
    }
    Sheet {
        count: Sheet::PLACES,
        row,
    }
}
