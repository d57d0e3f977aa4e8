// Refusals leave the row as it was: the file's ground first, then ground 16. The cut file is P1's up to the middle of its last offset.
use crate::cases::case;
use cases_typed::papers::P1;
use std::io;

pub fn all(rt: &impl Print) -> io::Result<()> {
    let mut none: [i32; 0] = [];
    let mut short = [7];
    let mut fits = [7, 7];
    let mut long = [7, 7, 7];
    case(rt, b"no row", &P1, &mut none, 21)?;
    case(rt, b"a short row", &P1, &mut short, 21)?;
    case(rt, b"a long row", &P1, &mut long, 21)?;
    case(rt, b"a period of 1,441", b"4C05A1 45", &mut fits, 21)?;
    case(rt, b"a cut file and a long row", &P1[..33], &mut long, 21)?;
    case(rt, b"an empty file and no row", b"", &mut none, 0)
}
