// The networks of the paper's cases, as it writes files: text for `put_hex`. They stand here alone, so that every program runs the same
// bytes.

// The nine bytes: one line of 15 with one call.
pub const ONE_LINE: [u8; 20] = *b"4C000F 4300000008 45";

// P1, and P2 to P6 too.
pub const P1: [u8; 38] = *b"4C000F 4C0014 4300000008 4301000011 45";

pub const P7: [u8; 56] = *b"4C000A 4C000A 4C000A 4300000000 4301000000 4302000000 45";

pub const P8: [u8; 56] = *b"4C003C 4C003C 4C000C 4300000000 4301000000 4302010000 45";

pub const P9: [u8; 82] =
    *b"4C0014 4C001E 4300000000 4301000000 4300010007 4301010011 4300020005 4301020008 45";
