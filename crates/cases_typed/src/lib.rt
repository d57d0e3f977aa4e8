// Network files as the papers write them, for the programs that run cases: a name, a colon, and bytes in pairs of hexadecimal digits.
#![tactic(auto)]

pub mod input;
pub mod large;
pub mod lines;
pub mod papers;
pub mod show;

ghost use Rattle.std.specs.Prelude.{◌≡◌, ◌==◌, ◌<◌, ◌≤◌, ◌+◌, length, take, drop, position, IfSome};
ghost use Rattle.cases_typed.specs.Counts.{IsPrefixLen, place_of};

// The place of the first such byte of a text.
fn place_in(text: &[u8], glyph: u8) -> Option<usize>
    ensures first { result ≡ position (λ byte. byte == glyph) text.now }
    ensures within { IfSome result (λ place. place < length text.now) }
{
    text.iter().position(|byte| *byte == glyph)
}

// What stands before the first such byte of a text, and what stands behind it; where there is none, the whole text and nothing.
pub fn cut(text: &[u8], glyph: u8) -> (&[u8], &[u8])
    ensures before { result.0.now ≡ take (place_of glyph text.now) text.now }
    ensures behind { result.1.now ≡ drop (place_of glyph text.now + 1) text.now }
{
    match place_in(text, glyph) {
        Some(place) => (&text[..place], &text[place + 1..]),
        None => (text, &[]),
    }
}

// Puts the bytes that `text` writes in pairs of digits into `file` from `at` on, and answers the place behind the last. What
// `file` has no room for is left away.
pub fn put_hex(text: &[u8], file: &mut [u8], at: usize) -> usize
    requires { at ≤ length file.old }
    ensures { IsPrefixLen result file.new }
{
    let mut end = at;
    let mut rest = text;
    // A gap is skipped only where a pair would begin: behind one digit it is the pair's second.
    while let [high, low, behind @ ..] = rest {
        if is_gap(*high) {
            rest = &rest[1..];
        } else {
            if end == file.len() {
                return end;
            }
            file[end] = digit(*high) * 16 + digit(*low);
            end += 1;
            rest = behind;
        }
    }
    end
}

// The colon, and the spaces between commands.
fn is_gap(glyph: u8) -> bool {
    matches!(glyph, b':' | b' ')
}

// The value of a hexadecimal digit, 0 to 9 or A to F; by hand, since any other glyph counts as 0, where `to_digit` has none.
fn digit(glyph: u8) -> u8
    ensures { result < 16 }
{
    match glyph {
        b'0'..=b'9' => glyph - b'0',
        b'A'..=b'F' => glyph - b'A' + 10,
        _ => 0,
    }
}
