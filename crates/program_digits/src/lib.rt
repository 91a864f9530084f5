// Bytes, numbers and words as text, put into a lent buffer piece by piece. Each function is given the index behind the
// text so far and answers the index behind its own piece; a piece that does not fit is cut short.
// No `write!` with `Display`: the lent buffer would need a writer of its own, whose errors say less than `Puts` of what is cut.
#![tactic(auto)]

ghost use Rattle.std.specs.Prelude.{◌≡◌, [], ◌∷◌, ℕ, suc, ◌<◌, ◌^◌};
ghost use Rattle.program_digits.specs.Digits.{digit, hexadecimal, line, lines, decimal_by, Puts};

// One byte.
pub fn put_byte(text: &mut [u8], at: usize, byte: u8) -> usize
    ensures { Puts text.old text.new at result (byte ∷ []) }
{
    if at < text.len() {
        text[at] = byte;
        return at + 1;
    }
    at
}

// All bytes of a piece.
pub fn put_bytes(text: &mut [u8], at: usize, piece: &[u8]) -> usize
    ensures { Puts text.old text.new at result piece.now }
{
    let mut next = at;
    for byte in piece {
        next = put_byte(text, next, *byte);
    }
    next
}

// A number in base ten, without zeros in front.
pub fn put_decimal(text: &mut [u8], at: usize, n: u64) -> usize
    ensures { (k : ℕ) → n < 10 ^ suc k → Puts text.old text.new at result (decimal_by (suc k) n) }
{
    if n < 10 {
        return put_byte(text, at, 48 + n as u8);
    }
    let next = put_decimal(text, at, n / 10);
    put_byte(text, next, 48 + (n % 10) as u8)
}

// An upper-case hexadecimal digit.
#[tactic(auto, unfolding(crate::specs::Digits::digit))]
fn glyph(d: u32) -> u8
    requires { d < 16 }
    ensures { result ≡ digit d }
{
    if d < 10 {
        return 48 + d as u8;
    }
    55 + d as u8
}

// The last digits of a word in base sixteen, as many as asked.
fn put_digits(text: &mut [u8], at: usize, w: u32, digits: usize) -> usize
    ensures { Puts text.old text.new at result (hexadecimal digits w) }
{
    if digits == 0 {
        return at;
    }
    let next = put_digits(text, at, w / 16, digits - 1);
    put_byte(text, next, glyph(w % 16))
}

// "A word is printed as eight upper-case hexadecimal digits"; "each line ends in a newline".
fn put_word(text: &mut [u8], at: usize, w: u32) -> usize
    ensures { Puts text.old text.new at result (line w) }
{
    let next = put_digits(text, at, w, 8);
    put_byte(text, next, 10)
}

// Words, one a line.
pub fn put_words(text: &mut [u8], at: usize, words: &[u32]) -> usize
    ensures { Puts text.old text.new at result (lines words.now) }
{
    let mut next = at;
    for w in words {
        next = put_word(text, next, *w);
    }
    next
}
