// The words that the program's input spells, byte by byte.
#![tactic(auto)]

ghost use Rattle.std.specs.Prelude.{◌≡◌, ◌+◌, ◌*◌, ◌≤◌, length, take, drop};
ghost use Rattle.program_words.specs.Words.{word_of, words_of};

// The little-endian word at an index.
fn word_at(input: &[u8], at: usize) -> u32
    requires { at + 4 ≤ length input.now }
    ensures { result ≡ word_of (drop at input.now) }
{
    u32::from_le_bytes(*input[at..].first_chunk().unwrap())
}

// The input's words.
pub fn unpack(input: &[u8], count: usize, words: &mut [u32])
    requires whole { 4 * count ≤ length input.now }
    requires room { count ≤ length words.old }
    ensures { take count words.new ≡ words_of count input.now }
{
    for i in 0..count {
        words[i] = word_at(input, 4 * i);
    }
}
