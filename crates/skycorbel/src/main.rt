// The program: the words that standard input spells, and the reply to them as text. Everything between the bytes read
// and the bytes written is `reply`. Where standard input can't be read or standard output can't be written, the program says
// so and ends with status 1.
#![tactic(auto)]

ghost use Rattle.std.specs.Prelude.{◌≡◌, ◌*◌, ◌≤◌, length, take};
ghost use Rattle.std.specs.Io.{ReadsAtMost};
ghost use Rattle.program_digits.specs.Digits.{Puts};
ghost use Rattle.program_replies.specs.Reply.{words_reply};
ghost use Rattle.program_words.specs.Words.{words_of};
ghost use Rattle.skycorbel.specs.Input.{IsPrefixLen, reply as reply_of};
ghost use Rattle.skycorbel.specs.Right.{Right};

use base_slices::head;
use program_replies::reply_to_words;
use program_text::put_unfit;
use program_words::unpack;
use std::io;
use std::io::{Read, Write};

// The bytes that an input may have, and the words that they spell.
const INPUT_BYTES: usize = 24576;

const INPUT_WORDS: usize = INPUT_BYTES / 4;

// One byte more is asked for, so that too long an input is seen.
const ASKED_BYTES: usize = INPUT_BYTES + 1;

// The bytes of the text: room for every reply.
const TEXT_BYTES: usize = 40960;

// The reply to an input of so many whole words.
fn reply_to_bytes(input: &[u8], count: usize, text: &mut [u8]) -> usize
    requires whole { 4 * count ≤ length input.now }
    requires few { count ≤ INPUT_WORDS }
    ensures { Puts text.old text.new 0 result (words_reply (words_of count input.now)) }
{
    let mut words = [0u32; INPUT_WORDS];
    unpack(input, count, &mut words);
    reply_to_words(head(&words, count), text)
}

// What the program writes for what it reads. "else, or above 24,576 bytes, it prints `refused 20 at 0`." Where it begins with
// `yes` or `no`, that is so by the paper's own relation.
fn reply(input: &[u8], text: &mut [u8]) -> usize
    requires { TEXT_BYTES ≤ length text.old }
    ensures counted { IsPrefixLen result text.new }
    ensures replied { take result text.new ≡ reply_of input.now }
    ensures right { Right input.now (take result text.new) }
{
    let n = input.len();
    if INPUT_BYTES < n {
        return put_unfit(text);
    }
    if n % 4 != 0 {
        return put_unfit(text);
    }
    reply_to_bytes(input, n / 4, text)
}

// Reads until the buffer is full or the input ends, and returns how many bytes it put at the start of the buffer. No library
// call reads so into fixed memory: `read_exact` fails where the input ends, and `read_to_end` wants a heap.
fn read_full(mut input: io::Stdin, buffer: &mut [u8]) -> io::Result<usize>
    ensures { ReadsAtMost result buffer.new }
{
    let mut done = 0;
    while done < buffer.len() {
        let n = input.read(&mut buffer[done..])?;
        if n == 0 {
            break;
        }
        done += n;
    }
    Ok(done)
}

fn main(rt: HostRuntime) -> io::Result<()> {
    let mut input = [0u8; ASKED_BYTES];
    let n = read_full(rt.stdin(), &mut input)?;
    let mut text = [0u8; TEXT_BYTES];
    let k = reply(&input[..n], &mut text);
    rt.stdout().write_all(&text[..k])
}
