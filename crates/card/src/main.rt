// The card program. It reads the text of a swatch and writes its card, or the line of the ground on which the swatch is turned down.
// If reading or writing fails, it says so on standard error; a text that could not be read to its end gets no answer.
#![tactic(auto)]

ghost use Rattle.std.specs.Prelude.{◌≡◌, IfOk, OnOk, IfErr, OnErr, length, take};
ghost use Rattle.std.specs.Io.{ReadsAtMost};
ghost use Rattle.std.specs.Io.KnownBytes.{ReadConsumes};
ghost use Rattle.card.specs.Program.{most_read, program_answer, HasRoom, ReadsEnough, ReadsPart, PrintsAll, PrintsPart, WritesAnswer, StopsShort};

use arrayvec::ArrayString;
use kistrovu::{Printed, kistrovu_print_card, kistrovu_print_ground};
use std::fmt::Write as _;
use std::io::{self, ErrorKind, Read, Write};
use swatch::LONGEST_SWATCH;

// One byte more than the longest swatch. A longer text gets the same number as these bytes alone.
const MOST_TEXT: usize = LONGEST_SWATCH + 1;

// How many times an interrupted read is tried again. Signals may never stop coming, but the program must end.
const MOST_RETRIES: u32 = 1000;

// One read into the first places of `room`, tried again if a signal interrupts it.
fn read_some<R: Read>(input: &mut R, room: &mut [u8]) -> io::Result<usize>
    ensures bound { ReadsAtMost result room.new }
    ensures bytes { ReadConsumes (R.remaining input.old) (R.remaining input.new) result room.new }
{
    for _ in 0..MOST_RETRIES {
        match input.read(room) {
            Ok(n) => return Ok(n),
            Err(e) => {
                if e.kind() != ErrorKind::Interrupted {
                    return Err(e);
                }
            }
        }
    }
    input.read(room)
}

// Reads until the text ends or `text` is full. The loop goes on by what a read took, so it is no `for`.
fn read_text<R: Read>(input: &mut R, text: &mut [u8]) -> io::Result<usize>
    requires { length text.old ≡ most_read }
    ensures prefix { ReadsAtMost result text.new }
    ensures bytes { IfOk result (λ n. ReadsEnough (R.remaining input.old) (R.remaining input.new) (take n text.new)) }
    ensures err { OnErr result (ReadsPart (R.remaining input.old) (R.remaining input.new) text.new) }
{
    let mut len = 0;
    while len < text.len() {
        let got = read_some(input, &mut text[len..])?;
        if got == 0 {
            return Ok(len);
        }
        len += got;
    }
    Ok(len)
}

// What is printed for a text. Its stack is free again before that is written.
#[inline(never)]
#[tactic(auto, using(crate::proofs::Replies::served_reply, crate::proofs::Replies::ground_reply))]
fn answer(text: &[u8]) -> Printed
    ensures { result ≡ program_answer text.now }
{
    let printed = kistrovu_print_card(text);
    if printed.number != 0 {
        return kistrovu_print_ground(printed.number);
    }
    printed
}

// Writes what is printed, by as many writes as it takes; the loop goes on by what a write took. A write that takes nothing has failed.
#[inline(never)]
fn write<W: Write>(output: &mut W, printed: Printed) -> io::Result<()>
    requires { HasRoom printed }
    ensures all { OnOk result (PrintsAll (W.contents output.old) (W.contents output.new) printed) }
    ensures part { OnErr result (PrintsPart (W.contents output.old) (W.contents output.new) printed) }
{
    let len = printed.len as usize;
    let mut done = 0;
    while done < len {
        let put = output.write(&printed.bytes[done..len])?;
        if put == 0 {
            return Err(ErrorKind::WriteZero.into());
        }
        done += put;
    }
    Ok(())
}

// Why there is no answer, or not all of it. Both are errors of the same type, so which of them it is cannot be told by a `From`.
enum Failure {
    Input(io::Error),
    Output(io::Error),
}

// Reads the text and writes what is printed for it. If reading fails, nothing is written.
fn run<R: Read, W: Write>(input: &mut R, output: &mut W) -> Result<(), Failure>
    ensures ok { OnOk result (WritesAnswer (R.remaining input.old) (W.contents output.old) (W.contents output.new)) }
    ensures err { IfErr result (λ f. StopsShort f (R.remaining input.old) (W.contents output.old) (W.contents output.new)) }
{
    let mut text = [0u8; MOST_TEXT];
    let len = match read_text(input, &mut text) {
        Ok(len) => len,
        Err(e) => return Err(Failure::Input(e)),
    };
    match write(output, answer(&text[..len])) {
        Ok(()) => Ok(()),
        Err(e) => Err(Failure::Output(e)),
    }
}

// The system's words for an error, without the number that std writes after them.
fn words(text: &str) -> &str {
    match text.rsplit_once(" (os error ") {
        Some((words, _)) => words,
        None => text,
    }
}

// A line on standard error: what failed, and why.
fn say(rt: &impl Eprint, what: &str, error: io::Error) {
    let mut text = ArrayString::<128>::new();
    let _ = write!(text, "{error}");
    let why = words(text.as_str());
    let _ = eprintln!(rt; "{what}: {why}");
}

fn main(rt: HostRuntime) {
    match run(&mut rt.stdin(), &mut rt.stdout()) {
        Ok(()) => {}
        Err(Failure::Input(e)) => say(&rt, "card: standard input", e),
        Err(Failure::Output(e)) => say(&rt, "card: standard output", e),
    }
}
