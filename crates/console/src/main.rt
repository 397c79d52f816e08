// The program: reads standard input, serves it piece by piece, and writes each piece. What a piece is, crates/text_program says.
// A read that fails serves nothing, a write that fails is the last one, and each says so in a line on standard error.
#![tactic(auto)]

ghost use Rattle.std.specs.Prelude.{◌≡◌, OnOk, length};
ghost use Rattle.std.specs.Io.KnownBytes.{Appends};
ghost use Rattle.text_program.specs.Program.{zeros, lines, printed, program};
ghost use Rattle.text_program.specs.Piece.{words_after};
ghost use Rattle.console.specs.Console.{got_of, Within, Begun, words_left};

use rules::layout;
use std::io;
use std::io::{Read, Stdin, Stdout, Write};
use text_program::INPUT_MOST;

// How many bytes are gathered at most before they are written.
const GATHERED: usize = 131072;

// What `read` answered, for a buffer it was given: how many bytes more, none at the end of the input, or a fault.
fn told(answer: io::Result<usize>, space: &[u8]) -> io::Result<usize>
    ensures { result ≡ got_of answer (length space.now) }
{
    answer.map(|more| more.min(space.len()))
}

// One read into the room that is left.
fn read_more(mut from: Stdin, space: &mut [u8]) -> io::Result<usize>
    ensures { Within result (length space.old) }
{
    let answer = from.read(space);
    told(answer, space)
}

// Reads until the input ends or the buffer is full, and answers how many bytes there are. It goes on by what a read gives, as the loops below by what a
// write takes and a piece holds.
fn read_input(from: Stdin, input: &mut [u8]) -> io::Result<usize>
    ensures { Within result (length input.old) }
{
    let mut count = 0;
    while count < input.len() {
        let more = read_more(from, &mut input[count..])?;
        if more == 0 {
            break;
        }
        count += more;
    }
    Ok(count)
}

// Writes all that was put into a buffer. A write that fails is the last: std's own `write_all` would write again after one that a signal
// stopped.
fn write_out<W: Write>(to: &mut W, bytes: &[u8]) -> io::Result<()>
    ensures { OnOk result (Appends (W.contents to.old) (W.contents to.new) bytes.now) }
{
    let mut done = 0;
    while done < bytes.len() {
        let count = to.write(&bytes[done..])?;
        if count == 0 {
            return Err(io::ErrorKind::WriteZero.into());
        }
        done += count;
    }
    Ok(())
}

// Serves the lines piece by piece and writes each piece, whole, before the next is served. It ends as soon as a write fails.
fn serve_lines<W: Write>(to: &mut W, w: &mut [u16], input: &[u8], out: &mut [u8]) -> io::Result<()>
    requires { Begun w.old out.old }
    ensures words { OnOk result (w.new ≡ words_after zeros (lines input.now)) }
    ensures written { OnOk result (Appends (W.contents to.old) (W.contents to.new) (printed zeros (lines input.now))) }
{
    let mut known = false;
    let mut start = 0;
    while start < input.len() {
        let piece = text_program::serve_piece(w, known, input, start, out);
        let count = piece.count;
        write_out(to, &out[..count])?;
        known = piece.known;
        start = piece.next;
    }
    Ok(())
}

// An input that is too long is told so, and none of its lines is served.
fn serve_input<W: Write>(to: &mut W, w: &mut [u16], input: &[u8], out: &mut [u8]) -> io::Result<()>
    requires { Begun w.old out.old }
    ensures words { OnOk result (w.new ≡ words_left input.now) }
    ensures written { OnOk result (Appends (W.contents to.old) (W.contents to.new) (program input.now)) }
{
    if text_program::is_too_long(input.len()) {
        let count = text_print::put_too_long(out, 0);
        return write_out(to, &out[..count]);
    }
    serve_lines(to, w, input, out)
}

// What is served is written to standard output and to nothing else: the type says so, and no other handle is passed on.
fn serve_output(mut to: Stdout, w: &mut [u16], input: &[u8], out: &mut [u8]) -> io::Result<()>
    requires { Begun w.old out.old }
    ensures { OnOk result (w.new ≡ words_left input.now) }
{
    serve_input(&mut to, w, input, out)
}

// One byte more than the longest input is asked for, so that a longer one is seen. The workspace starts all zero.
fn main(rt: HostRuntime) {
    let mut input = [0u8; INPUT_MOST + 1];
    let Ok(count) = read_input(rt.stdin(), &mut input) else {
        let _ = eprintln!(rt; "console: standard input could not be read");
        return;
    };
    let mut w = [0u16; layout::SIZE];
    let mut out = [0u8; GATHERED];
    if serve_output(rt.stdout(), &mut w, &input[..count], &mut out).is_err() {
        let _ = eprintln!(rt; "console: standard output could not be written");
    }
}
