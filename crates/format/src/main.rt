// Formats the message on standard input under the default policy, and writes the filed text to standard output
// (document 01, "Programs"). On a refusal it writes the refusal's line, and nothing else. `output_of` decides all bytes
// of the output; it equals `output_of` of specs/Output.antt. `format_input` reads the message from any reader, calls
// `output_of`, and writes the bytes to any writer: where the reader's bytes are known, what it writes is `output_of` of
// all of them.
#![tactic(auto)]

ghost use Rattle.std.specs.Prelude.{◌≡◌, ◌+◌, ◌*◌, ◌≤◌, length, take, OnOk, IfSome};
ghost use Rattle.std.specs.Io.KnownBytes.{Appends};
ghost use Rattle.message_io.specs.Lines.{refusal_line};
ghost use Rattle.formatter.specs.Filed.{filed_text};
ghost use Rattle.format.specs.Output.{FormatsMessage, message_limit, output_of};

use base::Refusal;
use formatter::filed::filed_text;
use formatting::format_text;
use message_io::line::LINE_ROOM;
use message_io::{Ending, Message};
use policy::POLICY_BYTES;
use std::io;
use std::io::{Read, Write};

// "The formatting program then reads up to 16,384 bytes with an output of 40,960, and refuses more by 1" (document 02, vii).
const MESSAGE_LIMIT: usize = 16_384;

// The buffer is one byte longer than the limit, so that the program notices a longer message.
const MESSAGE_ROOM: usize = MESSAGE_LIMIT + 1;

// Under the default policy a formatted text has at most five halves of the message's bytes (crate room, FiveHalves).
const OUTPUT_ROOM: usize = 40_960;

// The bytes to write: the message itself, or the first `len` bytes of the buffer.
#[derive(Drop)]
struct Output {
    in_buffer: bool,
    len: usize,
}

// Writes the line of a refusal at the front of a buffer that is long enough for every line.
fn put_refusal(out: &mut [u8], refusal: Refusal) -> usize
    requires { 210 ≤ length out.old }
    ensures { take result out.new ≡ refusal_line refusal }
{
    let mut line = [0u8; LINE_ROOM];
    let len = message_io::line::refusal_line(refusal, &mut line);
    base::write_bytes(out, 0, &line[..len]);
    len
}

// Formats a message under the default policy, into a buffer that is long enough for every formatted text under this
// policy. So refusal 8 is no answer.
fn format_message(message: &[u8], out: &mut [u8]) -> Result<Option<usize>, Refusal>
    requires { 5 * length message.now ≤ 2 * length out.old }
    ensures { FormatsMessage message.now out.old result out.new }
{
    let mut policy = [0u8; POLICY_BYTES];
    message_io::put_default_policy(&mut policy);
    format_text(message, &policy, out)
}

// Returns the output for a message: its filed text, or the line of a refusal.
fn output_of(message: &[u8], out: &mut [u8]) -> Output
    requires { 5 * message_limit ≤ 2 * length out.old }
    ensures { filed_text message.now out.new result.in_buffer result.len ≡ output_of message.now }
{
    if MESSAGE_LIMIT < message.len() {
        let len = put_refusal(out, Refusal::TextTooLong);
        return Output {
            in_buffer: true,
            len,
        };
    }
    match format_message(message, out) {
        Ok(None) => Output {
            in_buffer: false,
            len: 0,
        },
        Ok(Some(len)) => Output {
            in_buffer: true,
            len,
        },
        Err(refusal) => {
            let len = put_refusal(out, refusal);
            Output {
                in_buffer: true,
                len,
            }
        }
    }
}

// Writes the output for a message.
fn say_output<W: Write>(writer: &mut W, message: &[u8]) -> io::Result<()>
    ensures { OnOk result
        (Appends (W.contents writer.old) (W.contents writer.new) (output_of message.now)) }
{
    let mut out = [0u8; OUTPUT_ROOM];
    let Output { in_buffer, len } = output_of(message, &mut out);
    let text = filed_text(message, &out, in_buffer, len);
    writer.write_all(text)
}

// Reads a message into a buffer that is one byte longer than the limit, and writes the output. For a message that is
// too long, the full buffer is over the limit too.
fn format_input<R: Read, W: Write>(reader: &mut R, writer: &mut W, buf: &mut [u8]) -> io::Result<()>
    requires { length buf.old ≡ message_limit + 1 }
    ensures { OnOk result (IfSome (R.remaining reader.old)
        (λ message. Appends (W.contents writer.old) (W.contents writer.new) (output_of message))) }
{
    let Message { ending, len } = message_io::read_message(reader, buf);
    match ending {
        Ending::Whole => say_output(writer, &buf[..len]),
        Ending::TooLong => say_output(writer, buf),
        Ending::Failed => Err(io::Error::other("standard input")),
    }
}

fn main(rt: HostRuntime) -> io::Result<()> {
    let mut buf = [0u8; MESSAGE_ROOM];
    format_input(&mut rt.stdin(), &mut rt.stdout(), &mut buf)
}
