// Reports the findings of the message on standard input under the default policy: a line for each, then the totals
// (document 01, "Programs"). On a refusal it writes the refusal's line, and nothing else. `write_report` decides all
// bytes of the output. `report_input` reads the message from any reader, calls `write_report`, and writes the bytes to
// any writer.
#![tactic(auto)]

mod lines;

ghost use Rattle.std.specs.Prelude.{◌≡◌, ◌+◌, length, OnOk, IfSome};
ghost use Rattle.std.specs.Io.KnownBytes.{Appends};
ghost use Rattle.report.specs.Report.{message_limit, reported};

use lines::{MESSAGE_LIMIT, REPORT_ROOM, write_report};
use message_io::{Ending, Message};
use std::io;
use std::io::{Read, Write};

// The buffer is one byte longer than the limit, so that the program notices a longer message.
const MESSAGE_ROOM: usize = MESSAGE_LIMIT + 1;

// Writes the report of a message.
fn say_report<W: Write>(writer: &mut W, message: &[u8]) -> io::Result<()>
    ensures { OnOk result
        (Appends (W.contents writer.old) (W.contents writer.new) (reported message.now)) }
{
    let mut out = [0u8; REPORT_ROOM];
    let len = write_report(message, &mut out);
    writer.write_all(&out[..len])
}

// Reads a message into a buffer that is one byte longer than the limit, and writes its report. For a message that is
// too long, the full buffer is over the limit too.
fn report_input<R: Read, W: Write>(reader: &mut R, writer: &mut W, buf: &mut [u8]) -> io::Result<()>
    requires { length buf.old ≡ message_limit + 1 }
    ensures { OnOk result (IfSome (R.remaining reader.old)
        (λ message. Appends (W.contents writer.old) (W.contents writer.new) (reported message))) }
{
    let Message { ending, len } = message_io::read_message(reader, buf);
    match ending {
        Ending::Whole => say_report(writer, &buf[..len]),
        Ending::TooLong => say_report(writer, buf),
        Ending::Failed => Err(io::Error::other("standard input")),
    }
}

fn main(rt: HostRuntime) -> io::Result<()> {
    let mut buf = [0u8; MESSAGE_ROOM];
    report_input(&mut rt.stdin(), &mut rt.stdout(), &mut buf)
}
