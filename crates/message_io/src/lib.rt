// Functions of the programs: reading a message from a reader, the bytes of the default policy, and the lines that
// the programs write (document 01, "Programs"). A program sets the limit of a message by the length of the buffer that
// it lends.
#![tactic(auto)]

pub mod line;

ghost use Rattle.std.specs.Prelude.{◌≡◌, ◌+◌, ◌<◌, ◌≤◌, length};
ghost use Rattle.policy.specs.DefaultPolicy.{default_policy};
ghost use Rattle.policy.specs.PolicyBytes.{policy_bytes};
ghost use Rattle.message_io.specs.Message.{GivesMessage, GivesPiece, ReadsMessage, Reads};

use policy::{POLICY_BYTES, Policy};
use std::io::Read;

// The most bytes of one read.
const PIECE_ROOM: usize = 4096;

// The way in which reading ended: at the end of the message, with a full buffer, or with an error.
#[derive(Drop)]
pub enum Ending {
    Whole,
    TooLong,
    Failed,
}

// The result of reading a message. `len` is the length of a whole message, or 0.
#[derive(Drop)]
pub struct Message {
    pub ending: Ending,
    pub len: usize,
}

// The result of one read: an error, the end, or a number of bytes.
#[derive(Drop)]
enum ReadResult {
    Failed,
    Ended,
    More { count: usize },
}

// Returns the smaller of two numbers.
fn least(a: usize, b: usize) -> usize
    ensures { (result ≤ a) × (result ≤ b) × (0 < a → 0 < b → 0 < result) }
{
    if a < b { a } else { b }
}

// Reads once into `piece`, and copies the bytes that were read to an offset of the buffer. It does not read into the
// buffer itself, since the contract of `Read::read` does not say that the bytes after those read stay unchanged.
fn read_piece<R: Read>(reader: &mut R, buf: &mut [u8], from: usize, piece: &mut [u8]) -> ReadResult
    requires { from + length piece.old ≤ length buf.old }
    ensures stored { Reads buf.old from result buf.new }
    ensures given { 0 < length piece.old →
        GivesPiece (R.remaining reader.old) (R.remaining reader.new) from result buf.new }
{
    match reader.read(piece) {
        Err(_) => ReadResult::Failed,
        Ok(0) => ReadResult::Ended,
        Ok(count) => {
            base::write_bytes(buf, from, &piece[..count]);
            ReadResult::More { count }
        }
    }
}

// Reads once, at most as many bytes as fit into the buffer from an offset on, and stores them there.
fn read_some<R: Read>(reader: &mut R, buf: &mut [u8], from: usize) -> ReadResult
    requires { from < length buf.old }
    ensures stored { Reads buf.old from result buf.new }
    ensures given { GivesPiece (R.remaining reader.old) (R.remaining reader.new) from result buf.new }
{
    let mut piece = [0u8; PIECE_ROOM];
    let room = least(buf.len() - from, PIECE_ROOM);
    read_piece(reader, buf, from, &mut piece[..room])
}

// Reads a message to its end into a buffer. The longest message has one byte less than the buffer. A read of fewer
// bytes than fit is not the end of the message, and neither is an error.
pub fn read_message<R: Read>(reader: &mut R, buf: &mut [u8]) -> Message
    ensures stored { ReadsMessage buf.old result buf.new }
    ensures given { GivesMessage (R.remaining reader.old) (R.remaining reader.new) result buf.new }
{
    let mut len = 0;
    while len < buf.len() {
        match read_some(reader, buf, len) {
            ReadResult::Failed => {
                return Message {
                    ending: Ending::Failed,
                    len: 0,
                };
            }
            ReadResult::Ended => {
                return Message {
                    ending: Ending::Whole,
                    len,
                };
            }
            ReadResult::More { count } => {
                len += count;
            }
        }
    }
    Message {
        ending: Ending::TooLong,
        len: 0,
    }
}

// Writes the bytes of the default policy. The first `ensures` lets a caller lend the array as a slice of 200 bytes.
pub fn put_default_policy(out: &mut [u8; POLICY_BYTES])
    ensures out_len { length out.new ≡ 200 }
    ensures out_after { out.new ≡ policy_bytes default_policy }
{
    let _ = policy::write_policy(Policy::default(), out);
}

#[cfg(test)]
mod tests {
    use super::{Ending, Message, read_message};
    use std::io;
    use std::io::Read;
    use std::test::Fail;

    // Gives one byte a read. After the last it ends, or fails.
    #[derive(Drop)]
    struct Slow<'a> {
        rest: &'a [u8],
        fails: bool,
    }

    impl Read for Slow<'_> {
        fn read(&mut self, buf: &mut [u8]) -> io::Result<usize> {
            if buf.is_empty() {
                return Ok(0);
            }
            match self.rest.split_first() {
                Some((first, rest)) => {
                    buf[0] = *first;
                    self.rest = rest;
                    Ok(1)
                }
                None if self.fails => Err(io::Error::other("broken")),
                None => Ok(0),
            }
        }
    }

    fn read_slowly(text: &[u8], fails: bool, buf: &mut [u8]) -> Message {
        let mut reader = Slow { rest: text, fails };
        read_message(&mut reader, buf)
    }

    #[test]
    fn short_reads_are_put_together(rt: HostRuntime) -> Result<(), Fail> {
        let mut buf = [0u8; 4];
        let message = read_slowly(b"abc", false, &mut buf);
        assert!(rt; matches!(&message.ending, Ending::Whole));
        assert_eq!(rt; message.len, 3);
        assert!(rt; buf == *b"abc\0");
        Ok(())
    }

    #[test]
    fn a_full_buffer_is_too_long(rt: HostRuntime) -> Result<(), Fail> {
        let mut buf = [0u8; 3];
        let message = read_slowly(b"abcd", false, &mut buf);
        assert!(rt; matches!(&message.ending, Ending::TooLong));
        Ok(())
    }

    #[test]
    fn an_error_is_no_end(rt: HostRuntime) -> Result<(), Fail> {
        let mut buf = [0u8; 4];
        let message = read_slowly(b"ab", true, &mut buf);
        assert!(rt; matches!(&message.ending, Ending::Failed));
        Ok(())
    }
}
