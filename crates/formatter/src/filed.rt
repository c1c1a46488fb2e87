// The filed text (document 01, "Replacement and text"). It is lent from the message or from the buffer, and not copied.
// `filed_text` equals `filed_text` of specs/Filed.antt.
ghost use Rattle.std.specs.Prelude.{◌≡◌};
ghost use Rattle.formatter.specs.Filed.{filed_text};

// Gives the message, or the front of the buffer if formatting changed the text.
pub fn filed_text<'a>(message: &'a [u8], buffer: &'a [u8], changed: bool, len: usize) -> &'a [u8]
    ensures { result.now ≡ filed_text message.now buffer.now changed len }
{
    if changed {
        if len <= buffer.len() {
            return &buffer[..len];
        }
        return buffer;
    }
    message
}
