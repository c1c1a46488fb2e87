// Finds the longest well-formed beginning of a text (document 01, "Turned back", number 3): `valid_up_to` equals `valid_up_to_of` of the
// crate utf8, specs/Rfc3629. The Rust crate has no such function, since it gets a `str`.
#![tactic(auto)]

ghost use Rattle.std.specs.Prelude.{◌≡◌, ◌+◌, drop};
ghost use Rattle.utf8.specs.Rfc3629.{valid_up_to_of};

pub mod runs;

// Returns the length of the longest well-formed prefix. After a character it skips characters of the same width at once.
pub fn valid_up_to(s: &[u8]) -> usize
    ensures { result ≡ valid_up_to_of s.now }
{
    let mut at: usize = 0;
    loop {
        let width = utf8::char_len(s, at);
        if width == 0 {
            return at;
        }
        at = runs::width_end(s, at + width, width);
    }
}

// Returns where the well-formed bytes end that begin at an offset. From the end of the text on, it is the offset itself.
pub fn valid_end(s: &[u8], at: usize) -> usize
    ensures { result ≡ at + valid_up_to_of (drop at s.now) }
{
    if s.len() <= at {
        return at;
    }
    at + valid_up_to(&s[at..])
}
