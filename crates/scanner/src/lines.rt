// The lines of a text. Lines end with byte 10; the last may lack it.
ghost use Rattle.std.specs.Prelude.{◌≡◌, ◌<◌, ◌≤◌, ◌∷◌, length};
ghost use Rattle.std.specs.Iterator.{YieldsFirstBy, item_count};
ghost use Rattle.scanner.specs.Tokens.{Cut};
ghost use Rattle.scanner.specs.Lines.{width, next_line, lines_of};

use crate::tokens::Token;

const LINE_END: u8 = b'\n';

// How long the first line of the text is, without its end.
fn line_width(text: &[u8]) -> usize
    ensures value { result ≡ width text.now }
    ensures bound { result ≤ length text.now }
{
    text.iter().take_while(|byte| **byte != LINE_END).count()
}

// The first line of the text, without its end, and the rest from the next line on. Of no bytes both are none.
pub fn first_line(text: &[u8]) -> Token<'_>
    ensures token { Cut text.entry (width text.now) (next_line text.now) result }
    ensures lines { 0 < length text.now → lines_of text.now ≡ result.bytes.now ∷ lines_of result.rest.now }
    ensures shorter { 0 < length text.now → length result.rest.now < length text.now }
{
    let end = line_width(text);
    let next = (end + 1).min(text.len());
    Token {
        bytes: &text[0..end],
        rest: &text[next..],
    }
}

// The lines of a text, one after the other, as parts of the bytes that were lent.
#[derive(Drop)]
pub struct Lines<'a> {
    rest: &'a [u8],
}

impl<'a> Lines<'a> {
    pub fn of(text: &'a [u8]) -> Lines<'a>
        ensures { result.rest.now ≡ text.now }
    {
        Lines { rest: text }
    }
}

impl<'a> Iterator for Lines<'a> {
    type Item = &'a [u8];

    ghost next_gives = { YieldsFirstBy (λ line. line.now) (λ s. lines_of s.rest.now) };

    ghost remaining = { item_count (λ s. lines_of s.rest.now) };

    fn next(&mut self) -> Option<&'a [u8]> {
        if self.rest.is_empty() {
            return None;
        }
        let line = first_line(self.rest);
        self.rest = line.rest;
        Some(line.bytes)
    }
}
