// Tokens: parts of the bytes that were lent.
ghost use Rattle.std.specs.Prelude.{◌≤◌, length};
ghost use Rattle.scanner.specs.Tokens.{Cut, Begun};

// A part of the bytes that were lent, and what is behind it.
#[derive(Clone, Copy)]
pub struct Token<'a> {
    pub bytes: &'a [u8],
    pub rest: &'a [u8],
}

// The first bytes of the text as a token, and what is behind them.
pub fn front(text: &[u8], size: usize) -> Token<'_>
    requires { size ≤ length text.now }
    ensures { Cut text.entry size size result }
{
    Token {
        bytes: &text[0..size],
        rest: &text[size..],
    }
}

// What is behind the byte, where the text begins with it.
pub fn after(text: &[u8], byte: u8) -> Option<&[u8]>
    ensures { Begun text.entry byte result }
{
    // By a pattern: `split_first` promises nothing about where in the lent bytes its rest lies.
    match text {
        [first, rest @ ..] if *first == byte => Some(rest),
        _ => None,
    }
}
