// Numerals as tokens: the number, and its digits as a part of the lent bytes.
ghost use Rattle.scanner.specs.Numbers.{Numbered};

use crate::numerals::read_digits;
use crate::tokens::{Token, front};

// A number as it was read: what is told of it, and its digits with what is behind them.
#[derive(Clone, Copy)]
pub struct NumberToken<'a> {
    pub value: u32,
    pub digits: Token<'a>,
}

// The numeral at the front of s; or none.
pub fn numeral(s: &[u8]) -> Option<NumberToken<'_>>
    ensures { Numbered s.entry result }
{
    let (count, value) = read_digits(s);
    let digits = front(s, count);
    match digits.bytes {
        [] => None,
        // A zero in front of other digits is needless.
        [b'0', _, ..] => None,
        _ => Some(NumberToken { value, digits }),
    }
}
