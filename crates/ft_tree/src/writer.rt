ghost use Rattle.std.specs.Prelude.{◌≡◌, OnOk, codes, decimal, true};
ghost use Rattle.ft_tree.specs.meaning.Line.{hugs_after, hugs_before, is_history, is_open, minus, token};
ghost use Rattle.ft_tree.specs.writing.Writer.{closed, empty_writer, gap_of, indented, last_of, put};

use ft_base::{NoMemory, Text};
use std::alloc::Global;

/// What the last token of a line is, as far as the space after it goes.
#[derive(Clone, Copy, Drop)]
pub enum Last {
    /// There is none.
    Start,
    /// `(`, `..` or a `-` before an operand.
    Open,
    /// `prev` or `age`.
    History,
    /// Any other.
    Other,
}

/// A text that grows by tokens, with what its last token is.
#[derive(Drop)]
pub struct Writer {
    pub alloc: Global,
    pub text: Text,
    pub last: Last,
}

#[tactic(auto, unfolding(crate::specs::meaning::Line::hugs_before))]
fn hugs_token_before(bytes: &[u8]) -> bool
    ensures { result ≡ hugs_before (token bytes.now) }
{
    bytes == b";".as_slice()
        || bytes == b",".as_slice()
        || bytes == b")".as_slice()
        || bytes == b"..".as_slice()
}

#[tactic(auto, unfolding(crate::specs::meaning::Line::hugs_after))]
fn hugs_token_after(bytes: &[u8]) -> bool
    ensures { result ≡ hugs_after (token bytes.now) }
{
    bytes == b"(".as_slice() || bytes == b"..".as_slice()
}

#[tactic(auto, unfolding(crate::specs::meaning::Line::is_open))]
fn opens(bytes: &[u8]) -> bool
    ensures { result ≡ is_open (token bytes.now) }
{
    bytes == b"(".as_slice()
}

#[tactic(auto, unfolding(crate::specs::meaning::Line::is_history))]
fn is_history_word(bytes: &[u8]) -> bool
    ensures { result ≡ is_history (token bytes.now) }
{
    bytes == b"prev".as_slice() || bytes == b"age".as_slice()
}

impl Last {
    // The last token, once this one is written.
    fn of(bytes: &[u8]) -> Last
        ensures { result ≡ last_of (token bytes.now) }
    {
        if hugs_token_after(bytes) {
            Last::Open
        } else if is_history_word(bytes) {
            Last::History
        } else {
            Last::Other
        }
    }

    // What stands before the next token.
    fn gap(self, bytes: &[u8]) -> &'static [u8]
        ensures { result.now ≡ gap_of self (token bytes.now) }
    {
        let joined = match self {
            Last::Start | Last::Open => true,
            Last::History => hugs_token_before(bytes) || opens(bytes),
            Last::Other => hugs_token_before(bytes),
        };
        if joined { b"" } else { b" " }
    }

    // What stands before a `-` that is no operator.
    #[tactic(auto, unfolding(crate::specs::meaning::Line::hugs_before, crate::specs::meaning::Line::is_open))]
    fn gap_before_minus(self) -> &'static [u8]
        ensures { result.now ≡ gap_of self minus }
    {
        match self {
            Last::Start | Last::Open => b"",
            Last::History | Last::Other => b" ",
        }
    }
}

impl Writer {
    /// Nothing written yet.
    pub fn new(alloc: Global) -> Writer
        ensures { result ≡ empty_writer alloc }
    {
        Writer {
            alloc,
            text: Text::new(alloc),
            last: Last::Start,
        }
    }

    /// Writes a token, after the space that it takes.
    #[tactic(auto, unfolding(crate::specs::writing::Writer::put))]
    pub fn put(&mut self, bytes: &[u8]) -> Result<(), NoMemory>
        ensures { OnOk result (self.new ≡ put self.old (token bytes.now)) }
    {
        self.text.extend(self.last.gap(bytes))?;
        self.text.extend(bytes)?;
        self.last = Last::of(bytes);
        Ok(())
    }

    /// Writes the `-` before an operand.
    #[tactic(auto, unfolding(crate::specs::writing::Writer::put, crate::specs::meaning::Line::hugs_after))]
    pub fn put_minus(&mut self) -> Result<(), NoMemory>
        ensures { OnOk result (self.new ≡ put self.old minus) }
    {
        self.text.extend(self.last.gap_before_minus())?;
        self.text.push(b'-')?;
        self.last = Last::Open;
        Ok(())
    }

    /// Writes a number, with no leading zeros.
    pub fn put_number(&mut self, value: u64) -> Result<(), NoMemory>
        ensures { OnOk result (self.new ≡ put self.old (token (decimal value))) }
    {
        let digits = value.to_string(self.alloc)?;
        self.put(digits.as_bytes())
    }

    /// Begins an inner line by two spaces.
    #[tactic(auto, unfolding(crate::specs::writing::Writer::indented))]
    pub fn indent(&mut self) -> Result<(), NoMemory>
        ensures { OnOk result (self.new ≡ indented true self.old) }
    {
        self.text.extend(b"  ")
    }

    /// Ends a line.
    #[tactic(auto, unfolding(crate::specs::writing::Writer::closed))]
    pub fn close(&mut self) -> Result<(), NoMemory>
        ensures { OnOk result (self.new ≡ closed self.old) }
    {
        self.text.push(b'\n')?;
        self.last = Last::Start;
        Ok(())
    }

    /// Ends a line by `;`.
    pub fn end(&mut self) -> Result<(), NoMemory>
        ensures { OnOk result (self.new ≡ closed (put self.old (token (codes ";")))) }
    {
        self.put(b";")?;
        self.close()
    }
}
