// A text read line by line, a field on each line: the field's name and its value.
ghost use Rattle.std.specs.Prelude.{◌≡◌, ◌+◌, ◌^◌, ◌<◌, ◌≤◌, List, ℕ, Option, OnOk, OnErr, MatchResult, SomeIff, eqb, length, true, false, position};
ghost use Rattle.rules.specs.Lists.{not_empty};
ghost use Rattle.rules.specs.Bytes.{number_up_to, signed_number};
ghost use Rattle.rules.specs.Text.{line_feed, place, field, delay_word};
ghost use Rattle.reader.specs.Lines.{NamedLine};
ghost use Rattle.reader.specs.Readings.{reading, line_refused};

use crate::numbers::{delay_word, number_up_to, signed_number};
use memchr::memchr;
use rules::answers::{Refusal, RefusalKind};
use std::marker::Model;

// The first line that breaks the form, from 1.
#[derive(Clone, Copy)]
pub struct BrokenLine {
    pub line: u64,
}

impl From<BrokenLine> for Refusal {
    ghost from_gives = { λ broken refusal. refusal ≡ line_refused broken };

    fn from(broken: BrokenLine) -> Refusal {
        Refusal {
            kind: RefusalKind::TextNotInForm,
            place: broken.line,
        }
    }
}

// Where reading stands: the number of the next line, and the bytes from there on.
#[derive(Drop)]
pub struct Lines<'a> {
    line: u64,
    rest: &'a [u8],
}

impl<'a> Model for Lines<'a> {
    ghost use Rattle.std.specs.Prelude.{◌+◌, ◌<◌, ◌^◌, length};
    ghost use Rattle.rules.specs.Text.{Place, place};

    ghost Value = { Place };

    ghost view = { λ s. place s.line s.rest.now };

    ghost invariant = { λ s. s.line + length s.rest.now < 2 ^ 64 };
}

// The place of the first line feed.
#[tactic(auto, using(crate::proofs::LineSteps::first_byte))]
fn line_end(text: &[u8]) -> Option<usize>
    ensures { result ≡ position (eqb line_feed) text.now }
{
    memchr(b'\n', text)
}

// The value of the first line, where it has this name, and the text after the line.
#[tactic(auto, using(crate::proofs::LineSteps::line_missing, crate::proofs::LineSteps::line_other))]
fn named_line<'a>(text: &'a [u8], name: &[u8]) -> Option<(&'a [u8], &'a [u8])>
    ensures { NamedLine text.now name.now result }
{
    let end = line_end(text)?;
    let value = text[..end].strip_prefix(name)?;
    Some((value, &text[end + 1..]))
}

impl<'a> Lines<'a> {
    // At the front of a text.
    pub fn new(text: &'a [u8]) -> Self
        ensures { result ≡ place 1 text.now }
    {
        Lines {
            line: 1,
            rest: text,
        }
    }

    // At a line of a text, from which on these bytes are left; none where a line's number could not be held.
    pub fn at_line(line: u64, rest: &'a [u8]) -> Option<Self>
        ensures { SomeIff result (line + length rest.now < 2 ^ 64) (place line rest.now) }
    {
        line.checked_add(rest.len() as u64)?;
        Some(Lines { line, rest })
    }

    // Where nothing may follow: a line that does breaks the form.
    pub fn end(&self) -> Result<(), BrokenLine>
        ensures { MatchResult result (λ _. not_empty self.now.rest ≡ false) (λ e. (not_empty self.now.rest ≡ true) × (e.line ≡ self.now.line)) }
    {
        if self.rest.is_empty() {
            Ok(())
        } else {
            Err(BrokenLine { line: self.line })
        }
    }

    // The same place once more: for reading all of some lines or none. No `Copy`, which a struct with a model and a lifetime
    // can't have.
    pub fn copied(&self) -> Self
        ensures { result ≡ self.now }
    {
        Lines {
            line: self.line,
            rest: self.rest,
        }
    }

    // Reads the next line, a field with this name whose value has a form. A line that is refused stays the next one.
    #[tactic(auto, using(crate::proofs::FieldSteps::field_missing, crate::proofs::FieldSteps::field_none, crate::proofs::FieldSteps::field_some))]
    pub fn field<T: Drop, F: Fn(&[u8]) -> Option<T>>(
        &mut self,
        name: &[u8],
        form: F,
    ) -> Result<T, BrokenLine>
        ghost value: { List ℕ → Option T }
        requires callable { F.IsAlwaysCallable form }
        requires computes { (bytes : _) (r : _) → F.post form bytes r → r ≡ value bytes.now }
        ensures reads { reading result self.new ≡ field name.now value self.old }
        ensures forward { OnOk result (length name.now + length self.new.rest + 1 ≤ length self.old.rest) }
        ensures counted { MatchResult result (λ _. self.new.line ≡ self.old.line + 1) (λ e. e.line ≡ self.old.line) }
        ensures kept { OnErr result (self.new ≡ self.old) }
    {
        let broken = BrokenLine { line: self.line };
        let (value, rest) = named_line(self.rest, name).ok_or(broken)?;
        let found = form(value).ok_or(broken)?;
        self.line += 1;
        self.rest = rest;
        Ok(found)
    }

    // Reads the next line, a field with this name whose value is a number from 0 to the largest.
    pub fn number_field(&mut self, name: &[u8], most: u64) -> Result<u64, BrokenLine>
        ensures reads { reading result self.new ≡ field name.now (number_up_to most) self.old }
        ensures forward { OnOk result (length name.now + length self.new.rest + 1 ≤ length self.old.rest) }
        ensures counted { MatchResult result (λ _. self.new.line ≡ self.old.line + 1) (λ e. e.line ≡ self.old.line) }
        ensures kept { OnErr result (self.new ≡ self.old) }
    {
        self.field(name, |digits| number_up_to(digits, most))
    }

    // The same of a delay's word.
    pub fn delay_field(&mut self, name: &[u8]) -> Result<u16, BrokenLine>
        ensures reads { reading result self.new ≡ field name.now delay_word self.old }
        ensures forward { OnOk result (length name.now + length self.new.rest + 1 ≤ length self.old.rest) }
        ensures counted { MatchResult result (λ _. self.new.line ≡ self.old.line + 1) (λ e. e.line ≡ self.old.line) }
        ensures kept { OnErr result (self.new ≡ self.old) }
    {
        self.field(name, delay_word)
    }

    // The same of a number of signed 32 bits.
    pub fn signed_field(&mut self, name: &[u8]) -> Result<i32, BrokenLine>
        ensures reads { reading result self.new ≡ field name.now signed_number self.old }
        ensures forward { OnOk result (length name.now + length self.new.rest + 1 ≤ length self.old.rest) }
        ensures counted { MatchResult result (λ _. self.new.line ≡ self.old.line + 1) (λ e. e.line ≡ self.old.line) }
        ensures kept { OnErr result (self.new ≡ self.old) }
    {
        self.field(name, signed_number)
    }
}
