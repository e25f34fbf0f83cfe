//! The words of a line, read from left to right.
ghost use Rattle.std.specs.Prelude.{◌≡◌, pos, [], ◌∷◌, ◌++◌, List, codes, if◌then◌else◌, OnOk};
ghost use Rattle.std.specs.Prelude.{IfOk, IfErr};
ghost use Rattle.script.specs.Lines.{Word, words, IsNumber, IsThreshold};
ghost use Rattle.script.specs.Grammar.{IsFunction, IsMerger};
ghost use Rattle.script.specs.Faults.{a_number, a_threshold, a_function, a_merger, a_sum_or_max};
ghost use Rattle.script.specs.Faults.{the_above, IsWrong, FailsFirst, FailsAt};

use crate::fault::Kind;
use crate::function::Function;
use crate::line::TextLine;
use crate::number::{read_number, read_threshold};
use std::marker::Model;

/// The words of a line that are still to be read. Contracts see them as a list.
#[derive(Drop)]
pub(crate) struct Words<'a> {
    rest: Option<TextLine<'a>>,
}

impl<'a> Model for Words<'a> {
    ghost use Rattle.std.specs.Prelude.{List, []};
    ghost use Rattle.std.specs.Option.{option_map_or};
    ghost use Rattle.script.specs.Lines.{Word, words};

    ghost Value = { List Word };

    ghost view = { λ w. option_map_or words w.rest [] };
}

/// The first word of a line, and the others.
#[inline(always)]
pub(crate) fn first_word<'a>(line: &TextLine<'a>) -> (&'a [u8], Words<'a>)
    ensures { words line.now ≡ result.0.now ∷ result.1 }
{
    let (word, rest) = line.split();
    (word.bytes(), Words { rest })
}

impl<'a> Words<'a> {
    /// The next word, with what follows it in the text.
    #[inline(always)]
    pub(crate) fn front(&mut self) -> Result<TextLine<'a>, Kind>
        ensures ok { IfOk result (λ w. self.old ≡ w ∷ self.new) }
        ensures err { IfErr result (λ kind. (kind ≡ Kind.Count) × (self.old ≡ [])) }
    {
        let Some(line) = self.rest.take() else {
            return Err(Kind::Count);
        };
        let (word, rest) = line.split();
        self.rest = rest;
        Ok(word)
    }

    /// The next word.
    #[inline(always)]
    fn word(&mut self) -> Result<&'a [u8], Kind>
        ensures ok { IfOk result (λ w. self.old ≡ w.now ∷ self.new) }
        ensures err { IfErr result (λ kind. (kind ≡ Kind.Count) × (self.old ≡ [])) }
    {
        let word = self.front()?;
        Ok(word.bytes())
    }

    /// Whether no word is left, which is an error where one is.
    #[inline(always)]
    pub(crate) fn end(&self) -> Result<(), Kind>
        ensures ok { OnOk result (self.now ≡ []) }
        ensures err { IfErr result (IsWrong [] self.now) }
    {
        match &self.rest {
            Some(_) => Err(Kind::Count),
            None => Ok(()),
        }
    }

    /// The next word, which is to be a number.
    #[inline(always)]
    pub(crate) fn number(&mut self) -> Result<i64, Kind>
        ensures ok { IfOk result (λ n. (w : Word) × IsNumber w n × (self.old ≡ w ∷ self.new)) }
        ensures err { IfErr result (FailsAt a_number self.old) }
    {
        read_number(self.word()?).ok_or(Kind::Number)
    }

    /// The next word, which is to be a threshold.
    pub(crate) fn threshold(&mut self) -> Result<u64, Kind>
        ensures ok { IfOk result (λ n. (w : Word) × IsThreshold w n × (self.old ≡ w ∷ self.new)) }
        ensures err { IfErr result (FailsAt a_threshold self.old) }
    {
        read_threshold(self.word()?).ok_or(Kind::Number)
    }

    /// The word of a function, whose number is still to come.
    #[inline(always)]
    fn function_word(&mut self) -> Result<Function, Kind>
        ensures ok { IfOk result (λ f. (w : Word) × IsMerger w (pos 0) f
            × (self.old ≡ w ∷ self.new)) }
        ensures err { IfErr result (FailsFirst a_function self.old) }
    {
        match self.word()? {
            b"sum" => Ok(Function::Sum(0)),
            b"max" => Ok(Function::Max(0)),
            b"set" => Ok(Function::Set(0)),
            b"drop" => Ok(Function::Drop),
            _ => Err(Kind::Function),
        }
    }

    /// A function, with the number that follows its word.
    #[inline(always)]
    pub(crate) fn function(&mut self) -> Result<Function, Kind>
        ensures ok { IfOk result (λ f. (fs : List Word) × IsFunction fs f
            × (self.old ≡ fs ++ self.new)) }
        ensures err { IfErr result (FailsAt a_function self.old) }
    {
        match self.function_word()? {
            Function::Drop => Ok(Function::Drop),
            named => {
                let number = self.number()?;
                Ok(named.with_number(number))
            }
        }
    }

    /// The function of a merge, whose number is the given value.
    #[inline(always)]
    pub(crate) fn merger(&mut self, given: i64) -> Result<Function, Kind>
        ensures ok { IfOk result (λ f. (w : Word) × IsMerger w given f
            × (self.old ≡ w ∷ self.new)) }
        ensures err { IfErr result (FailsAt a_merger self.old) }
    {
        let named = self.function_word()?;
        Ok(named.with_number(given))
    }

    /// Whether the values are to be added up, or the greatest is sought.
    pub(crate) fn is_sum(&mut self) -> Result<bool, Kind>
        ensures ok { IfOk result
            (λ sum. self.old ≡ (if sum then codes "sum" else codes "max") ∷ self.new) }
        ensures err { IfErr result (FailsAt a_sum_or_max self.old) }
    {
        match self.word()? {
            b"sum" => Ok(true),
            b"max" => Ok(false),
            _ => Err(Kind::Function),
        }
    }

    /// The word `above`.
    pub(crate) fn above(&mut self) -> Result<(), Kind>
        ensures ok { OnOk result (self.old ≡ codes "above" ∷ self.new) }
        ensures err { IfErr result (FailsAt the_above self.old) }
    {
        match self.word()? {
            b"above" => Ok(()),
            _ => Err(Kind::Function),
        }
    }
}
