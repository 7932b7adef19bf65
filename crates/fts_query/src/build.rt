ghost use Rattle.std.specs.Prelude.{◌≡◌, ◌+◌, ◌-◌, ◌<◌, ◌≤◌, ◌^◌, [], ◌∷◌, ◌++◌, length};
ghost use Rattle.std.specs.Prelude.{IfOk, OnOk, IsSome};
ghost use Rattle.fts_meaning.specs.Quote.{closing_quote};
ghost use Rattle.fts_meaning.specs.Tree.{opening, closing, single, written};
ghost use Rattle.fts_meaning.specs.Token.{sign_of, quoted, word_operand, tokens_at};
ghost use Rattle.fts_meaning.specs.Token.{tokens_from};
ghost use Rattle.fts_meaning.specs.Nesting.{Nests};
ghost use Rattle.fts_query.specs.View.{operand_view, terms_view};
ghost use Rattle.fts_query.specs.Built.{written_so_far, height_of};
ghost use Rattle.fts_query.specs.Ahead.{word_from};

use crate::distance::distance_tail;
use crate::query::{Operand, Term};
use crate::quotes::next_quote;
use crate::words::{WordsAhead, byte_at, words_in};
use fts_meaning::Sign;
use fts_token::lowered;
use fts_words::Span;
use std::alloc::{AllocError, Global};
use std::mem;

/// The sign that a byte gives to what stands directly behind it.
fn sign_of(byte: u8) -> Sign
    ensures { result ≡ sign_of byte }
{
    if byte == b'+' {
        return Sign::Required;
    }
    if byte == b'-' {
        return Sign::Excluded;
    }
    Sign::Optional
}

/// The word or prefix that a raw word of the text is.
fn word_operand(alloc: Global, text: &[u8], word: &Span) -> Result<Operand, AllocError>
    requires order { word.now.from ≤ word.now.to }
    requires within { word.now.to ≤ length text.now }
    ensures { IfOk result (λ operand. operand_view operand ≡ word_operand text.now word.now) }
{
    let lower = lowered(alloc, word.of(text))?;
    if byte_at(text, word.to) == b'*' {
        return Ok(Operand::Prefix(lower));
    }
    Ok(Operand::Word(lower))
}

/// The phrase or distance that opens at a place and whose closing quote is given.
fn quoted(alloc: Global, query: &[u8], from: usize, to: usize) -> Result<Operand, AllocError>
    requires order { from < to }
    requires within { to < length query.now }
    ensures { IfOk result (λ operand. operand_view operand ≡ quoted query.now from (Some to)) }
{
    let words = words_in(alloc, &query[from + 1..to])?;
    match distance_tail(&query[to + 1..]) {
        Some((_, number)) => Ok(Operand::Distance(words, number)),
        None => Ok(Operand::Phrase(words)),
    }
}

/// A bracket that is open: its sign, and the terms that stand before it.
#[derive(Drop)]
struct Bracket {
    sign: Sign,
    before: Vec<Term>,
}

/// A tree that is being built: the brackets that are open, and the terms behind the last of them.
#[derive(Drop)]
struct Builder {
    brackets: Vec<Bracket>,
    terms: Vec<Term>,
}

impl Builder {
    /// Nothing yet.
    fn new(alloc: Global) -> Builder
        ensures written { written_so_far result ≡ [] }
        ensures height { height_of result ≡ 0 }
    {
        Builder {
            brackets: Vec::new(alloc),
            terms: Vec::new(alloc),
        }
    }

    /// Adds an operand.
    fn add(&mut self, sign: Sign, operand: Operand) -> Result<(), AllocError>
        ensures written { OnOk result
            (written_so_far self.new
            ≡ written_so_far self.old ++ single sign (operand_view operand) ∷ []) }
        ensures height { height_of self.new ≡ height_of self.old }
    {
        self.terms.push(Term::Leaf(sign, operand))?;
        Ok(())
    }

    /// Opens a bracket.
    fn open_bracket(&mut self, alloc: Global, sign: Sign) -> Result<(), AllocError>
        ensures written { OnOk result
            (written_so_far self.new ≡ written_so_far self.old ++ opening sign ∷ []) }
        ensures height { OnOk result (height_of self.new ≡ height_of self.old + 1) }
    {
        let before = mem::replace(&mut self.terms, Vec::new(alloc));
        self.brackets.push(Bracket { sign, before })?;
        Ok(())
    }

    /// Closes the bracket that was opened last.
    fn close_bracket(&mut self) -> Result<(), AllocError>
        requires { 0 < height_of self.old }
        ensures written { OnOk result
            (written_so_far self.new ≡ written_so_far self.old ++ closing ∷ []) }
        ensures height { OnOk result (height_of self.new ≡ height_of self.old - 1) }
    {
        if let Some(Bracket { sign, before }) = self.brackets.pop() {
            let group = mem::replace(&mut self.terms, before);
            self.terms.push(Term::Group(sign, group))?;
        }
        Ok(())
    }

    /// Goes on by what begins at a place. `text` is what is left of the query, and `word` the raw
    /// word that starts there.
    fn take(
        &mut self,
        alloc: Global,
        query: &[u8],
        text: &[u8],
        place: usize,
        word: Option<Span>,
    ) -> Result<(), AllocError>
        requires within { place < length text.now }
        requires word { word ≡ word_from text.now place }
        requires nests { Nests (height_of self.old) (tokens_from query.now text.now place) }
        ensures written { OnOk result
            (written_so_far self.new
            ≡ written_so_far self.old ++ tokens_at query.now text.now place) }
        ensures nests { OnOk result
            (Nests (height_of self.new) (tokens_from query.now text.now (place + 1))) }
    {
        let sign = sign_of(byte_at(text, place.saturating_sub(1)));
        if text[place] == b'"' {
            return self.take_phrase(alloc, sign, query, place);
        }
        if text[place] == b'(' {
            return self.open_bracket(alloc, sign);
        }
        if text[place] == b')' {
            return self.close_bracket();
        }
        match word {
            None => Ok(()),
            Some(word) => {
                let operand = word_operand(alloc, text, &word)?;
                self.add(sign, operand)
            }
        }
    }

    /// Adds the phrase or distance that opens at a place.
    fn take_phrase(
        &mut self,
        alloc: Global,
        sign: Sign,
        query: &[u8],
        from: usize,
    ) -> Result<(), AllocError>
        requires within { from < 2 ^ 63 }
        requires closed { IsSome (closing_quote query.now from) }
        ensures written { OnOk result
            (written_so_far self.new
            ≡ written_so_far self.old ++ single sign
            (quoted query.now from (closing_quote query.now from)) ∷ []) }
        ensures height { height_of self.new ≡ height_of self.old }
    {
        if let Some(to) = next_quote(query, from + 1) {
            let operand = quoted(alloc, query, from, to)?;
            self.add(sign, operand)?;
        }
        Ok(())
    }
}

/// The terms of a query without a byte at fault. `text` is what is left of the query.
pub(crate) fn build(alloc: Global, query: &[u8], text: &[u8]) -> Result<Vec<Term>, AllocError>
    requires { Nests 0 (tokens_from query.now text.now 0) }
    ensures { IfOk result (λ terms. written (terms_view terms.items)
        ≡ tokens_from query.now text.now 0) }
{
    let mut builder = Builder::new(alloc);
    let mut words = WordsAhead::new(text);
    for place in 0..text.len() {
        let word = words.take_at(place);
        builder.take(alloc, query, text, place, word)?;
    }
    let Builder { brackets: _, terms } = builder;
    Ok(terms)
}
