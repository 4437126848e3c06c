//! The arguments of a request as they are stored: a list for each word before texts or object names.
ghost use Rattle.std.specs.Prelude.{◌≡◌, ◌+◌, ◌<◌, false, ◌≤◌, ◌^◌, [], IfErr, OnErr, OnOk, length, slice_get};
ghost use Rattle.std.specs.Option.{option_map};
ghost use Rattle.git_msg.specs.Arguments.{TakesMemory, shown, stored_in};
ghost use Rattle.git_msg.specs.Asked.{ids, is_word, flag_among, number as number_after, of_word, texts, with_one};
ghost use Rattle.git_msg.specs.Memory.{HasRefused};

use crate::arguments::Argument;
use crate::flags::{Flag, FlagSet};
use crate::memory::Memory;
use crate::parts::{Lists, Texts};
use crate::words::{NumberWord, ObjectWord, TextWord, WORDS, Word};
use git_names::Oid;
use git_pkt::Kind;
use std::alloc::Allocator;

// How many words are before numbers.
pub(crate) const NUMBERS: usize = 2;

/// What is stored of a request's arguments: each word has a list, at its place.
#[derive(Drop)]
pub(crate) struct ArgumentLists<A: Allocator + Copy> {
    flags: FlagSet,
    objects: Lists<Oid, A>,
    texts: Texts<A>,
    numbers: [Option<u64>; NUMBERS],
}

impl<A: Allocator + Copy> ArgumentLists<A> {
    ghost use Rattle.git_msg.specs.Machine.ArgumentLists.{held, held_at, stored};
    ghost use Rattle.git_msg.specs.Machine.HeldTexts.{texts_of};
    ghost use Rattle.git_msg.specs.Prefixes.{PutsInOrder};
    ghost use Rattle.git_msg.specs.declared.words.TextWord.{TextWord};

    pub(crate) fn new(alloc: A) -> ArgumentLists<A>
        ensures none { held result ≡ [] }
        ensures stored { stored result ≡ 0 }
    {
        ArgumentLists {
            flags: FlagSet::new(),
            objects: Lists::new(alloc),
            texts: Texts::new(alloc),
            numbers: [None; NUMBERS],
        }
    }

    /// The server options alone.
    pub(crate) fn options_alone(self, alloc: A) -> ArgumentLists<A>
        ensures options { held result ≡ of_word (Word.Text TextWord.ServerOption) (held self) }
        ensures stored { stored result ≤ stored self }
    {
        let ArgumentLists {
            flags: _flags,
            objects: _objects,
            texts,
            numbers: _numbers,
        } = self;
        ArgumentLists {
            flags: FlagSet::new(),
            objects: Lists::new(alloc),
            texts: texts.options_alone(alloc),
            numbers: [None; NUMBERS],
        }
    }

    pub(crate) fn has(&self, flag: Flag) -> bool
        ensures { result ≡ flag_among (held self.now) flag }
    {
        self.flags.has(flag)
    }

    /// The object names after the word, in the order of their lines.
    pub(crate) fn ids(&self, word: ObjectWord) -> &[Oid]
        ensures { result.now ≡ ids word (held self.now) }
    {
        self.objects.at(word.place())
    }

    /// The texts after each word, in the order of their lines.
    pub(crate) fn texts(&self) -> &Texts<A>
        ensures { (word : TextWord) → texts_of result.now word ≡ texts word (held self.now) }
    {
        &self.texts
    }

    /// The number after the word, if there is one; of several, the last.
    pub(crate) fn number(&self, word: NumberWord) -> Option<u64>
        ensures { result ≡ number_after word (held self.now) }
    {
        self.numbers[word.place()]
    }

    /// Sorts the prefixes, and drops those that begin with another one: the same names begin with one of the rest.
    pub(crate) fn put_in_order(&mut self)
        ensures order { PutsInOrder (texts_of self.old.texts TextWord.RefPrefix) (texts_of self.new.texts TextWord.RefPrefix) }
        ensures others { (word : Word) → is_word word (Word.Text TextWord.RefPrefix) ≡ false → held_at self.new word ≡ held_at self.old word }
        ensures stored { stored self.new ≤ stored self.old }
    {
        self.texts.put_in_order();
    }

    /// The argument at index `i`, in the order in which they are written.
    pub(crate) fn argument(&self, i: usize) -> Option<Argument<'_>>
        ensures { option_map shown result ≡ slice_get (held self.now) i }
    {
        let mut left = i;
        for word in WORDS {
            let count = self.count(*word);
            if left < count {
                return self.at(*word, left);
            }
            left -= count;
        }
        None
    }

    // How many arguments the word has.
    fn count(&self, word: Word) -> usize
        ensures { result ≡ length (held_at self.now word) }
    {
        match word {
            Word::Flag(flag) => self.flags.has(flag) as usize,
            Word::Object(word) => self.objects.at(word.place()).len(),
            Word::Text(word) => self.texts.count(word),
            Word::Number(word) => self.numbers[word.place()].is_some() as usize,
        }
    }

    // The argument at this index of those of the word.
    fn at(&self, word: Word, i: usize) -> Option<Argument<'_>>
        requires { i < length (held_at self.now word) }
        ensures { option_map shown result ≡ slice_get (held_at self.now word) i }
    {
        match word {
            Word::Flag(flag) => Some(Argument::Flag(flag)),
            Word::Object(word) => Some(Argument::Object(word, self.objects.at(word.place())[i])),
            Word::Text(word) => match self.texts.get(word, i) {
                Some(text) => Some(Argument::Text(word, text)),
                None => None,
            },
            Word::Number(word) => match self.numbers[word.place()] {
                Some(number) => Some(Argument::Number(word, number)),
                None => None,
            },
        }
    }
}

impl<A: Memory + Copy> ArgumentLists<A> {
    ghost use Rattle.git_msg.specs.Machine.ArgumentLists.{held, stored};

    /// Stores an argument after the others; `OutOfMemory` if there is no memory for it.
    pub(crate) fn push(&mut self, argument: &Argument<'_>) -> Result<(), Kind>
        requires short { stored_in (shown argument.now) ≤ 65535 }
        requires fits { stored self.old + stored_in (shown argument.now) < 2 ^ 32 }
        ensures ok { OnOk result (held self.new ≡ with_one (held self.old) (shown argument.now)) }
        ensures stored { OnOk result (stored self.new ≡ stored self.old + stored_in (shown argument.now)) }
        ensures unchanged { OnErr result ((held self.new ≡ held self.old) × (stored self.new ≡ stored self.old)) }
        ensures takes_memory { IfErr result (λ kind. TakesMemory (shown argument.now) × (kind ≡ Kind.OutOfMemory)) }
        ensures memory { OnErr result (HasRefused A.refuses (stored self.old + stored_in (shown argument.now))) }
    {
        match argument {
            Argument::Flag(flag) => {
                self.flags.add(*flag);
                Ok(())
            }
            Argument::Object(word, id) => self.objects.push(word.place(), *id),
            Argument::Text(word, text) => self.texts.keep(*word, text),
            Argument::Number(word, number) => {
                self.numbers[word.place()] = Some(*number);
                Ok(())
            }
        }
    }
}
