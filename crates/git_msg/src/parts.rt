//! The parts of kept requests: texts, and the indexes of their arguments.
ghost use Rattle.std.specs.Prelude.{◌≡◌, ◌≢◌, ◌+◌, ◌*◌, ◌^◌, ◌<◌, ◌≤◌, ◌==◌, [], ◌∷◌, ◌++◌, ℕ, OnOk, OnSome, OnErr, IfErr, MatchResult};
ghost use Rattle.std.specs.Prelude.{true, false, length, map, slice_get, slice_index, All};
ghost use Rattle.std.specs.Option.{option_copied};
ghost use Rattle.git_msg.specs.Arguments.{IsNameIn};
ghost use Rattle.git_msg.specs.declared.words.TextWord.{TextWord};
ghost use Rattle.std.proofs.Props.{props};
ghost use Rattle.std.specs.List.{dedup};
ghost use Rattle.std.specs.Ordering.{is_lt};
ghost use Rattle.std.specs.List.Sorted.{IsPartitionedBy, IsPartitionPoint, IsPermutation, IsSortedBy};
ghost use Rattle.git_msg.specs.Memory.{HasRefused, bytes_each};
ghost use Rattle.git_msg.specs.Machine.TextPools.{IsEnd, pooled, text_at, text_place, where_same};
ghost use Rattle.git_msg.specs.Machine.PlacedLists.{AreEnds};
ghost use Rattle.git_msg.specs.Prefixes.{IsOrdered, PutsInOrder, SplitsAt, goes_before, begins, is_shown, text_cmp};

use crate::memory::Memory;
use crate::words::TextWord;
use git_names::{Format, Oid};
use git_pkt::Kind;
use std::alloc::Allocator;
use std::cmp::Ordering;

/// How many lists `Lists` has: one for each word before an object name, or before a text.
pub(crate) const LISTS: usize = 5;

/// Lists, each at its place. They are fields: an array of them would have a size that depends on the allocator.
#[derive(Drop)]
pub(crate) struct Lists<X: Copy, A: Allocator + Copy> {
    first: Vec<X, A>,
    second: Vec<X, A>,
    third: Vec<X, A>,
    fourth: Vec<X, A>,
    fifth: Vec<X, A>,
}

impl<X: Copy, A: Allocator + Copy> Lists<X, A> {
    ghost use Rattle.git_msg.specs.Machine.PlacedLists.{items_at, items_in};

    pub(crate) fn new(alloc: A) -> Lists<X, A>
        ensures { items_in result ≡ 0 }
    {
        Lists {
            first: Vec::new(alloc),
            second: Vec::new(alloc),
            third: Vec::new(alloc),
            fourth: Vec::new(alloc),
            fifth: Vec::new(alloc),
        }
    }

    /// The last list alone, beside empty ones.
    fn fifth_alone(self, alloc: A) -> Lists<X, A>
        ensures fifth { items_at result 4 ≡ items_at self 4 }
        ensures others { (place : ℕ) → (place == 4) ≡ false → items_at result place ≡ [] }
        ensures counted { items_in result ≤ items_in self }
    {
        let Lists {
            first: _first,
            second: _second,
            third: _third,
            fourth: _fourth,
            fifth,
        } = self;
        Lists {
            first: Vec::new(alloc),
            second: Vec::new(alloc),
            third: Vec::new(alloc),
            fourth: Vec::new(alloc),
            fifth,
        }
    }

    /// The list at this place.
    pub(crate) fn at(&self, place: usize) -> &[X]
        requires { place < LISTS }
        ensures { result.now ≡ items_at self.now place }
    {
        match place {
            0 => &self.first,
            1 => &self.second,
            2 => &self.third,
            3 => &self.fourth,
            _ => &self.fifth,
        }
    }
}

impl<X: Copy, A: Memory + Copy> Lists<X, A> {
    ghost use Rattle.git_msg.specs.Machine.PlacedLists.{items_at, items_in};

    /// Adds an item to the list at this place; `OutOfMemory` if there is no memory for it.
    #[tactic(auto, using(crate::proofs::RefusedLists::refused_more))]
    pub(crate) fn push(&mut self, place: usize, item: X) -> Result<(), Kind>
        requires { place < LISTS }
        ensures ok { OnOk result ((of : ℕ) → items_at self.new of ≡ items_at self.old of ++ where_same of place item) }
        ensures counted { OnOk result (items_in self.new ≡ items_in self.old + 1) }
        ensures err { OnErr result (((of : ℕ) → items_at self.new of ≡ items_at self.old of) × (items_in self.new ≡ items_in self.old)) }
        ensures kind { IfErr result (λ kind. kind ≡ Kind.OutOfMemory) }
        ensures memory { OnErr result (HasRefused A.refuses ((items_in self.old + 1) * bytes_each X.row)) }
    {
        match place {
            0 => keep_item(&mut self.first, item),
            1 => keep_item(&mut self.second, item),
            2 => keep_item(&mut self.third, item),
            3 => keep_item(&mut self.fourth, item),
            _ => keep_item(&mut self.fifth, item),
        }
    }
}

/// Texts in one vector, each followed by its length in two bytes, and for each word the places where its texts end. So a text is
/// found from its end alone, and the ends may be in any order.
#[derive(Drop)]
pub(crate) struct Texts<A: Allocator + Copy> {
    bytes: Vec<u8, A>,
    ends: Lists<u32, A>,
    ghost sound: { AreEnds bytes.items ends } by { Prim.hlevel props },
}

impl<A: Allocator + Copy> Texts<A> {
    ghost use Rattle.git_msg.specs.Machine.HeldTexts.{texts_of, texts_stored};

    pub(crate) fn new(alloc: A) -> Texts<A>
        ensures texts { (word : TextWord) → texts_of result word ≡ [] }
        ensures stored { texts_stored result ≡ 0 }
    {
        Texts {
            bytes: Vec::new(alloc),
            ends: Lists::new(alloc),
        }
    }

    /// The server options alone. The bytes of the other texts stay.
    pub(crate) fn options_alone(self, alloc: A) -> Texts<A>
        ensures options { texts_of result TextWord.ServerOption ≡ texts_of self TextWord.ServerOption }
        ensures others { (word : TextWord) → (text_place word == 4) ≡ false → texts_of result word ≡ [] }
        ensures stored { texts_stored result ≤ texts_stored self }
    {
        let Texts { bytes, ends } = self;
        Texts {
            bytes,
            ends: ends.fifth_alone(alloc),
        }
    }

    /// The text at index `i` of those after the word.
    pub(crate) fn get(&self, word: TextWord, i: usize) -> Option<&[u8]>
        ensures value { option_copied result ≡ slice_get (texts_of self.now word) i }
        ensures bound { OnSome result (i + 1 < 2 ^ 64) }
    {
        match self.ends.at(word.place()).get(i) {
            Some(end) => Some(text(&self.bytes, *end)),
            None => None,
        }
    }

    /// How many texts are after the word.
    pub(crate) fn count(&self, word: TextWord) -> usize
        ensures { result ≡ length (texts_of self.now word) }
    {
        self.ends.at(word.place()).len()
    }

    /// Sorts the prefixes, and drops those that begin with another one: the rest show the same names.
    pub(crate) fn put_in_order(&mut self)
        ensures order { PutsInOrder (texts_of self.old TextWord.RefPrefix) (texts_of self.new TextWord.RefPrefix) }
        ensures others { (of : TextWord) → (text_place of == 0) ≡ false → texts_of self.new of ≡ texts_of self.old of }
        ensures stored { texts_stored self.new ≤ texts_stored self.old }
    {
        order(&self.bytes, &mut self.ends.first);
    }

    /// How many of the texts after the word do not come after the name.
    pub(crate) fn split(&self, word: TextWord, name: &[u8]) -> usize
        requires { IsOrdered (texts_of self.now word) }
        ensures { SplitsAt (texts_of self.now word) name.now result }
    {
        split_at(&self.bytes, self.ends.at(word.place()), name)
    }

    /// Whether a name begins with one of the texts after the word, or there are none, if this many of them do not come after it.
    pub(crate) fn shows_at(&self, word: TextWord, split: usize, name: &[u8]) -> bool
        requires ordered { IsOrdered (texts_of self.now word) }
        requires split { SplitsAt (texts_of self.now word) name.now split }
        ensures { result ≡ is_shown (texts_of self.now word) name.now }
    {
        if split == 0 {
            return self.count(word) == 0;
        }
        match self.get(word, split - 1) {
            Some(prefix) => name.starts_with(prefix),
            None => false,
        }
    }
}

impl<A: Memory + Copy> Texts<A> {
    ghost use Rattle.git_msg.specs.Machine.HeldTexts.{texts_of, texts_stored};

    /// Keeps a copy of the text after the others of its word; `OutOfMemory` if there is no memory for it.
    pub(crate) fn keep(&mut self, word: TextWord, text: &[u8]) -> Result<(), Kind>
        requires short { length text.now < 2 ^ 16 }
        requires fits { texts_stored self.old + length text.now < 2 ^ 32 }
        ensures ok { OnOk result ((of : TextWord) → texts_of self.new of ≡ texts_of self.old of ++ where_same (text_place of) (text_place word) text.now) }
        ensures stored { OnOk result (texts_stored self.new ≡ texts_stored self.old + (length text.now + 6)) }
        ensures err { OnErr result (((of : TextWord) → texts_of self.new of ≡ texts_of self.old of) × (texts_stored self.new ≡ texts_stored self.old)) }
        ensures kind { IfErr result (λ kind. kind ≡ Kind.OutOfMemory) }
        ensures memory { OnErr result (HasRefused A.refuses (texts_stored self.old + (length text.now + 6))) }
    {
        let start = self.bytes.len();
        append(&mut self.bytes, text)?;
        match self.ends.push(word.place(), (start + text.len()) as u32) {
            Ok(()) => Ok(()),
            Err(kind) => {
                self.bytes.truncate(start);
                Err(kind)
            }
        }
    }
}

// Appends the text and its length to the bytes; `OutOfMemory` if there is no memory for them.
fn append<A: Memory + Copy>(bytes: &mut Vec<u8, A>, text: &[u8]) -> Result<(), Kind>
    requires short { length text.now < 2 ^ 16 }
    requires fits { length bytes.old.items + length text.now < 2 ^ 32 }
    ensures ok { OnOk result (bytes.new.items ≡ bytes.old.items ++ pooled text.now) }
    ensures err { OnErr result (bytes.new.items ≡ bytes.old.items) }
    ensures kind { IfErr result (λ kind. kind ≡ Kind.OutOfMemory) }
    ensures memory { OnErr result (HasRefused A.refuses (length bytes.old.items + (length text.now + 2))) }
{
    if A::reserve(bytes, text.len() + 2).is_err() {
        return Err(Kind::OutOfMemory);
    }
    if bytes.extend_from_slice(text).is_err() {
        return Err(Kind::OutOfMemory);
    }
    bytes.push_reserved((text.len() % 256) as u8);
    bytes.push_reserved((text.len() / 256) as u8);
    Ok(())
}

// The text that ends at this place.
fn text(bytes: &[u8], end: u32) -> &[u8]
    ensures { result.now ≡ text_at bytes.now end }
{
    let end = end as usize;
    let long = byte(bytes, end) + 256 * byte(bytes, end + 1);
    let start = end.saturating_sub(long).min(bytes.len());
    let stop = (start + long).min(bytes.len());
    &bytes[start..stop]
}

fn byte(bytes: &[u8], i: usize) -> usize
    ensures value { result ≡ slice_index bytes.now i }
    ensures bound { result < 256 }
{
    match bytes.get(i) {
        Some(byte) => *byte as usize,
        None => 0,
    }
}

// Sorts the ends by their texts, and drops those of texts that begin with another one.
fn order<A: Allocator + Copy>(bytes: &[u8], ends: &mut Vec<u32, A>)
    ensures order { PutsInOrder (map (text_at bytes.now) ends.old.items) (map (text_at bytes.now) ends.new.items) }
    ensures fewer { length ends.new.items ≤ length ends.old.items }
    ensures sound { All (IsEnd bytes.now) ends.old.items → All (IsEnd bytes.now) ends.new.items }
{
    sort(bytes, ends);
    prune(bytes, ends);
}

fn sort<A: Allocator + Copy>(bytes: &[u8], ends: &mut Vec<u32, A>)
    ensures permutation { IsPermutation ends.old.items ends.new.items }
    ensures sorted { IsSortedBy (λ a b. is_lt (text_cmp (text_at bytes.now a) (text_at bytes.now b))) ends.new.items }
{
    ends.sort_unstable_by(
        |a: &u32, b: &u32| -> Ordering
            ensures { result ≡ text_cmp (text_at bytes.entry.now a.now) (text_at bytes.entry.now b.now) }
        { text(bytes, *a).cmp(text(bytes, *b)) },
    );
}

// How many of the ends belong to texts that do not come after the name.
fn split_at(bytes: &[u8], ends: &[u32], name: &[u8]) -> usize
    requires { IsPartitionedBy (λ end. goes_before (text_at bytes.now end) name.now) ends.now }
    ensures bound { result ≤ length ends.now }
    ensures parts { IsPartitionPoint (λ end. goes_before (text_at bytes.now end) name.now ≡ true)
        (λ end. goes_before (text_at bytes.now end) name.now ≡ false) ends.now result }
{
    ends.partition_point(
        |end: &u32| -> bool
            ensures { result ≡ goes_before (text_at bytes.entry.now end.now) name.entry.now }
        { text(bytes, *end).cmp(name).is_le() },
    )
}

// Drops the ends of the texts that begin with the last one kept.
fn prune<A: Allocator + Copy>(bytes: &[u8], ends: &mut Vec<u32, A>)
    ensures kept { ends.new.items ≡ dedup (λ a b. begins (text_at bytes.now a) (text_at bytes.now b)) ends.old.items }
    ensures fewer { length ends.new.items ≤ length ends.old.items }
{
    ends.dedup_by(
        |a: &mut u32, b: &mut u32| -> bool
            ensures result { result ≡ begins (text_at bytes.entry.now a.old) (text_at bytes.entry.now b.old) }
            ensures same { (a.new ≡ a.old) × (b.new ≡ b.old) }
        { text(bytes, *a).starts_with(text(bytes, *b)) },
    );
}

// Adds an item to the list; `OutOfMemory` if there is no memory for it.
fn keep_item<X: Copy, A: Memory + Copy>(list: &mut Vec<X, A>, item: X) -> Result<(), Kind>
    ensures ok { OnOk result (list.new.items ≡ list.old.items ++ item ∷ []) }
    ensures err { OnErr result (list.new.items ≡ list.old.items) }
    ensures kind { IfErr result (λ kind. kind ≡ Kind.OutOfMemory) }
    ensures memory { OnErr result (HasRefused A.refuses ((length list.old.items + 1) * bytes_each X.row)) }
{
    if A::reserve(list, 1).is_err() {
        return Err(Kind::OutOfMemory);
    }
    list.push_reserved(item);
    Ok(())
}

/// Whether the object name is of the format.
pub(crate) fn check_id(format: Format, id: &Oid) -> Result<(), Kind>
    ensures { MatchResult result (λ _. IsNameIn format id.now) (λ kind. (id.now.format ≢ format) × (kind ≡ Kind.BadObjectName)) }
{
    if id.format() != format {
        return Err(Kind::BadObjectName);
    }
    Ok(())
}
