// Texts of an interval: its tags.
ghost use Rattle.std.specs.List.{list_any};
ghost use Rattle.timew_interval.specs.Few.{few_texts};
ghost use Rattle.tw_world.specs.Folder.{same_bytes, add_name as add_tag};
ghost use Rattle.std.specs.Prelude.{◌≡◌, ◌<◌, ◌++◌, ◌∷◌, [], true, false, length, fold, filter, not, OnOk, OnErr, IfOk, slice_index_or};

use crate::interval::tags::{copy_texts, push_copy, with_all, without_all};
use std::alloc::Global;
use std::collections::BTreeSet;
use std::marker::Model;
use std::mem::replace;
use tw_world::{Memory, Text};

/// Texts, seen as a list of them. Up to two lie in the value and take no memory of their own.
pub struct Texts {
    alloc: Global,
    few: Few,
}

// It is written out, so that a caller does not prove again how each part is dropped.
impl Drop for Texts {
    fn drop(self) {
        let Texts { alloc: _, few: _ } = self;
    }
}

#[derive(Drop)]
enum Few {
    Empty,
    One(Text),
    Two(Text, Text),
    More(Vec<Text>),
}

impl Model for Texts {
    ghost use Rattle.std.specs.Prelude.{List, ℕ};
    ghost use Rattle.timew_interval.specs.Few.{few_texts};

    ghost Value = { List (List ℕ) };

    ghost view = { λ t. few_texts t.few };
}

impl Texts {
    pub fn new(alloc: Global) -> Texts
        ensures { result ≡ [] }
    {
        Texts {
            alloc,
            few: Few::Empty,
        }
    }

    pub fn one(alloc: Global, text: Text) -> Texts
        ensures { result ≡ text ∷ [] }
    {
        Texts {
            alloc,
            few: Few::One(text),
        }
    }

    pub fn two(alloc: Global, first: Text, second: Text) -> Texts
        ensures { result ≡ first ∷ second ∷ [] }
    {
        Texts {
            alloc,
            few: Few::Two(first, second),
        }
    }

    pub fn of(alloc: Global, items: Vec<Text>) -> Texts
        ensures { result ≡ items.items }
    {
        Texts {
            alloc,
            few: Few::More(items),
        }
    }

    /// The texts of a set, in byte order.
    pub fn of_set(alloc: Global, set: BTreeSet<Text>) -> Result<Texts, Memory>
        ensures { IfOk result (λ texts. texts ≡ set.keys) }
    {
        let mut texts = Texts::new(alloc);
        for text in set {
            texts.push(text)?;
        }
        Ok(texts)
    }

    pub fn len(&self) -> u64
        ensures { result ≡ length self.now }
    {
        match &self.few {
            Few::Empty => 0,
            Few::One(_) => 1,
            Few::Two(_, _) => 2,
            Few::More(texts) => texts.len() as u64,
        }
    }

    pub fn copy(&self, alloc: Global) -> Result<Texts, Memory>
        ensures { IfOk result (λ copy. copy ≡ self.now) }
    {
        let few = match &self.few {
            Few::Empty => Few::Empty,
            Few::One(text) => Few::One(text.copy(alloc)?),
            Few::Two(text, other) => Few::Two(text.copy(alloc)?, other.copy(alloc)?),
            Few::More(texts) => Few::More(copy_texts(alloc, texts)?),
        };
        Ok(Texts { alloc, few })
    }

    // The texts in a vector.
    fn to_vec(&self, alloc: Global) -> Result<Vec<Text>, Memory>
        ensures { IfOk result (λ texts. texts.items ≡ self.now) }
    {
        let mut texts = Vec::new(alloc);
        match &self.few {
            Few::Empty => {}
            Few::One(text) => push_copy(alloc, &mut texts, text)?,
            Few::Two(text, other) => {
                push_copy(alloc, &mut texts, text)?;
                push_copy(alloc, &mut texts, other)?;
            }
            Few::More(more) => return copy_texts(alloc, more),
        }
        Ok(texts)
    }

    /// These tags and others, in byte order, each once.
    pub fn with(&self, alloc: Global, others: &Texts) -> Result<Texts, Memory>
        ensures { IfOk result (λ tags. tags ≡ fold (λ had tag. add_tag tag had) self.now others.now) }
    {
        let others = others.to_vec(alloc)?;
        let items = with_all(alloc, self.to_vec(alloc)?, &others)?;
        Ok(Texts::of(alloc, items))
    }

    /// These tags without others.
    pub fn without(&self, alloc: Global, others: &Texts) -> Result<Texts, Memory>
        ensures { IfOk result (λ tags. tags ≡ filter (λ tag. not (list_any (same_bytes tag) others.now)) self.now) }
    {
        let tags = self.to_vec(alloc)?;
        let others = others.to_vec(alloc)?;
        Ok(Texts::of(alloc, without_all(alloc, &tags, &others)?))
    }

    /// The text with number `n`, from 0.
    pub fn at(&self, n: u64) -> &str
        requires { n < length self.now }
        ensures { result.now ≡ slice_index_or self.now n [] }
    {
        match &self.few {
            Few::Empty => unreachable!(),
            Few::One(text) => text.as_str(),
            Few::Two(text, other) => if n == 0 {
                text.as_str()
            } else {
                other.as_str()
            },
            Few::More(texts) => texts[n as usize].as_str(),
        }
    }

    pub fn push(&mut self, text: Text) -> Result<(), Memory>
        ensures ok { OnOk result (self.new ≡ self.old ++ text ∷ []) }
        ensures err { OnErr result (self.new ≡ self.old) }
    {
        let (few, is_pushed) = pushed(self.alloc, replace(&mut self.few, Few::Empty), text);
        self.few = few;
        if is_pushed { Ok(()) } else { Err(Memory) }
    }
}

// Texts with one more after them, or the same texts if there is no memory.
fn pushed(alloc: Global, few: Few, text: Text) -> (Few, bool)
    ensures ok { result.1 ≡ true → few_texts result.0 ≡ few_texts few ++ text ∷ [] }
    ensures err { result.1 ≡ false → few_texts result.0 ≡ few_texts few }
{
    match few {
        Few::Empty => (Few::One(text), true),
        Few::One(first) => (Few::Two(first, text), true),
        Few::Two(first, second) => three(alloc, first, second, text),
        Few::More(texts) => more(texts, text),
    }
}

// Three texts, or the first two.
fn three(alloc: Global, first: Text, second: Text, third: Text) -> (Few, bool)
    ensures ok { result.1 ≡ true → few_texts result.0 ≡ first ∷ second ∷ third ∷ [] }
    ensures err { result.1 ≡ false → few_texts result.0 ≡ first ∷ second ∷ [] }
{
    match Vec::with_capacity(alloc, 4) {
        Ok(texts) => {
            let mut texts = texts;
            texts.push_reserved(first);
            texts.push_reserved(second);
            texts.push_reserved(third);
            (Few::More(texts), true)
        }
        Err(_) => (Few::Two(first, second), false),
    }
}

// Texts with one more after them, or the same texts.
fn more(texts: Vec<Text>, text: Text) -> (Few, bool)
    ensures ok { result.1 ≡ true → few_texts result.0 ≡ texts.items ++ text ∷ [] }
    ensures err { result.1 ≡ false → few_texts result.0 ≡ texts.items }
{
    let mut texts = texts;
    let is_pushed = texts.push(text).is_ok();
    (Few::More(texts), is_pushed)
}
