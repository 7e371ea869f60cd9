// What the members of a task's object mean.
ghost use Rattle.std.specs.Prelude.{◌≡◌, map, option_map, IfOk, OnOk};
ghost use Rattle.std.specs.Fmt.{decimal};
ghost use Rattle.uuid.specs.Text.{parsed};
ghost use Rattle.tw_time.specs.Basic.{basic_moment};
ghost use Rattle.tw_import.specs.Meanings.{value, odd_by_kind, number_meaning, number_by_kind, uuid_meaning, moment_meaning, items_meaning, some_text};
ghost use Rattle.tw_import.specs.Meanings.{dependency_of, dependencies_of, comma_parts, stored_status, text_by_kind, annotated, item_text};
ghost use Rattle.tw_import.specs.Import.{with_value, with_list};
ghost use Rattle.tw_model.specs.Ops.{TaskValue};
ghost use Rattle.tw_import.specs.MemberValues.{item_in, list_in, meaning_of, with_each};
ghost use Rattle.tw_import.specs.Reading.{item_behind};

use crate::kind::Kind;
use std::alloc::Global;
use tw_model::TaskDraft;
use tw_time::read_basic;
use tw_urgency::read_uuid;
use tw_world::{Memory, Text};
use uuid::Uuid;

/// An item of a list that a member may be.
pub(crate) enum MemberItem {
    Tag(Text),
    Dependency(Uuid),
    Annotation(u64, Text),
}

// It is written out, so that a caller does not prove again how each part is dropped.
impl Drop for MemberItem {
    fn drop(self) {
        match self {
            MemberItem::Tag(_a) => {}
            MemberItem::Dependency(_a) => {}
            MemberItem::Annotation(_a, _b) => {}
        }
    }
}

/// What the value of a member means.
pub(crate) enum MemberValue {
    Nothing,
    Bad,
    Identity(Uuid),
    Value(Text),
    Items(Vec<MemberItem>),
}

// It is written out, so that a caller does not prove again how each part is dropped.
impl Drop for MemberValue {
    fn drop(self) {
        match self {
            MemberValue::Nothing => {}
            MemberValue::Bad => {}
            MemberValue::Identity(_a) => {}
            MemberValue::Value(_a) => {}
            MemberValue::Items(_a) => {}
        }
    }
}

impl MemberValue {
    /// Puts the value of a field into a task, and a list after the others.
    #[tactic(auto, using(crate::proofs::ItemLists::with_each_push))]
    pub(crate) fn put_into(
        self,
        name: Text,
        draft: &mut TaskDraft,
        lists: &mut Vec<Vec<MemberItem>>,
    ) -> Result<(), Memory>
        ensures values { OnOk result (draft.new ≡ with_value draft.old name (meaning_of self)) }
        ensures lists { OnOk result ((task : TaskValue) → with_each task lists.new.items ≡ with_list (with_each task lists.old.items) (meaning_of self)) }
    {
        match self {
            MemberValue::Value(value) => draft.put_text(name, value),
            MemberValue::Items(items) => {
                lists.push(items)?;
                Ok(())
            }
            MemberValue::Nothing | MemberValue::Bad | MemberValue::Identity(_) => Ok(()),
        }
    }
}

/// A value that is neither null, a text, a whole number nor a list.
pub(crate) fn odd_by_kind(kind: Kind) -> MemberValue
    ensures { meaning_of result ≡ odd_by_kind kind }
{
    match kind {
        Kind::Passed => MemberValue::Nothing,
        _ => MemberValue::Bad,
    }
}

fn decimal_meaning(alloc: Global, number: u64) -> Result<MemberValue, Memory>
    ensures { IfOk result (λ h. meaning_of h ≡ value (decimal number)) }
{
    let digits = format!(in alloc; "{number}")?;
    Ok(MemberValue::Value(Text::from_str(alloc, digits.as_str())?))
}

fn number_meaning(alloc: Global, number: Option<u64>) -> Result<MemberValue, Memory>
    ensures { IfOk result (λ h. meaning_of h ≡ number_meaning number) }
{
    match number {
        Some(number) => decimal_meaning(alloc, number),
        None => Ok(MemberValue::Bad),
    }
}

/// A number, which is whole and below 2^64 or not.
pub(crate) fn number_by_kind(
    alloc: Global,
    kind: Kind,
    number: Option<u64>,
) -> Result<MemberValue, Memory>
    ensures { IfOk result (λ h. meaning_of h ≡ number_by_kind kind number) }
{
    match kind {
        Kind::Passed => Ok(MemberValue::Nothing),
        Kind::Status | Kind::Plain => number_meaning(alloc, number),
        _ => Ok(MemberValue::Bad),
    }
}

fn uuid_meaning(text: &str) -> MemberValue
    ensures { meaning_of result ≡ uuid_meaning (parsed text.now) }
{
    match read_uuid(text) {
        Some(uuid) => MemberValue::Identity(uuid),
        None => MemberValue::Bad,
    }
}

fn moment_meaning(alloc: Global, text: &str) -> Result<MemberValue, Memory>
    ensures { IfOk result (λ h. meaning_of h ≡ moment_meaning (basic_moment text.now)) }
{
    match read_basic(text) {
        Some(at) => decimal_meaning(alloc, at),
        None => Ok(MemberValue::Bad),
    }
}

fn text_meaning(alloc: Global, text: &str) -> Result<MemberValue, Memory>
    ensures { IfOk result (λ h. meaning_of h ≡ value text.now) }
{
    Ok(MemberValue::Value(Text::from_str(alloc, text)?))
}

fn some_text(alloc: Global, text: &str) -> Result<MemberValue, Memory>
    ensures { IfOk result (λ h. meaning_of h ≡ some_text text.now) }
{
    if text.is_empty() {
        return Ok(MemberValue::Bad);
    }
    text_meaning(alloc, text)
}

fn stored_status(word: &str) -> &str
    ensures { result.now ≡ stored_status word.now }
{
    if word == "waiting" { "pending" } else { word }
}

// Items with one after them, if each is one.
fn behind(
    found: Option<Vec<MemberItem>>,
    item: Option<MemberItem>,
) -> Result<Option<Vec<MemberItem>>, Memory>
    ensures { IfOk result (λ is. list_in is ≡ item_behind (list_in found) (option_map item_in item)) }
{
    let Some(mut items) = found else {
        return Ok(None);
    };
    let Some(item) = item else {
        return Ok(None);
    };
    items.push(item)?;
    Ok(Some(items))
}

// The dependencies that a text names between its commas.
fn dependencies_in(alloc: Global, text: &str) -> Result<Option<Vec<MemberItem>>, Memory>
    ensures { IfOk result (λ is. list_in is ≡ dependencies_of (comma_parts text.now)) }
{
    let mut found = Some(Vec::new(alloc));
    for part in text.split(',') {
        found = behind(found, dependency_of(part))?;
    }
    Ok(found)
}

/// A text.
pub(crate) fn text_by_kind(alloc: Global, kind: Kind, text: &str) -> Result<MemberValue, Memory>
    ensures { IfOk result (λ h. meaning_of h ≡ text_by_kind kind text.now) }
{
    match kind {
        Kind::Passed => Ok(MemberValue::Nothing),
        Kind::Identity => Ok(uuid_meaning(text)),
        Kind::Description => some_text(alloc, text),
        Kind::Moment => moment_meaning(alloc, text),
        Kind::Depends => Ok(items_meaning(dependencies_in(alloc, text)?)),
        Kind::Tags => Ok(MemberValue::Bad),
        Kind::Annotations => Ok(MemberValue::Bad),
        Kind::Status => text_meaning(alloc, stored_status(text)),
        Kind::Plain => text_meaning(alloc, text),
    }
}

/// The list of items, or a bad field without one.
pub(crate) fn items_meaning(items: Option<Vec<MemberItem>>) -> MemberValue
    ensures { meaning_of result ≡ items_meaning (list_in items) }
{
    match items {
        Some(items) => MemberValue::Items(items),
        None => MemberValue::Bad,
    }
}

fn dependency_of(text: &str) -> Option<MemberItem>
    ensures { option_map item_in result ≡ dependency_of text.now }
{
    match read_uuid(text) {
        Some(uuid) => Some(MemberItem::Dependency(uuid)),
        None => None,
    }
}

/// An item that is a text.
pub(crate) fn item_text(alloc: Global, kind: Kind, text: &str) -> Result<Option<MemberItem>, Memory>
    ensures { IfOk result (λ i. option_map item_in i ≡ item_text kind text.now) }
{
    match kind {
        Kind::Depends => Ok(dependency_of(text)),
        Kind::Tags => Ok(Some(MemberItem::Tag(Text::from_str(alloc, text)?))),
        _ => Ok(None),
    }
}

/// The annotation of a moment and a text.
pub(crate) fn annotated(at: Option<u64>, text: Option<Text>) -> Option<MemberItem>
    ensures { option_map item_in result ≡ annotated at text }
{
    match (at, text) {
        (Some(at), Some(text)) => Some(MemberItem::Annotation(at, text)),
        _ => None,
    }
}
