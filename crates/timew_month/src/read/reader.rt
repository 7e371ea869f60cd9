// Reading what a line has after its moments, byte by byte: its tags and its annotation.
ghost use Rattle.std.specs.Prelude.{◌≡◌, ◌==◌, cond, Some, None, OnOk, IfOk, IfSome, true, false};
ghost use Rattle.std.specs.Str.{is_utf8};
ghost use Rattle.tw_world.specs.Folder.{add_name as add_tag};
ghost use Rattle.timew_month.specs.Tail.{reading_of, stepped, moved, failed, ended, marked};
ghost use Rattle.timew_interval.specs.Line.{is_special};
ghost use Rattle.timew_interval.specs.Line.{is_escaped};
ghost use Rattle.timew_month.specs.Tail.{start, with_tag, with_byte, with_last, with_note};

use std::alloc::Global;
use timew_interval::{Texts, add_tag, is_control, is_escaped, is_special};
use tw_world::{Memory, Text};

/// What a reader has come to.
#[derive(Clone, Copy)]
pub enum Mode {
    // a tag or the sign of an annotation is to come
    Ahead,
    // in a tag without quotes
    Bare,
    // in a quoted tag, and after a backslash in it
    Quoted,
    Escaped,
    // after a quoted tag
    Closed,
    // after the sign of an annotation, and after its space
    Sign,
    Noted,
    // in an annotation without quotes
    Plain,
    // in a quoted annotation, after a backslash in it, and after it
    Quote,
    Backslash,
    Done,
    // this is no line
    Failed,
}

/// Reads the tags and the annotation of a line, byte by byte.
#[derive(Drop)]
pub struct Reader {
    mode: Mode,
    text: Vec<u8>,
    tags: Vec<Text>,
}

/// The bytes as a text, if they are UTF-8.
pub fn as_text(bytes: &[u8]) -> Option<&str>
    ensures utf8 { result ≡ None → is_utf8 bytes.now ≡ false }
    ensures text { IfSome result (λ text. (is_utf8 bytes.now ≡ true) × (text.now ≡ bytes.now)) }
{
    match std::str::from_utf8(bytes) {
        Ok(text) => Some(text),
        Err(_) => None,
    }
}

impl Reader {
    /// A reader of at most so many bytes, which are one text or some.
    pub fn new(alloc: Global, len: usize) -> Result<Reader, Memory>
        ensures { IfOk result (λ reader. reading_of reader ≡ start) }
    {
        Ok(Reader {
            mode: Mode::Ahead,
            text: Vec::with_capacity(alloc, len)?,
            tags: Vec::with_capacity(alloc, 2)?,
        })
    }

    fn put(&mut self, mode: Mode, byte: u8) -> Result<(), Memory>
        ensures { OnOk result (reading_of self.new ≡ with_byte mode byte (reading_of self.old)) }
    {
        self.text.push(byte)?;
        self.mode = mode;
        Ok(())
    }

    // The tag ends.
    fn end_tag(&mut self, alloc: Global) -> Result<(), Memory>
        ensures { OnOk result (reading_of self.new ≡ with_tag (reading_of self.old)) }
    {
        match as_text(&self.text) {
            Some(tag) => {
                add_tag(alloc, &mut self.tags, tag)?;
                self.text.clear();
                self.mode = Mode::Ahead;
            }
            None => self.mode = Mode::Failed,
        }
        Ok(())
    }

    /// Takes the next byte.
    pub fn step(&mut self, alloc: Global, byte: u8) -> Result<(), Memory>
        ensures { OnOk result (reading_of self.new ≡ stepped (reading_of self.old) byte) }
    {
        if is_control(byte) {
            self.mode = Mode::Failed;
            return Ok(());
        }
        match self.mode {
            Mode::Ahead => self.step_ahead(byte)?,
            Mode::Bare => self.step_bare(alloc, byte)?,
            Mode::Quoted => self.step_quoted(byte)?,
            Mode::Escaped => self.step_escaped(byte, Mode::Quoted)?,
            Mode::Closed => self.step_closed(alloc, byte)?,
            Mode::Sign => self.mode = if byte == b' ' {
                Mode::Noted
            } else {
                Mode::Failed
            },
            Mode::Noted => self.step_noted(byte)?,
            Mode::Plain => self.put(Mode::Plain, byte)?,
            Mode::Quote => self.step_quote(byte)?,
            Mode::Backslash => self.step_escaped(byte, Mode::Quote)?,
            Mode::Done => self.mode = Mode::Failed,
            Mode::Failed => {}
        }
        Ok(())
    }

    fn step_ahead(&mut self, byte: u8) -> Result<(), Memory>
        ensures { OnOk result (reading_of self.new ≡ moved Mode.Ahead byte (reading_of self.old)) }
    {
        match byte {
            b'"' => self.mode = Mode::Quoted,
            b'#' => self.mode = Mode::Sign,
            b' ' | b'\\' => self.mode = Mode::Failed,
            _ => self.put(Mode::Bare, byte)?,
        }
        Ok(())
    }

    fn step_bare(&mut self, alloc: Global, byte: u8) -> Result<(), Memory>
        ensures { OnOk result (reading_of self.new ≡ moved Mode.Bare byte (reading_of self.old)) }
    {
        if byte == b' ' {
            return self.end_tag(alloc);
        }
        if is_special(byte) {
            self.mode = Mode::Failed;
            return Ok(());
        }
        self.put(Mode::Bare, byte)
    }

    fn step_quoted(&mut self, byte: u8) -> Result<(), Memory>
        ensures { OnOk result (reading_of self.new ≡ moved Mode.Quoted byte (reading_of self.old)) }
    {
        match byte {
            b'"' => self.mode = Mode::Closed,
            b'\\' => self.mode = Mode::Escaped,
            _ => self.put(Mode::Quoted, byte)?,
        }
        Ok(())
    }

    fn step_escaped(&mut self, byte: u8, back: Mode) -> Result<(), Memory>
        ensures { OnOk result (reading_of self.new ≡ cond (is_escaped byte) (with_byte back byte (reading_of self.old)) (failed (reading_of self.old))) }
    {
        if is_escaped(byte) {
            self.put(back, byte)
        } else {
            self.mode = Mode::Failed;
            Ok(())
        }
    }

    fn step_closed(&mut self, alloc: Global, byte: u8) -> Result<(), Memory>
        ensures { OnOk result (reading_of self.new ≡ moved Mode.Closed byte (reading_of self.old)) }
    {
        if byte == b' ' && self.text.len() > 0 {
            return self.end_tag(alloc);
        }
        self.mode = Mode::Failed;
        Ok(())
    }

    fn step_noted(&mut self, byte: u8) -> Result<(), Memory>
        ensures { OnOk result (reading_of self.new ≡ moved Mode.Noted byte (reading_of self.old)) }
    {
        if byte == b'"' {
            self.mode = Mode::Quote;
            Ok(())
        } else {
            self.put(Mode::Plain, byte)
        }
    }

    fn step_quote(&mut self, byte: u8) -> Result<(), Memory>
        ensures { OnOk result (reading_of self.new ≡ moved Mode.Quote byte (reading_of self.old)) }
    {
        match byte {
            b'"' => self.mode = Mode::Done,
            b'\\' => self.mode = Mode::Backslash,
            _ => self.put(Mode::Quote, byte)?,
        }
        Ok(())
    }

    // The tags with the last one, and no annotation.
    fn last_tag(self, alloc: Global) -> Result<Option<(Texts, Text)>, Memory>
        ensures { IfOk result (λ read. read ≡ with_last (reading_of self)) }
    {
        let Reader {
            mode: _,
            text,
            tags,
        } = self;
        let mut tags = tags;
        match as_text(&text) {
            Some(tag) => {
                add_tag(alloc, &mut tags, tag)?;
                Ok(Some((Texts::of(alloc, tags), Text::from_str(alloc, "")?)))
            }
            None => Ok(None),
        }
    }

    fn note(self, alloc: Global) -> Result<Option<(Texts, Text)>, Memory>
        ensures { IfOk result (λ read. read ≡ with_note (reading_of self)) }
    {
        let Reader {
            mode: _,
            text,
            tags,
        } = self;
        match as_text(&text) {
            Some(note) => Ok(Some((Texts::of(alloc, tags), Text::from_str(alloc, note)?))),
            None => Ok(None),
        }
    }

    /// What was read, if it is whole.
    pub fn end(self, alloc: Global) -> Result<Option<(Texts, Text)>, Memory>
        ensures { IfOk result (λ read. read ≡ ended (reading_of self)) }
    {
        match self.mode {
            Mode::Bare => self.last_tag(alloc),
            Mode::Closed if self.text.len() > 0 => self.last_tag(alloc),
            Mode::Plain | Mode::Done => self.note(alloc),
            _ => Ok(None),
        }
    }
}

/// The tags and the annotation after ` # `.
#[tactic(auto, unfolding(crate::specs::Tail::marked))]
pub(crate) fn marked_by_steps(alloc: Global, bytes: &[u8]) -> Result<Option<(Texts, Text)>, Memory>
    ensures { IfOk result (λ read. read ≡ marked bytes.now) }
{
    let mut reader = Reader::new(alloc, bytes.len())?;
    for byte in bytes {
        reader.step(alloc, *byte)?;
    }
    reader.end(alloc)
}
