// The calls that read the records of an open journal.
ghost use Rattle.std.specs.Prelude.{◌≡◌, ◌<◌, ◌≤◌, ◌+◌, ◌^◌, length, take, drop, true, false, IfOk, IfErr};
ghost use Rattle.tw_world.specs.Disk.{Tells, Untouched};
ghost use Rattle.tw_journal.specs.Record.{first_in};
ghost use Rattle.tw_journal.specs.Form.{offset_in};
ghost use Rattle.tw_journal.specs.Window.{IsWindowOn};
ghost use Rattle.tw_journal.specs.Reading.{IsRecord, IsSpanOf};
ghost use Rattle.tw_journal.specs.Journal.{OnRecords, OnBody, journal_start, journal_end, journal_count, journal_found, is_closed};
ghost use Rattle.tw_journal.specs.Journal.{HasRecordAt, HasBody, HasLength, HasOffset, HasPart, ReadRefused, PartRefused, IsNoRecordAt, IsNoPartAt};

use crate::error::ReadError;
use crate::journal::Journal;
use crate::record::{find_offset, is_inside, read_body, read_size};
use crate::window::Window;
use std::alloc::Global;
use tw_world::Disk;

/// The offset of a record in the file, and how many bytes its body has.
#[derive(Clone, Copy, Drop)]
struct Span {
    at: u64,
    size: u64,
}

impl Journal {
    /// The body of the record with number `n`, from 0.
    pub fn body<D: Disk>(&self, alloc: Global, disk: &mut D, n: u64) -> Result<Vec<u8>, ReadError>
        requires inside { n < journal_count self.now }
        requires length { is_closed self.now ≡ false → D.model.len disk.old ≡ journal_end self.now }

        ensures body { IfOk result (λ body. OnBody D.model self.now disk.old n (λ stored. body.items ≡ stored)) }
        ensures stands { IfOk result (λ body. Tells D.model disk.old → HasBody self.now (D.model.seen disk.old) n body.items) }
        ensures untouched { Untouched D.model disk.old disk.new }
        ensures refused { IfErr result (λ e. ReadRefused D.model disk.old disk.new self.now e) }
        ensures damaged { IfErr result (IsNoRecordAt D.model disk.old self.now n) }
        ensures closed { is_closed self.now ≡ true → result ≡ Err ReadError.Closed }
    {
        let mut window = Window::none(&*disk);
        self.body_through(alloc, &mut window, disk, n)
    }

    /// The same through a window on that disk, for bodies that are read in their order: what a window of 64 KiB shows
    /// is read by one call of the disk. A window serves for as long as its disk is only read.
    pub fn body_through<D: Disk>(
        &self,
        alloc: Global,
        window: &mut Window,
        disk: &mut D,
        n: u64,
    ) -> Result<Vec<u8>, ReadError>
        requires inside { n < journal_count self.now }
        requires length { is_closed self.now ≡ false → D.model.len disk.old ≡ journal_end self.now }
        requires window { IsWindowOn D.model disk.old window.old }

        ensures body { IfOk result (λ body. OnBody D.model self.now disk.old n (λ stored. body.items ≡ stored)) }
        ensures stands { IfOk result (λ body. Tells D.model disk.old → HasBody self.now (D.model.seen disk.old) n body.items) }
        ensures window { IsWindowOn D.model disk.new window.new }
        ensures untouched { Untouched D.model disk.old disk.new }
        ensures refused { IfErr result (λ e. ReadRefused D.model disk.old disk.new self.now e) }
        ensures damaged { IfErr result (IsNoRecordAt D.model disk.old self.now n) }
        ensures closed { is_closed self.now ≡ true → result ≡ Err ReadError.Closed }
    {
        let span = self.look_up(window, disk, n)?;
        let body = read_body(alloc, window, disk, span.at + 5, self.end, span.size)?;
        Ok(body)
    }

    /// The offset in the file of the gate of the record with number `n`. It is refused if its body is.
    pub fn offset<D: Disk>(&self, disk: &mut D, n: u64) -> Result<u64, ReadError>
        requires inside { n < journal_count self.now }
        requires length { is_closed self.now ≡ false → D.model.len disk.old ≡ journal_end self.now }

        ensures stands { IfOk result (λ offset. Tells D.model disk.old → IsRecord (drop offset (D.model.seen disk.old))) }
        ensures way { IfOk result (λ at. Tells D.model disk.old → HasOffset self.now (D.model.seen disk.old) n at) }
        ensures offset { IfOk result (λ at. OnRecords D.model self.now disk.old (λ magic bodies. at ≡ offset_in magic (D.model.seen disk.old) bodies n)) }
        ensures untouched { Untouched D.model disk.old disk.new }
        ensures refused { IfErr result (λ e. ReadRefused D.model disk.old disk.new self.now e) }
        ensures damaged { IfErr result (IsNoRecordAt D.model disk.old self.now n) }
        ensures closed { is_closed self.now ≡ true → result ≡ Err ReadError.Closed }
    {
        let mut window = Window::none(&*disk);
        Ok(self.look_up(&mut window, disk, n)?.at)
    }

    /// The length of the body of the record with number `n`. It is refused if its body is.
    pub fn length<D: Disk>(&self, disk: &mut D, n: u64) -> Result<u64, ReadError>
        requires inside { n < journal_count self.now }
        requires length { is_closed self.now ≡ false → D.model.len disk.old ≡ journal_end self.now }

        ensures length { IfOk result (λ size. OnBody D.model self.now disk.old n (λ stored. size ≡ length stored)) }
        ensures stands { IfOk result (λ size. Tells D.model disk.old → HasLength self.now (D.model.seen disk.old) n size) }
        ensures untouched { Untouched D.model disk.old disk.new }
        ensures refused { IfErr result (λ e. ReadRefused D.model disk.old disk.new self.now e) }
        ensures damaged { IfErr result (IsNoRecordAt D.model disk.old self.now n) }
        ensures closed { is_closed self.now ≡ true → result ≡ Err ReadError.Closed }
    {
        let mut window = Window::none(&*disk);
        Ok(self.look_up(&mut window, disk, n)?.size)
    }

    /// So many bytes of that body, from this one on. `Damaged` has the offset of what is no record, or of one whose body is too short.
    pub fn part<D: Disk>(
        &self,
        alloc: Global,
        disk: &mut D,
        n: u64,
        from: u64,
        len: u64,
    ) -> Result<Vec<u8>, ReadError>
        requires inside { n < journal_count self.now }
        requires length { is_closed self.now ≡ false → D.model.len disk.old ≡ journal_end self.now }

        ensures part { IfOk result (λ part. OnBody D.model self.now disk.old n (λ stored. part.items ≡ take len (drop from stored))) }
        ensures stands { IfOk result (λ part. Tells D.model disk.old → HasPart self.now (D.model.seen disk.old) n from part.items) }
        ensures long { IfOk result (λ part. length part.items ≡ len) }
        ensures untouched { Untouched D.model disk.old disk.new }
        ensures refused { IfErr result (λ e. PartRefused D.model disk.old disk.new self.now n from len e) }
        ensures damaged { IfErr result (IsNoPartAt D.model disk.old self.now n from len) }
        ensures closed { is_closed self.now ≡ true → result ≡ Err ReadError.Closed }
    {
        let mut window = Window::none(&*disk);
        self.part_through(alloc, &mut window, disk, n, from, len)
    }

    /// The same through a window, as `body_through`: of records that are read in their order, short parts cost few calls of the disk.
    pub fn part_through<D: Disk>(
        &self,
        alloc: Global,
        window: &mut Window,
        disk: &mut D,
        n: u64,
        from: u64,
        len: u64,
    ) -> Result<Vec<u8>, ReadError>
        requires inside { n < journal_count self.now }
        requires length { is_closed self.now ≡ false → D.model.len disk.old ≡ journal_end self.now }
        requires window { IsWindowOn D.model disk.old window.old }

        ensures part { IfOk result (λ part. OnBody D.model self.now disk.old n (λ stored. part.items ≡ take len (drop from stored))) }
        ensures stands { IfOk result (λ part. Tells D.model disk.old → HasPart self.now (D.model.seen disk.old) n from part.items) }
        ensures long { IfOk result (λ part. length part.items ≡ len) }
        ensures window { IsWindowOn D.model disk.new window.new }
        ensures untouched { Untouched D.model disk.old disk.new }
        ensures refused { IfErr result (λ e. PartRefused D.model disk.old disk.new self.now n from len e) }
        ensures damaged { IfErr result (IsNoPartAt D.model disk.old self.now n from len) }
        ensures closed { is_closed self.now ≡ true → result ≡ Err ReadError.Closed }
    {
        let span = self.look_up(window, disk, n)?;
        if !is_inside(from, len, span.size) {
            return Err(ReadError::Damaged { offset: span.at });
        }
        let part = read_body(alloc, window, disk, span.at + 5 + from, self.end, len)?;
        Ok(part)
    }

    /// The first byte of the body of a record that the opening found, or 0 if that body is empty. It was kept then: no call of the disk
    /// is made.
    pub fn first<D: Disk>(&self, _disk: &D, n: u64) -> u8
        requires found { n < journal_found self.now }
        ensures first { OnBody D.model self.now _disk.now n (λ body. result ≡ first_in body) }
    {
        self.firsts[n as usize]
    }

    // The record with number `n`.
    fn look_up<D: Disk>(&self, window: &mut Window, disk: &mut D, n: u64) -> Result<Span, ReadError>
        requires inside { n < journal_count self.now }
        requires length { is_closed self.now ≡ false → D.model.len disk.old ≡ journal_end self.now }
        requires window { IsWindowOn D.model disk.old window.old }

        ensures found { IfOk result (λ span. OnRecords D.model self.now disk.old (λ magic bodies. IsSpanOf (journal_start self.now) bodies n span)) }
        ensures stands { IfOk result (λ span. Tells D.model disk.old → HasRecordAt self.now (D.model.seen disk.old) n span.at span.size) }
        ensures inside { IfOk result (λ span. (is_closed self.now ≡ false) × (span.at + 5 + span.size ≤ journal_end self.now) × (span.size < 2 ^ 32)) }
        ensures window { IsWindowOn D.model disk.new window.new }
        ensures untouched { Untouched D.model disk.old disk.new }
        ensures refused { IfErr result (λ e. ReadRefused D.model disk.old disk.new self.now e) }
        ensures damaged { IfErr result (IsNoRecordAt D.model disk.old self.now n) }
        ensures closed { is_closed self.now ≡ true → result ≡ Err ReadError.Closed }
    {
        if self.closed {
            return Err(ReadError::Closed);
        }
        let at = find_offset(window, disk, &self.offsets, self.start, n, self.end)?;
        let size = read_size(window, disk, at, self.end)?;
        Ok(Span { at, size })
    }
}
