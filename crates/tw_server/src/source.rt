// Takes what the records of a server tell, one source after another.
ghost use Rattle.std.specs.Prelude.{◌≡◌, ◌<◌, ◌++◌, ◌∷◌, [], false, reverse, IfErr, OnOk, All};
ghost use Rattle.tw_world.specs.Disk.{Untouched};
ghost use Rattle.tw_journal.specs.Journal.{journal_count};
ghost use Rattle.tw_journal.specs.Window.{IsWindowOn};
ghost use Rattle.tw_records.specs.Bodies.{block_size};
ghost use Rattle.tw_records.specs.Table.{table_by};
ghost use Rattle.tw_records.specs.declared.walk.Source.TheVariants.{Own, Named, Block, Stored};
ghost use Rattle.tw_records.specs.Opening.{IsInside};
ghost use Rattle.tw_server.specs.Opening.{IfDamaged, IsBadSource, IsDamageBy, IsDamageOf, IsImageMore, IsReadBy, OnNothing};
ghost use Rattle.tw_server.specs.Opening.{TakeRefused, TakesSource, no_rows};
ghost use Rattle.tw_server.specs.declared.error.ServerOpenError.TheVariants.{Memory as no_memory};
ghost use Rattle.tw_server.specs.Server.{is_closed, server_end};

use crate::error::ServerOpenError;
use crate::front::read_front;
use crate::images::Placed;
use crate::reader::Reader;
use crate::server::Server;
use std::alloc::Global;
use tw_records::{Entry, Image, Source, is_block_body};
use tw_world::Disk;

impl Server {
    // Takes what all sources tell, of which the last one comes first.
    pub(crate) fn take_all<D: Disk>(
        &mut self,
        alloc: Global,
        disk: &mut D,
        mut sources: Vec<Source>,
    ) -> Result<(), ServerOpenError>
        requires inside { All (IsInside (journal_count self.old.journal)) sources.items }
        requires open { is_closed self.old ≡ false }
        requires length { D.model.len disk.old ≡ server_end self.old }

        ensures taken { OnOk result (OnNothing D.model self.old disk.old (λ bodies.
            IsReadBy self.new (table_by block_size bodies no_rows (reverse sources.items)))) }
        ensures journal { self.new.journal ≡ self.old.journal }
        ensures untouched { Untouched D.model disk.old disk.new }

        ensures refused { IfErr result (TakeRefused D.model disk.old disk.new) }
        ensures damaged { IfErr result (λ e. OnNothing D.model self.old disk.old (λ bodies.
            IfDamaged e (IsDamageBy (D.model.seen disk.old) bodies (table_by block_size bodies no_rows (reverse sources.items))))) }
    {
        let mut reader = Reader::on(alloc, &*disk);
        while let Some(source) = sources.pop() {
            self.take(alloc, &mut reader, disk, &source)?;
            release(&mut sources);
        }
        Ok(())
    }

    // Takes what one source tells.
    fn take<D: Disk>(
        &mut self,
        alloc: Global,
        reader: &mut Reader,
        disk: &mut D,
        source: &Source,
    ) -> Result<(), ServerOpenError>
        requires inside { IsInside (journal_count self.old.journal) source.now }
        requires open { is_closed self.old ≡ false }
        requires length { D.model.len disk.old ≡ server_end self.old }
        requires window { IsWindowOn D.model disk.old reader.old.window }

        ensures taken { OnOk result (TakesSource D.model self.old self.new reader.old reader.new disk.old source.now) }
        ensures journal { self.new.journal ≡ self.old.journal }
        ensures window { OnOk result (IsWindowOn D.model disk.new reader.new.window) }
        ensures untouched { Untouched D.model disk.old disk.new }

        ensures refused { IfErr result (TakeRefused D.model disk.old disk.new) }
        ensures damaged { IfErr result (IsBadSource D.model self.old reader.old disk.old source.now) }
    {
        match *source {
            Source::Own { number } => self.take_own(alloc, reader, disk, number),
            Source::Named {
                block,
                place,
                number,
            } => self.take_named(alloc, reader, disk, block as u64, place as u64, number),
            Source::Block { number } => self.take_block(alloc, reader, disk, number as u64),
            Source::Stored { number } => self.take_stored(alloc, reader, disk, number as u64),
            Source::Odd { number } => Err(self.damaged(disk, number as u64)),
        }
    }

    // Takes the version that its own record tells.
    fn take_own<D: Disk>(
        &mut self,
        alloc: Global,
        reader: &mut Reader,
        disk: &mut D,
        n: u32,
    ) -> Result<(), ServerOpenError>
        requires inside { n < journal_count self.old.journal }
        requires open { is_closed self.old ≡ false }
        requires length { D.model.len disk.old ≡ server_end self.old }
        requires window { IsWindowOn D.model disk.old reader.old.window }

        ensures taken { OnOk result (TakesSource D.model self.old self.new reader.old reader.new disk.old (Own n)) }
        ensures journal { self.new.journal ≡ self.old.journal }
        ensures window { OnOk result (IsWindowOn D.model disk.new reader.new.window) }
        ensures untouched { Untouched D.model disk.old disk.new }

        ensures refused { IfErr result (TakeRefused D.model disk.old disk.new) }
        ensures damaged { IfErr result (IsBadSource D.model self.old reader.old disk.old (Own n)) }
    {
        let front = read_front(&self.journal, alloc, &mut reader.window, disk, n as u64)?;
        match self.next_entry(front.as_slice()) {
            Some(entry) => self.take_version(entry, n),
            None => Err(self.damaged(disk, n as u64)),
        }
    }

    // Takes the version that a block names at this place.
    fn take_named<D: Disk>(
        &mut self,
        alloc: Global,
        reader: &mut Reader,
        disk: &mut D,
        block: u64,
        place: u64,
        n: u32,
    ) -> Result<(), ServerOpenError>
        requires block { block < journal_count self.old.journal }
        requires place { place < block_size }
        requires inside { n < journal_count self.old.journal }
        requires open { is_closed self.old ≡ false }
        requires length { D.model.len disk.old ≡ server_end self.old }
        requires window { IsWindowOn D.model disk.old reader.old.window }

        ensures taken { OnOk result (TakesSource D.model self.old self.new reader.old reader.new disk.old (Named block place n)) }
        ensures journal { self.new.journal ≡ self.old.journal }
        ensures window { OnOk result (IsWindowOn D.model disk.new reader.new.window) }
        ensures untouched { Untouched D.model disk.old disk.new }

        ensures refused { IfErr result (TakeRefused D.model disk.old disk.new) }
        ensures damaged { IfErr result (IsBadSource D.model self.old reader.old disk.old (Named block place n)) }
    {
        reader.show(alloc, &self.journal, disk, block)?;
        match self.next_named(reader.body.as_slice(), place as usize) {
            Some(entry) => self.take_version(entry, n),
            None => Err(self.damaged(disk, block)),
        }
    }

    // Takes a block, which tells nothing more.
    fn take_block<D: Disk>(
        &self,
        alloc: Global,
        reader: &mut Reader,
        disk: &mut D,
        n: u64,
    ) -> Result<(), ServerOpenError>
        requires inside { n < journal_count self.now.journal }
        requires open { is_closed self.now ≡ false }
        requires length { D.model.len disk.old ≡ server_end self.now }
        requires window { IsWindowOn D.model disk.old reader.old.window }

        ensures taken { OnOk result (TakesSource D.model self.now self.now reader.old reader.new disk.old (Block n)) }
        ensures window { OnOk result (IsWindowOn D.model disk.new reader.new.window) }
        ensures untouched { Untouched D.model disk.old disk.new }

        ensures refused { IfErr result (TakeRefused D.model disk.old disk.new) }
        ensures damaged { IfErr result (IsBadSource D.model self.now reader.old disk.old (Block n)) }
    {
        reader.show(alloc, &self.journal, disk, n)?;
        if is_block_body(reader.body.as_slice()) {
            return Ok(());
        }
        Err(self.damaged(disk, n))
    }

    // Takes the snapshot of a record.
    fn take_stored<D: Disk>(
        &mut self,
        alloc: Global,
        reader: &mut Reader,
        disk: &mut D,
        n: u64,
    ) -> Result<(), ServerOpenError>
        requires inside { n < journal_count self.old.journal }
        requires open { is_closed self.old ≡ false }
        requires length { D.model.len disk.old ≡ server_end self.old }
        requires window { IsWindowOn D.model disk.old reader.old.window }

        ensures taken { OnOk result (TakesSource D.model self.old self.new reader.old reader.new disk.old (Stored n)) }
        ensures journal { self.new.journal ≡ self.old.journal }
        ensures window { OnOk result (IsWindowOn D.model disk.new reader.new.window) }
        ensures untouched { Untouched D.model disk.old disk.new }

        ensures refused { IfErr result (TakeRefused D.model disk.old disk.new) }
        ensures damaged { IfErr result (IsBadSource D.model self.old reader.old disk.old (Stored n)) }
    {
        let front = read_front(&self.journal, alloc, &mut reader.window, disk, n)?;
        match self.next_image(front.as_slice()) {
            Some(image) => self.take_image(image, n),
            None => Err(self.damaged(disk, n)),
        }
    }

    // The record with this number may not follow those before it.
    fn damaged<D: Disk>(&self, disk: &mut D, n: u64) -> ServerOpenError
        requires inside { n < journal_count self.now.journal }
        requires length { is_closed self.now ≡ false → D.model.len disk.old ≡ server_end self.now }

        ensures at { IsDamageOf D.model self.now disk.old n result }
        ensures untouched { Untouched D.model disk.old disk.new }
        ensures refused { is_closed self.now ≡ false → TakeRefused D.model disk.old disk.new result }
    {
        match self.journal.offset(disk, n) {
            Ok(offset) => ServerOpenError::Damaged { offset },
            Err(error) => ServerOpenError::from(error),
        }
    }

    // Takes the version of the record with this number.
    fn take_version(&mut self, entry: Entry, n: u32) -> Result<(), ServerOpenError>
        requires inside { n < journal_count self.old.journal }

        ensures journal { self.new.journal ≡ self.old.journal }
        ensures entries { OnOk result (self.new.versions.entries.items ≡ self.old.versions.entries.items ++ entry ∷ []) }
        ensures numbers { OnOk result (self.new.versions.numbers.items ≡ self.old.versions.numbers.items ++ n ∷ []) }
        ensures images { self.new.images ≡ self.old.images }
        ensures refused { IfErr result (λ e. e ≡ no_memory) }
    {
        self.versions.make_room(&entry)?;
        self.versions.push(entry, n);
        Ok(())
    }

    // Takes the snapshot of the record with this number.
    fn take_image(&mut self, image: Image, n: u64) -> Result<(), ServerOpenError>
        requires inside { n < journal_count self.old.journal }

        ensures journal { self.new.journal ≡ self.old.journal }
        ensures versions { self.new.versions ≡ self.old.versions }
        ensures images { OnOk result (IsImageMore self.old self.new image n) }
        ensures refused { IfErr result (λ e. e ≡ no_memory) }
    {
        self.images.make_room(image.client)?;
        let placed = Placed {
            version: image.version,
            number: n,
        };
        self.images.put(image.client, placed);
        Ok(())
    }
}

// Gives back the memory of sources that were taken, half of it at a time.
fn release(sources: &mut Vec<Source>)
    ensures { sources.new.items ≡ sources.old.items }
{
    if sources.len() <= sources.capacity() / 2 {
        sources.shrink_to_fit();
    }
}
