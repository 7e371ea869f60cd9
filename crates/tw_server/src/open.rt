// Opens a server.
ghost use Rattle.std.specs.Prelude.{◌≡◌, ◌<◌, ◌≤◌, ◌++◌, ◌∷◌, [], false, length, map, IfOk, IfErr, OnOk};
ghost use Rattle.tw_world.specs.Disk.{Tells, LeavesOnly, FaultsRise, Untouched};
ghost use Rattle.tw_journal.specs.Journal.{OnRecords, IsOpenOn, journal_count, journal_found};
ghost use Rattle.tw_journal.specs.Record.{IsLongerBy};
ghost use Rattle.tw_records.specs.Bodies.{block_size, kind_in};
ghost use Rattle.tw_records.specs.Table.{table_in};
ghost use Rattle.tw_records.specs.Opening.{fresh_in, with_block_of};
ghost use Rattle.tw_server.specs.Opening.{IfDamaged, IsDamageBy, IsLongerIf, IsOpenedOn, IsOpening, IsReadBy, LeavesBodies};
ghost use Rattle.tw_server.specs.Opening.{NeverOnLog, OnNothing, ServerOpenRefused, TakeRefused};
ghost use Rattle.tw_server.specs.Server.{is_closed, server_end};

use crate::error::ServerOpenError;
use crate::images::Images;
use crate::server::Server;
use crate::versions::Versions;
use std::alloc::{AllocError, Global};
use tw_journal::Journal;
use tw_records::{block_of, fresh_versions, sources_of};
use tw_world::Disk;

/// The magic of a server's file.
const MAGIC: [u8; 8] = *b"TWSERV01";

impl Server {
    /// Opens the server of a disk, and makes its file if the disk has no record: a journal of the magic `TWSERV01`, with a
    /// record for each accepted version and each stored snapshot, and blocks that name 256 versions once more. A version
    /// that a block names is read there, and not in its own record; of another version or a snapshot it reads what is before
    /// the segment or the bytes. If at least 256 versions come after the last block, it adds a block of the last 256.
    ///
    /// A crash at any moment of the call leaves an image that the disk could leave before, or the records that were
    /// read, or these and the block. `Damaged` is at 0 if the file has another form, and at the first bytes that are no record.
    /// If all records are whole, it is at the first that may not follow those before it, or at a block that names such a one.
    pub fn open<D: Disk>(alloc: Global, disk: &mut D) -> Result<Server, ServerOpenError>
        ensures opened { IfOk result (λ server. Tells D.model disk.old → IsOpenedOn D.model disk.old disk.new server) }
        ensures any_moment { Tells D.model disk.old → LeavesOnly D.model disk.old disk.new (IsOpening D.model disk.old) }
        ensures growth { Tells D.model disk.old → LeavesOnly D.model disk.old disk.new (IsLongerBy D.model disk.old 12294) }
        ensures length { IfOk result (λ server. (D.model.len disk.new ≡ server_end server) × (is_closed server ≡ false)) }
        ensures kept { FaultsRise D.model disk.old disk.new }

        ensures refused { IfErr result (ServerOpenRefused D.model disk.old disk.new) }
        ensures honest { IfErr result (λ e. Tells D.model disk.old → NeverOnLog (D.model.seen disk.old) e) }
    {
        let journal = Journal::open(alloc, disk, &MAGIC)?;
        let mut server = Server {
            journal,
            versions: Versions::new(alloc),
            images: Images::new(alloc),
        };
        let fresh = server.read_all(alloc, disk)?;
        server.add_block(alloc, disk, fresh)?;
        Ok(server)
    }

    // Reads what the records tell, and says how many versions come after the last block.
    fn read_all<D: Disk>(&mut self, alloc: Global, disk: &mut D) -> Result<u64, ServerOpenError>
        requires found { journal_found self.old.journal ≡ journal_count self.old.journal }
        requires open { is_closed self.old ≡ false }
        requires length { D.model.len disk.old ≡ server_end self.old }

        ensures fresh { IfOk result (λ fresh. OnRecords D.model self.old.journal disk.old (λ _ bodies. fresh ≡ fresh_in bodies)) }
        ensures read { OnOk result (OnNothing D.model self.old disk.old (λ bodies. IsReadBy self.new (table_in block_size bodies))) }
        ensures journal { self.new.journal ≡ self.old.journal }
        ensures untouched { Untouched D.model disk.old disk.new }

        ensures refused { IfErr result (TakeRefused D.model disk.old disk.new) }
        ensures damaged { IfErr result (λ e. OnNothing D.model self.old disk.old (λ bodies.
            IfDamaged e (IsDamageBy (D.model.seen disk.old) bodies (table_in block_size bodies)))) }
    {
        let kinds = self.kinds(alloc, &*disk)?;
        let sources = sources_of(alloc, kinds.as_slice())?;
        self.take_all(alloc, disk, sources)?;
        Ok(fresh_versions(kinds.as_slice()))
    }

    // The kinds of all records.
    fn kinds<D: Disk>(&self, alloc: Global, disk: &D) -> Result<Vec<u8>, AllocError>
        requires found { journal_found self.now.journal ≡ journal_count self.now.journal }

        ensures kinds { IfOk result (λ kinds. OnRecords D.model self.now.journal disk.now (λ _ bodies. kinds.items ≡ map kind_in bodies)) }
        ensures count { IfOk result (λ kinds. length kinds.items ≡ journal_count self.now.journal) }
    {
        let mut kinds = Vec::new(alloc);
        for n in 0..self.journal.count() {
            kinds.push(self.journal.first(disk, n))?;
        }
        Ok(kinds)
    }

    // Adds a block of the last 256 versions, if at least so many come after the last block.
    fn add_block<D: Disk>(
        &mut self,
        alloc: Global,
        disk: &mut D,
        fresh: u64,
    ) -> Result<(), ServerOpenError>
        requires open { is_closed self.old ≡ false }
        requires length { D.model.len disk.old ≡ server_end self.old }

        ensures added { OnOk result (OnRecords D.model self.old.journal disk.old (λ magic bodies.
            IsOpenOn D.model magic self.new.journal disk.new (with_block_of self.old.versions.entries.items fresh bodies))) }
        ensures versions { self.new.versions ≡ self.old.versions }
        ensures images { self.new.images ≡ self.old.images }
        ensures any_moment { LeavesBodies D.model self.old disk.old disk.new (with_block_of self.old.versions.entries.items fresh) }
        ensures growth { OnRecords D.model self.old.journal disk.old (λ _ bodies.
            LeavesOnly D.model disk.old disk.new (IsLongerIf D.model disk.old (256 ≤ fresh))) }
        ensures length { OnOk result ((D.model.len disk.new ≡ server_end self.new) × (is_closed self.new ≡ false)) }
        ensures kept { FaultsRise D.model disk.old disk.new }
        ensures refused { IfErr result (TakeRefused D.model disk.old disk.new) }
        ensures honest { IfErr result (λ e. IfDamaged e (λ _. ⊥)) }
    {
        if fresh < 256 {
            return Ok(());
        }
        let entries = self.versions.entries.as_slice();
        let block = block_of(alloc, &entries[entries.len().saturating_sub(256)..])?;
        self.journal.make_room()?;
        if self.journal.append(disk, block.as_slice()).is_err() {
            return Err(ServerOpenError::Disk);
        }
        Ok(())
    }
}
