// Two machines of a user that share a server, and command lines that are run on them one after another.

use crate::given::{Ended, Given};
use crate::link::{Exchange, link_over};
use crate::runs::{machine, run_given};
use std::alloc::Global;
use std::test::Fail;
use tw_cli::Cause;
use tw_server::MemoryLink;
use tw_world::MemoryDisk;

/// The settings by which a machine syncs.
pub(crate) const SETTINGS: &str = "sync.server.url=http://localhost:8080\n\
    sync.server.client_id=1a2b3c4d-0001-4002-8003-00000000000f\n";

/// The machine on which a line is run.
#[derive(Clone, Copy)]
pub(crate) enum On {
    Desk,
    Lap,
}

/// How a line ends.
#[derive(Clone, Copy)]
pub(crate) enum Then {
    /// It prints this.
    Prints(&'static str),
    /// It is carried out.
    Done,
    /// The way to the server fails, and nothing is printed.
    LinkFault,
}

impl Then {
    fn is_met(self, ended: &Ended) -> bool {
        match self {
            Then::Prints(text) => {
                ended.is(0, &Cause::Done) && ended.out.bytes() == text.as_bytes()
            }
            Then::Done => ended.is(0, &Cause::Done),
            Then::LinkFault => ended.is(5, &Cause::LinkFault) && ended.out.bytes().is_empty(),
        }
    }
}

/// A machine, a second, a line of words that are parted by bars, and how it ends.
pub(crate) type Row = (On, u64, &'static str, Then);

/// Two machines and the link to their server. Each run draws identifiers from 1 on.
pub(crate) struct World {
    pub(crate) alloc: Global,
    pub(crate) desk: MemoryDisk,
    pub(crate) lap: MemoryDisk,
    pub(crate) link: MemoryLink,
}

// It is written out, so that a caller does not prove again how each part is dropped.
impl Drop for World {
    fn drop(self) {
        let World {
            alloc: _,
            desk: _,
            lap: _,
            link: _,
        } = self;
    }
}

impl World {
    /// Empty machines, with a link over which these exchanges happen, and then others that arrive.
    pub(crate) fn new(alloc: Global, exchanges: &[Exchange]) -> Result<World, Fail> {
        let desk = machine(alloc)?;
        let lap = machine(alloc)?;
        let link = link_over(alloc, exchanges)?;
        Ok(World {
            alloc,
            desk,
            lap,
            link,
        })
    }

    /// Runs a line.
    pub(crate) fn run(&mut self, on: On, second: u64, line: &str) -> Result<Ended, Fail> {
        let mut given = Given::new(1, second);
        given.settings = SETTINGS;
        let link = &mut self.link;
        match on {
            On::Desk => run_given(self.alloc, &given, line, &mut self.desk, link, &[]),
            On::Lap => run_given(self.alloc, &given, line, &mut self.lap, link, &[]),
        }
    }

    /// Runs lines one after another, and fails with the first one that ends otherwise.
    pub(crate) fn follow(&mut self, rows: &[Row]) -> Result<(), Fail> {
        for (on, second, line, then) in rows {
            if !self.ends(*on, *second, line, *then)? {
                return Err(Fail::new(line));
            }
        }
        Ok(())
    }

    // Runs a line, and compares how it ends.
    fn ends(&mut self, on: On, second: u64, line: &str, then: Then) -> Result<bool, Fail> {
        let ended = self.run(on, second, line)?;
        Ok(then.is_met(&ended))
    }

    /// Whether both machines print one export.
    pub(crate) fn agrees(&mut self, second: u64) -> Result<bool, Fail> {
        let desk = self.run(On::Desk, second, "export")?;
        let lap = self.run(On::Lap, second, "export")?;
        Ok(desk.is(0, &Cause::Done) && desk.out.bytes() == lap.out.bytes())
    }
}
