// The places that hints are about.

use tw_world::Text;

/// Why a journal's file was not opened.
#[derive(Clone, Copy, Drop)]
pub enum NotOpened {
    /// The program may not read or write it.
    Rights,
    /// A folder has its name.
    Folder,
    /// A file has the name of one of its folders.
    InTheWay,
    /// Its disk can only be read.
    ReadOnly,
    /// Something else.
    Other,
}

/// The places that a run used.
pub struct Places {
    /// The path of the settings' file.
    pub settings: Text,
    /// The path of the journal that the command line is about: that of the tasks, or of the hours.
    pub journal: Text,
    /// Why that journal was not opened, if it was not.
    pub not_opened: Option<NotOpened>,
    /// The folder of the hours.
    pub hours: Text,
    /// The sync server, as `HOST:PORT`.
    pub server: Text,
}

// It is written out, so that a caller does not prove again how each part is dropped.
impl Drop for Places {
    fn drop(self) {
        let Places {
            settings: _,
            journal: _,
            not_opened: _,
            hours: _,
            server: _,
        } = self;
    }
}
