// The calls of an object in memory: which of them are to fail, how many were made, and how many failed.
ghost use Rattle.std.specs.Prelude.{◌≡◌, ◌≤◌, true, false};

pub struct Calls {
    pub fails: Vec<u64>,
    pub made: u64,
    pub faults: u64,
}

// It is written out, so that a caller does not prove again how each part is dropped.
impl Drop for Calls {
    fn drop(self) {
        let Calls {
            fails: _,
            made: _,
            faults: _,
        } = self;
    }
}

impl Calls {
    ghost use Rattle.tw_world.specs.Calls.{is_named, counted, failed};

    pub fn new(fails: Vec<u64>) -> Calls
        ensures { result ≡ record { fails = fails; made = 0; faults = 0 } }
    {
        Calls {
            fails,
            made: 0,
            faults: 0,
        }
    }

    /// Counts a call. Is it one that is to fail? Then its fault is counted too.
    pub fn begin(&mut self) -> bool
        ensures named { result ≡ is_named self.old }
        ensures failed { result ≡ true → self.new ≡ failed (counted self.old) }
        ensures counted { result ≡ false → self.new ≡ counted self.old }
        ensures later { self.old.faults ≤ self.new.faults }
        ensures fails { self.new.fails ≡ self.old.fails }
    {
        let call = self.made;
        self.made = self.made.saturating_add(1);
        if self.fails.contains(&call) {
            self.fault();
            return true;
        }
        false
    }

    /// Counts a fault.
    pub fn fault(&mut self)
        ensures failed { self.new ≡ failed self.old }
        ensures later { self.old.faults ≤ self.new.faults }
        ensures fails { self.new.fails ≡ self.old.fails }
    {
        self.faults = self.faults.saturating_add(1);
    }
}
