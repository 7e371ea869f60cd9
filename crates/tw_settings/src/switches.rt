// What settings turn on and off: `timetrack`, and of taskrc(5) the variables `gc`, `recurrence`, `hooks` and `recurrence.limit`.
ghost use Rattle.std.specs.Prelude.{◌≡◌, ◌≤◌, codes};
ghost use Rattle.tw_settings.specs.Switches.{is_off, is_on, is_set_on, is_turned_on, recurrence_limit};

use crate::settings::Settings;
use tw_text::read_u64;

#[tactic(auto, unfolding(crate::specs::Switches::is_off))]
fn is_off(value: &str) -> bool
    ensures { result ≡ is_off value.now }
{
    match value {
        "off" | "no" | "0" => true,
        _ => false,
    }
}

#[tactic(auto, unfolding(crate::specs::Switches::is_on))]
fn is_on(value: &str) -> bool
    ensures { result ≡ is_on value.now }
{
    match value {
        "on" | "yes" | "1" => true,
        _ => false,
    }
}

impl Settings {
    fn is_set_on(&self, name: &str) -> bool
        ensures { result ≡ is_set_on name.now self.now }
    {
        match self.get(name) {
            Some(value) => !is_off(value),
            None => true,
        }
    }

    /// Whether a report packs the numbers of tasks, as it does where nothing else is set. It takes no memory.
    pub fn gc(&self) -> bool
        ensures { result ≡ is_set_on (codes "gc") self.now }
    {
        self.is_set_on("gc")
    }

    /// Whether a report makes instances of recurring tasks, as it does where nothing else is set. It takes no memory.
    pub fn recurrence(&self) -> bool
        ensures { result ≡ is_set_on (codes "recurrence") self.now }
    {
        self.is_set_on("recurrence")
    }

    /// Whether hooks are asked about the tasks that a command makes or changes, as they are where nothing else is set. It takes no memory.
    pub fn hooks(&self) -> bool
        ensures { result ≡ is_set_on (codes "hooks") self.now }
    {
        self.is_set_on("hooks")
    }

    /// Whether active tasks drive intervals of time, which they do only if it is set on. It takes no memory.
    pub fn timetrack(&self) -> bool
        ensures { result ≡ is_turned_on (codes "timetrack") self.now }
    {
        match self.get("timetrack") {
            Some(value) => is_on(value),
            None => false,
        }
    }

    /// How many instances of a recurring task there are to be in the future: 1 where nothing else is set. It takes no memory.
    pub fn recurrence_limit(&self) -> u32
        ensures value { result ≡ recurrence_limit self.now }
        ensures least { 1 ≤ result }
        ensures greatest { result ≤ 100 }
    {
        match self.get("recurrence.limit") {
            Some(text) => match read_u64(text) {
                Some(number) if number >= 1 && number <= 100 => number as u32,
                _ => 1,
            },
            None => 1,
        }
    }
}
