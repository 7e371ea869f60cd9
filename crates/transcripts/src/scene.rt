// A scene of a transcript: machines of one user, the server that they share, and what their commands print.

use crate::directive::Directive;
use crate::given::{Given, moment_of};
use crate::machine::{Ended, Machine};
use crate::printed::Printed;
use crate::stop::Stop;
use crate::way::Way;
use crate::words::words_of;
use std::alloc::Global;
use std::mem::replace;
use tw_server::Fate;
use tw_time::Zone;
use tw_world::{IdWords, Memory};

/// Machines and their server, what their last command printed, and whether it wrote a record.
pub struct Scene {
    alloc: Global,
    given: Given,
    way: Way,
    machines: Vec<Machine>,
    printed: Printed,
    is_changed: bool,
    /// The directive whose block is read, what follows its name, and the lines so far.
    block: Option<Directive>,
    name: String,
    text: String,
}

// It is written out, so that a caller does not prove again how each part is dropped.
impl Drop for Scene {
    fn drop(self) {
        let Scene {
            alloc: _,
            given: _,
            way: _,
            machines: _,
            printed: _,
            is_changed: _,
            block: _,
            name: _,
            text: _,
        } = self;
    }
}

impl Scene {
    pub fn new(alloc: Global) -> Result<Scene, Memory> {
        Ok(Scene {
            alloc,
            given: Given::new(alloc),
            way: Way::new(alloc)?,
            machines: Vec::new(alloc),
            printed: Printed::new(alloc),
            is_changed: false,
            block: None,
            name: String::new(alloc),
            text: String::new(alloc),
        })
    }

    /// Takes the next line: one of a block, one that was printed, a directive, or the empty one that ends the scene.
    pub fn take(&mut self, line: &str) -> Result<bool, Stop> {
        if let Some(directive) = self.block {
            self.take_text(directive, line)?;
        } else if !self.printed.compare(line)? {
            if line.is_empty() {
                return Ok(true);
            }
            let (directive, rest) = Directive::of(line);
            self.follow(directive, rest)?;
        }
        Ok(false)
    }

    /// Fails if a line is still to come.
    pub fn end(&self) -> Result<(), Stop> {
        holds(self.block.is_none(), "no end of a block")?;
        self.printed.end()
    }

    fn follow(&mut self, directive: Directive, rest: &str) -> Result<(), Stop> {
        match directive {
            Directive::Scene => return Err(Stop::Wrong("a title comes after an empty line")),
            Directive::Comment => {}
            Directive::At => self.given.now = moment_of(rest).ok_or(Stop::Wrong("no moment"))?,
            Directive::Ids => self.given.ids = ids_from(rest)?,
            Directive::Zone => self.given.zone = zone_of(rest)?,
            Directive::Setting => push_line(&mut self.given.settings, rest)?,
            Directive::InputFails => self.given.input_fails.push(count(rest)?)?,
            Directive::File | Directive::Input | Directive::Hook => {
                self.name = String::from_str(self.alloc, rest)?;
                self.block = Some(directive);
            }
            Directive::Others => self.add(rest)?,
            Directive::LostRequest => self.way.meet(Fate::LoseRequest, count(rest)?),
            Directive::LostReply => self.way.meet(Fate::LoseReply, count(rest)?),
            Directive::OutputFails => self.given.output_fails = true,
            Directive::Changed => holds(self.is_changed, "no record was written")?,
            Directive::Unchanged => holds(!self.is_changed, "a record was written")?,
            Directive::Agree => self.agree()?,
            Directive::Command => self.run(rest)?,
        }
        Ok(())
    }

    // Takes a line of a block, which an empty one ends.
    fn take_text(&mut self, directive: Directive, line: &str) -> Result<(), Stop> {
        if !line.is_empty() {
            return Ok(push_line(&mut self.text, line)?);
        }
        self.block = None;
        let name = replace(&mut self.name, String::new(self.alloc));
        let text = replace(&mut self.text, String::new(self.alloc));
        match directive {
            Directive::File => self.machine("")?.put_file(name.as_str(), text.as_str()),
            Directive::Hook => self.given.hooks.add(name.as_str(), text.as_str()),
            _ => {
                self.given.input = text;
                Ok(())
            }
        }
    }

    // Has another client add a version: `SEGMENT`, or `after N SEGMENT`.
    fn add(&mut self, line: &str) -> Result<(), Stop> {
        let Some(line) = line.strip_prefix("after ") else {
            return self.way.add(line, 0);
        };
        let Some((digits, segment)) = line.split_once(' ') else {
            return Err(Stop::Wrong("no version"));
        };
        self.way.add(segment, number(digits)?)
    }

    // The machine with this name, which is made if it is not there.
    fn machine(&mut self, name: &str) -> Result<&mut Machine, Stop> {
        let at = self.index_of(name)?;
        self.machines.get_mut(at).ok_or(Stop::Memory)
    }

    fn index_of(&mut self, name: &str) -> Result<usize, Memory> {
        for at in 0..self.machines.len() {
            if self.machines[at].name.as_str() == name {
                return Ok(at);
            }
        }
        self.machines.push(Machine::new(self.alloc, name)?)?;
        Ok(self.machines.len().saturating_sub(1))
    }

    // Runs a command after a prompt.
    fn run(&mut self, line: &str) -> Result<(), Stop> {
        let Some((name, command)) = line.split_once("$ ") else {
            return Err(Stop::Wrong("no directive"));
        };
        let mut words = words_of(self.alloc, command)?;
        if words.len() < 2 {
            return Err(Stop::Wrong("no command"));
        }
        let program = words.remove(0);
        let part = words.remove(0);
        self.printed = Printed::new(self.alloc);
        match (program.as_str(), part.as_str()) {
            ("tw", "task") => self.run_on(name, &words, true),
            ("tw", "timew") => self.run_on(name, &words, false),
            ("cat", file) => self.show_file(name, file),
            _ => Err(Stop::Wrong("no command")),
        }
    }

    fn run_on(&mut self, name: &str, words: &Vec<String>, is_task: bool) -> Result<(), Stop> {
        let at = self.index_of(name)?;
        let Some(machine) = self.machines.get_mut(at) else {
            return Err(Stop::Memory);
        };
        let before = machine.sizes();
        let ended = if is_task {
            machine.run_task(words, &mut self.given, &mut self.way)?
        } else {
            machine.run_timew(words, &self.given)?
        };
        self.is_changed = machine.sizes() != before;
        self.given.spend();
        self.show(&ended)
    }

    // What a command wrote, and its status, are to be compared. One that ends well writes nothing on the standard error, and each
    // other one nothing else.
    fn show(&mut self, ended: &Ended) -> Result<(), Stop> {
        let (status, out, err) = (ended.status, ended.out.bytes(), ended.err.bytes());
        self.printed.push_text(self.alloc, out)?;
        self.printed.push_text(self.alloc, err)?;
        if status == 0 && err.is_empty() {
            return Ok(());
        }
        holds(status != 0 && out.is_empty(), "a text on the wrong stream")?;
        let line = format!(in self.alloc; "[{status}]")?;
        self.printed.push_line(self.alloc, line.as_str())
    }

    fn show_file(&mut self, name: &str, file: &str) -> Result<(), Stop> {
        match self.machine(name)?.file(file) {
            Some(bytes) => self.printed.push_text(self.alloc, &bytes),
            None => self.printed.push_line(self.alloc, "cat: no such file"),
        }
    }

    fn agree(&mut self) -> Result<(), Stop> {
        let words = words_of(self.alloc, "export")?;
        let mut first: Option<Ended> = None;
        for machine in self.machines.iter_mut() {
            let ended = machine.run_task(&words, &mut self.given, &mut self.way)?;
            match &first {
                Some(other) => holds(other.out.bytes() == ended.out.bytes(), "two exports")?,
                None => first = Some(ended),
            }
        }
        Ok(())
    }
}

fn ids_from(text: &str) -> Result<IdWords, Stop> {
    match text.parse::<u128>() {
        Ok(start) => Ok(IdWords { start, step: 1 }),
        Err(_) => Err(Stop::Wrong("no number")),
    }
}

// The number after the name of a directive, or 0.
fn count(text: &str) -> Result<u64, Stop> {
    match text.strip_prefix(" after ") {
        Some(digits) => number(digits),
        None => Ok(0),
    }
}

fn number(digits: &str) -> Result<u64, Stop> {
    digits.parse::<u64>().or(Err(Stop::Wrong("no number")))
}

fn zone_of(rule: &str) -> Result<Zone, Stop> {
    match Zone::read(rule) {
        Ok(zone) => Ok(zone),
        Err(_) => Err(Stop::Wrong("no zone")),
    }
}

fn push_line(text: &mut String, line: &str) -> Result<(), Memory> {
    text.push_str(line)?;
    text.push('\n')?;
    Ok(())
}

fn holds(fact: bool, otherwise: &'static str) -> Result<(), Stop> {
    if fact {
        Ok(())
    } else {
        Err(Stop::Wrong(otherwise))
    }
}
