// The standard input.
ghost use Rattle.std.specs.Prelude.{None};

use crate::hint::hint_line;
use std::io;
use std::io::{IsTerminal, Read};
use tw_streams::Reader;

/// The standard input of the program, and whether it was read from. The first read says what is awaited, if a person has to type it.
#[derive(Drop)]
pub struct Input<'a> {
    rt: &'a HostRuntime,
    is_begun: bool,
}

impl<'a> Input<'a> {
    /// The input from its front on.
    pub fn new(rt: &'a HostRuntime) -> Input<'a> {
        Input {
            rt,
            is_begun: false,
        }
    }
}

impl Reader for Input<'_> {
    ghost remaining = { λ input. None };

    ghost may_not_read = { Unit {0} };

    fn read_next(&mut self, buf: &mut [u8]) -> io::Result<usize> {
        if !self.is_begun {
            self.is_begun = true;
            if self.rt.stdin().is_terminal() {
                hint_line(
                    self.rt,
                    "tw: reads tasks as JSON from the terminal; end it by Ctrl-D\n",
                );
            }
        }
        self.rt.stdin().read(buf)
    }
}
