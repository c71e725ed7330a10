// The lines that are read, and the answers to them.
ghost use Rattle.console.specs.Input.{ReadsOn};

use crate::script::{Action, Change, Command, Unread, parse_command, read_line};
use frames::frame::Frame;
use frametext::payload_text::PayloadText;
use std::alloc::Global;
use std::fmt::Display;
use std::io;
use std::io::{BufRead, BufReader, Lines, Stdin};
use std::num::Saturating;

// What is left of the input, and how many lines of it were read.
#[derive(Drop)]
pub struct Session {
    rt: HostRuntime,
    lines: Lines<BufReader<Stdin>>,
    number: Saturating<u64>,
}

impl Session {
    // A session before its first line.
    pub fn new(rt: HostRuntime) -> io::Result<Session> {
        let lines = BufReader::new(rt.alloc(), rt.stdin())?.lines(rt.alloc());
        Ok(Session {
            rt,
            lines,
            number: Saturating(0),
        })
    }

    // What the session allocates by.
    pub fn heap(&self) -> Global {
        self.rt.alloc()
    }

    // Answers by a text.
    pub fn tell<D: Display + Drop>(&self, told: D) -> io::Result<()> {
        self.rt.println(told)
    }

    // Answers that the last line says nothing to do. `framewords` has the same messages: a function for both would be generic over both error enums and take
    // the number, no shorter than three arms.
    pub fn tell_unread(&self, unread: Unread) -> io::Result<()> {
        let number = self.number;
        match unread {
            Unread::Unclear(wanted) => println!(self.rt; "line {number}: expected {wanted}"),
            Unread::Refused(refusal) => println!(self.rt; "refused {refusal}"),
            Unread::Failed(e) => Err(e),
        }
    }

    // The text of the next line that is neither blank nor a comment; none at the end of the input. A line that is no text is answered on the way. It knows no
    // kind of payload, so that it is compiled once.
    fn next_text(&mut self) -> io::Result<Option<String>>
        ensures { ReadsOn self.old result self.new }
    {
        while let Some(line) = self.lines.next() {
            self.number += 1;
            match read_line(line, self.heap()) {
                Ok(Some(text)) => return Ok(Some(text)),
                Ok(None) => {}
                Err(unread) => self.tell_unread(unread)?,
            }
        }
        Ok(None)
    }

    // Reads on up to a change, which it gives; none at the end of the input. Each action on the way is passed to `act`.
    pub(crate) fn next_change<
        P: PayloadText,
        F: FnMut(&Session, Action<Frame<P>>) -> io::Result<()>,
    >(&mut self, mut act: F) -> io::Result<Option<Change>>
        requires { F.IsAlwaysCallable act }
        ensures { ReadsOn self.old result self.new }
    {
        while let Some(text) = self.next_text()? {
            match parse_command::<P>(text.as_str()) {
                Ok(Command::Action(action)) => act(self, action)?,
                Ok(Command::Change(change)) => return Ok(Some(change)),
                Err(unread) => self.tell_unread(unread)?,
            }
        }
        Ok(None)
    }
}
