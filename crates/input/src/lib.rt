// Standard input read until it ends or a buffer is full: a read that fails is not an end.
#![tactic(auto)]

ghost use Rattle.std.specs.Prelude.{◌≡◌, ◌-◌, ◌≤◌, length, IfOk};
ghost use Rattle.input.specs.Inputs.{told, input_after, Held, Stands};

use std::error::Error;
use std::fmt::{Display, Formatter};
use std::io::{IsTerminal, Read, Stdin};
use std::ops::ControlFlow;
use std::{fmt, io};

// Linux's number of a call that a signal interrupted.
const EINTR: i32 = 4;

// And of one on a line that was hung up; std says no number of that.
const EIO: i32 = 5;

// Why a program could not answer its input.
#[derive(Clone, Copy, Debug)]
pub enum Failure {
    Unread(io::Error),
    Unwritten(io::Error),
}

impl Display for Failure {
    fn fmt<W: fmt::Write>(&self, f: &mut Formatter<W>) -> fmt::Result {
        match self {
            Failure::Unread(error) => write!(f, "standard input could not be read: {error}"),
            Failure::Unwritten(error) => write!(f, "standard output could not be written: {error}"),
        }
    }
}

impl Error for Failure {}

// What stands read after one more call of read: one that a signal interrupted is made again, any other that failed fails the whole.
fn after(
    done: usize,
    room: usize,
    answer: Result<usize, i32>,
    // of the terminal, and not of this answer
    lost: bool,
) -> Result<ControlFlow<usize, usize>, i32>
    requires { (done ≤ room) × IfOk answer (λ n. n ≤ room - done) }
    ensures { result ≡ input_after done room answer lost }
{
    match answer {
        Err(EINTR) => Ok(ControlFlow::Continue(done)),
        Err(_) | Ok(0) if lost => Err(EIO),
        Err(error) => Err(error),
        Ok(0) => Ok(ControlFlow::Break(done)),
        Ok(more) if done + more == room => Ok(ControlFlow::Break(room)),
        Ok(more) => Ok(ControlFlow::Continue(done + more)),
    }
}

// Read's answer, with the number of the error: of an `io::Error` no clause says which it is.
fn told(answer: io::Result<usize>) -> Result<usize, i32>
    ensures { result ≡ told answer }
{
    answer.map_err(|error| error.raw_os_error().unwrap_or(EIO))
}

// Standard input, and whether it was a terminal at first.
#[derive(Drop)]
pub struct Source {
    stdin: Stdin,
    was_terminal: bool,
}

impl From<Stdin> for Source {
    fn from(stdin: Stdin) -> Source {
        let was_terminal = stdin.is_terminal();
        Source {
            stdin,
            was_terminal,
        }
    }
}

impl Source {
    // A terminal that was hung up is one no more, though a read of it may answer 0 as at an end.
    fn is_lost(&self) -> bool {
        self.was_terminal && !self.stdin.is_terminal()
    }

    // Reads once, behind what is there.
    fn read_on(&mut self, buffer: &mut [u8], done: usize) -> Result<ControlFlow<usize, usize>, i32>
        requires { done ≤ length buffer.old }
        ensures { Stands result buffer.new }
    {
        let room = buffer.len();
        let answer = told(self.stdin.read(&mut buffer[done..]));
        after(done, room, answer, self.is_lost())
    }

    // Reads until standard input ends or the buffer is full.
    fn read_all(&mut self, buffer: &mut [u8]) -> Result<usize, i32>
        ensures { Held result buffer.new }
    {
        let mut done = 0;
        // More turns than a run can make.
        for _ in 0..usize::MAX {
            match self.read_on(buffer, done)? {
                ControlFlow::Continue(more) => done = more,
                ControlFlow::Break(whole) => return Ok(whole),
            }
        }
        Err(EINTR)
    }

    // Reads until standard input ends or the buffer is full, and says how many bytes that are: memory is lent, for there is no heap.
    pub fn read_whole(&mut self, buffer: &mut [u8]) -> Result<usize, Failure>
        ensures { Held result buffer.new }
    {
        self.read_all(buffer)
            .map_err(io::Error::from_raw_os_error)
            .map_err(Failure::Unread)
    }
}
