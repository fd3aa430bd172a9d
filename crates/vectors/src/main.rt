// The program VECTORS: inputs of SHEET and ROUTE, each behind a byte that says whose it is and its length in two, and the line for each.
#![tactic(auto)]

use input::{Failure, Source};
use std::fmt;
use std::fmt::{Display, Formatter};

// Whose input it is.
#[derive(Clone, Copy)]
enum Program {
    Sheet,
    Route,
}

// Why no further input is answered.
#[derive(Clone, Copy)]
enum Stop {
    Failed(Failure),
    CutShort,
    NoProgram,
}

impl From<Failure> for Stop {
    fn from(failure: Failure) -> Stop {
        Stop::Failed(failure)
    }
}

impl Display for Stop {
    fn fmt<W: fmt::Write>(&self, f: &mut Formatter<W>) -> fmt::Result {
        match self {
            Stop::Failed(failure) => write!(f, "{failure}"),
            Stop::CutShort => write!(f, "the last input is cut short"),
            Stop::NoProgram => write!(f, "an input of no program"),
        }
    }
}

impl TryFrom<u8> for Program {
    type Error = Stop;

    fn try_from(byte: u8) -> Result<Program, Stop> {
        match byte {
            0 => Ok(Program::Sheet),
            1 => Ok(Program::Route),
            _ => Err(Stop::NoProgram),
        }
    }
}

// The next input and whose it is, or `None` at the stream's end, which may stand between two inputs and not inside one.
// There is room for what two bytes can announce.
fn read_next<'a>(
    source: &mut Source,
    space: &'a mut [u8; 65_536],
) -> Result<Option<(Program, &'a [u8])>, Stop> {
    let mut head = [0u8; 3];
    let read = source.read_whole(&mut head)?;
    if read == 0 {
        return Ok(None);
    }
    if read < head.len() {
        return Err(Stop::CutShort);
    }
    let [byte, low, high] = head;
    let program = Program::try_from(byte)?;
    let input = &mut space[..usize::from(u16::from_le_bytes([low, high]))];
    let read = source.read_whole(input)?;
    if read < input.len() {
        return Err(Stop::CutShort);
    }
    Ok(Some((program, input)))
}

// An arm each, as the lines stand in arrays of two sizes: an `Fn` at an array `[u8; N]` gets no proof.
fn write_line(rt: &impl Print, program: Program, input: &[u8]) -> Result<(), Failure> {
    match program {
        Program::Sheet => {
            let mut line = [0u8; 128];
            let length = bench::line_of(input, &mut line);
            rt.write_all(&line[..length])
        }
        Program::Route => {
            let mut line = [0u8; 256];
            let length = bench::route_line_of(input, &mut line);
            rt.write_all(&line[..length])
        }
    }
    .map_err(Failure::Unwritten)
}

fn answer(rt: &HostRuntime) -> Result<(), Stop> {
    let mut source = Source::from(rt.stdin());
    let mut space = [0u8; 65_536];
    // A count that no run uses up, so that it ends.
    for _ in 0..usize::MAX {
        let Some((program, input)) = read_next(&mut source, &mut space)? else {
            return Ok(());
        };
        write_line(rt, program, input)?;
    }
    Ok(())
}

fn main(rt: HostRuntime) {
    if let Err(stop) = answer(&rt) {
        let _ = eprintln!(rt; "vectors: {stop}");
    }
}
