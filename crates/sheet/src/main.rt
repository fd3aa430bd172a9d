// The program SHEET: an order record and vehicles on standard input, one line on standard output.
#![tactic(auto)]

use input::{Failure, Source};

// A sheet goes out only of a train that was read whole.
// route_sheet does the same with a line of another size: one function for both would take an `Fn` at an array `[u8; N]`, which gets no proof.
fn answer(rt: &HostRuntime) -> Result<(), Failure> {
    let mut space = [0u8; 4848];
    let read = Source::from(rt.stdin()).read_whole(&mut space)?;
    let mut line = [0u8; 128];
    let length = bench::line_of(&space[..read], &mut line);
    rt.write_all(&line[..length]).map_err(Failure::Unwritten)
}

fn main(rt: HostRuntime) {
    if let Err(failure) = answer(&rt) {
        let _ = eprintln!(rt; "sheet: {failure}");
    }
}
