// The program ROUTE: the sections of a route and vehicles on standard input, one line on standard output.
#![tactic(auto)]

use input::{Failure, Source};

// A count, 255 orders, 201 vehicles. A line goes out only of a route that was read whole.
// sheet does the same with a line of another size: one function for both would take an `Fn` at an array `[u8; N]`, which gets no proof.
fn answer(rt: &HostRuntime) -> Result<(), Failure> {
    let mut space = [0u8; 10_945];
    let read = Source::from(rt.stdin()).read_whole(&mut space)?;
    let mut line = [0u8; 256];
    let length = bench::route_line_of(&space[..read], &mut line);
    rt.write_all(&line[..length]).map_err(Failure::Unwritten)
}

fn main(rt: HostRuntime) {
    if let Err(failure) = answer(&rt) {
        let _ = eprintln!(rt; "route_sheet: {failure}");
    }
}
