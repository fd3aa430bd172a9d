// The program RANGES: a line for each row of the three tables that are walked, whose it is, its first byte, width, low and high end.
#![tactic(auto)]

use order::{CROSS_BORDER, DOMESTIC};
use record::vehicle::VEHICLE;
use std::io;

fn print_row(rt: &impl Print, whose: &str, row: [u64; 4]) -> io::Result<()> {
    println!(rt; "{whose} {} {} {} {}", row[0], row[1], row[2], row[3])
}

fn print_table(rt: &impl Print, whose: &str, table: &[[u64; 4]]) -> io::Result<()> {
    for row in table {
        print_row(rt, whose, *row)?;
    }
    Ok(())
}

fn print_tables(rt: &impl Print) -> io::Result<()> {
    print_table(rt, "vehicle", &VEHICLE)?;
    print_table(rt, "order", &CROSS_BORDER)?;
    print_table(rt, "domestic", &DOMESTIC)
}

fn main(rt: HostRuntime) {
    if let Err(error) = print_tables(&rt) {
        let _ = eprintln!(rt; "ranges: standard output could not be written: {error}");
    }
}
