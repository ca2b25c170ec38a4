// Prints the sector in each slot of some layouts, and holds one against the S1420 manual.
#![tactic(auto)]

ghost use Rattle.std.specs.Prelude.{◌≤◌, ◌<◌};

use interleave::layout;
use std::io;

// Source document 001, table 4-12: the logical sector in each physical one, for 32 sectors and interleave 5.
const TABLE_4_12: [u8; 32] = [
    0, 13, 26, 7, 20, 1, 14, 27, 8, 21, 2, 15, 28, 9, 22, 3, 16, 29, 10, 23, 4, 17, 30, 11, 24, 5,
    18, 31, 12, 25, 6, 19,
];

fn print_sectors(rt: &impl Print, sectors: &[u8]) -> io::Result<()> {
    for sector in sectors {
        print!(rt; " {sector}")?;
    }
    println!(rt; "")
}

fn print_layout(rt: &impl Print, n: usize, f: usize) -> io::Result<()>
    requires { (f < n) × (n ≤ 32) }
{
    let map = layout(n, f);
    print!(rt; "{n} sectors, interleave {f}:")?;
    print_sectors(rt, &map[..n])
}

fn main(rt: HostRuntime) -> io::Result<()> {
    print_layout(&rt, 32, 5)?;
    if layout(32, 5) == TABLE_4_12 {
        println!(rt; "as in table 4-12")?;
    } else {
        println!(rt; "NOT as in table 4-12")?;
    }
    print_layout(&rt, 17, 2)?;
    print_layout(&rt, 32, 16)?;
    print_layout(&rt, 17, 16)?;
    print_layout(&rt, 16, 1)?;
    print_layout(&rt, 16, 6)
}
