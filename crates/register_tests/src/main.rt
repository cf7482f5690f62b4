// Counts what a find costs: pairs compared, in ordered lists of growing size, and through a front.
#![tactic(auto)]

mod counting;
#[cfg(test)]
mod tests;

use counting::count_list;
use std::io;

fn main(rt: HostRuntime) -> io::Result<()> {
    println!(rt; "pairs  compared at most  for one not there  through a front  again")?;
    for size in [0usize, 1, 2, 4, 8, 16, 32, 64, 128, 256, 512, 1024] {
        match count_list(size) {
            Some(costs) => println!(rt; "{size:>5}  {costs}")?,
            None => println!(rt; "{size:>5}  not counted")?,
        }
    }
    Ok(())
}
