// Everything small, and some large trees, over the proved library, by the functions that other languages link: the tables of pairs, batches, lines, evidence and what is wider that the second program prints too. `stdout` holds what that program printed.
#![tactic(auto)]

mod damage;
mod damaged_evidence;
mod evidence;
mod large_evidence;
mod line_damage;
mod mode_lines;
mod pairs;
mod plans;
mod two_damages;
mod wider;
mod wider_pairs;
mod wider_plans;

use std::io;

fn main(rt: HostRuntime) -> io::Result<()> {
    pairs::table(rt.stdout())?;
    damage::table(rt.stdout())?;
    plans::table(rt.stdout())?;
    line_damage::table(rt.stdout())?;
    evidence::table(rt.stdout())?;
    wider::table(rt.stdout())
}
