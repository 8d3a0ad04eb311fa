// Documents over the proved library, by the functions that other languages link: the tables over them that the second program prints too. `stdout` holds what that program printed.
#![tactic(auto)]

mod documents;
mod either_order;
mod id_edges;
mod id_orders;
mod identity_rows;
mod large_documents;
mod large_mends;
mod long_reads;
mod mend_orders;
mod mends;
mod operations;
mod small_documents;

use std::io;

fn main(rt: HostRuntime) -> io::Result<()> {
    small_documents::table(rt.stdout())?;
    either_order::table(rt.stdout())?;
    long_reads::table(rt.stdout())?;
    identity_rows::table(rt.stdout())?;
    mends::table(rt.stdout())
}
