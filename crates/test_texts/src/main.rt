// Texts over the proved library, of patterns and of tags, by the functions that other languages link: the tables of them that the second program prints too. `stdout` holds what that program printed.
#![tactic(auto)]

mod deep_tags;
mod paired;
mod read_tags;
mod single_bytes;
mod tag_bytes;
mod tag_labels;
mod tag_texts;
mod text_lists;
mod text_patterns;
mod texts;
mod tree_tags;

use std::io;

fn main(rt: HostRuntime) -> io::Result<()> {
    texts::table(rt.stdout())?;
    tree_tags::table(rt.stdout())?;
    read_tags::table(rt.stdout())
}
