// Makes calls on drafts whose answers the rules settle, and prints what came. The expected output
// beside this program was written from the rules.
#![tactic(auto)]

mod chance;
mod desk;
mod foreign_rows;
mod full;
mod game;
mod halt;
mod kinds;
mod lengths;
mod long_run;
mod own_places;
mod plain;
mod refused;
mod replays;
mod rest;
mod room;
mod rules;
mod sample;
mod sealing;
mod sheet;
mod short_memory;
mod shown;
mod tell;
mod whole_desk;

use std::io;
use strips::loaded_set::LoadedSet;

fn main(rt: HostRuntime) -> io::Result<()> {
    let mut set = LoadedSet::new(rt.alloc())?;
    if set.load(b"U99900PV").is_err() {
        return println!(rt; "the set is not loaded");
    }
    sheet::the_sheets_run(rt, &set)?;
    own_places::own_places(rt, &set)?;
    refused::refused(rt, &set)?;
    short_memory::short_memory(rt, &set)?;
    foreign_rows::foreign_rows(rt, &set)?;
    rest::with_a_rest(rt, &set)?;
    full::at_1200_lines(rt, &set)?;
    room::short_by_one(rt, &set)?;
    sealing::sealing(rt, &set)?;
    replays::lists_of_calls(rt, &set)?;
    long_run::one_length(rt, &set)?;
    long_run::near_1200_lines(rt, &set)?;
    if set.load(b"U99900PVU99901PVL0002").is_err() {
        return println!(rt; "the wide set is not loaded");
    }
    lengths::lengths(rt, &set)?;
    long_run::several_lengths(rt, &set)?;
    if set.load(b"U99900PVU99902R0002PVQ003DW02").is_err() {
        return println!(rt; "the set of other kinds is not loaded");
    }
    kinds::kinds(rt, &set)
}
