// Loads strips whose answers the rules settle, and prints what came. The expected output beside
// this program was written from the rules.
#![tactic(auto)]

mod short;

use crate::short::{BODIES, SHORT_STRIPS};
use layouts::fields::fields_of;
use layouts::set::LayoutSet;
use lines::judge::judge;
use std::io;
use std::iter::repeat_n;
use strips::load::LoadError;
use strips::loaded_set::LoadedSet;
use strips::round_trip::built_in_by_strips;
use strips::write::write;

// How many fields the last layout of the set has.
fn last_fields(set: &LoadedSet) -> usize {
    fields_of(set, set.layouts()).take(65).count()
}

// `rt` and the set are parameters here and below: a type of both would only be passed in their place.
fn tell(rt: HostRuntime, set: &mut LoadedSet, what: &str, strips: &[u8]) -> io::Result<()> {
    match set.load(strips) {
        Ok(()) => println!(rt;
            "{what}: {} layouts, the last of {} fields",
            set.layouts(),
            last_fields(set)
        ),
        Err(LoadError::Refused(e)) => println!(rt; "{what}: {e}"),
        Err(LoadError::NoMemory) => println!(rt; "{what}: no memory"),
    }
}

fn tell_each(rt: HostRuntime, set: &mut LoadedSet, cases: &[(&str, &[u8])]) -> io::Result<()> {
    for (what, strips) in cases {
        tell(rt, set, what, strips)?;
    }
    Ok(())
}

// So many days behind an amount and a currency: a layout of 3 more fields.
fn tell_days(rt: HostRuntime, set: &mut LoadedSet, what: &str, days: usize) -> io::Result<()> {
    let mut strips = Vec::from_slice(rt.alloc(), b"U99900PV")?;
    strips.extend(repeat_n(b'D', days))?;
    tell(rt, set, what, &strips)
}

// So many layouts, at most ten, with the digits 10000, 10001 and so on.
fn tell_layouts(rt: HostRuntime, set: &mut LoadedSet, what: &str, n: u8) -> io::Result<()> {
    let mut strips = String::new(rt.alloc());
    for k in 0..n {
        write!(strips, "U1000{k}PV")?;
    }
    tell(rt, set, what, strips.as_bytes())
}

fn limits(rt: HostRuntime, set: &mut LoadedSet) -> io::Result<()> {
    tell_days(rt, set, "64 fields", 61)?;
    tell_days(rt, set, "65 fields", 62)?;
    tell(rt, set, "2,400 bytes", b"U99900PVT999T999T376")?;
    tell(rt, set, "2,401 bytes", b"U99900PVT999T999T377")?;
    tell_layouts(rt, set, "8 layouts", 8)?;
    tell_layouts(rt, set, "9 layouts", 9)?;
    tell(
        rt,
        set,
        "a ninth layout with the digits of the first",
        b"U10000PVU10001PVU10002PVU10003PVU10004PVU10005PVU10006PVU10007PVU10000PV",
    )
}

// Seven layouts, and then what is to be the eighth: its U stands at byte 57.
fn tell_eighth(rt: HostRuntime, set: &mut LoadedSet, what: &str, eighth: &[u8]) -> io::Result<()> {
    let seven = b"U10000PVU10001PVU10002PVU10003PVU10004PVU10005PVU10006PV";
    let mut strips = Vec::from_slice(rt.alloc(), seven)?;
    strips.extend_from_slice(eighth)?;
    tell(rt, set, what, &strips)
}

// Refusals at the first and at the last place that they can have.
fn first_and_last_places(rt: HostRuntime, set: &mut LoadedSet) -> io::Result<()> {
    tell(rt, set, "an unknown kind behind the first U", b"U99900x")?;
    tell_eighth(
        rt,
        set,
        "an unknown kind behind the last field",
        b"U10007PVx",
    )?;
    tell_eighth(rt, set, "the eighth U cut", b"U1000")?;
    tell_eighth(rt, set, "no digit in the eighth U", b"U1000x")?;
    tell_eighth(rt, set, "the eighth layout unlawful", b"U10007P")?;
    tell_eighth(rt, set, "the eighth digits used before", b"U10006PV")
}

// A refused load leaves the set as it was.
fn left_as_it_was(rt: HostRuntime, set: &mut LoadedSet) -> io::Result<()> {
    tell(rt, set, "U99900PV", b"U99900PV")?;
    tell(rt, set, "refused", b"U99900PVU99900PV")?;
    match judge(set, b"UBT99900000000000017525DKK") {
        Ok(j) => println!(rt; "the old set still has the line's layout {j}"),
        Err(_) => println!(rt; "the old set is lost"),
    }
}

// Pseudo-random bytes from the letters of the kinds and digits, by a fixed rule.
fn random(rt: HostRuntime, set: &mut LoadedSet) -> io::Result<()> {
    let alphabet = b"UPVDYRNZTQBELW0000000011112233459 x";
    let mut seed = 12345u32;
    let mut loaded = 0u32;
    let mut same = 0u32;
    for _ in 0..2000 {
        let mut strips = Vec::from_slice(rt.alloc(), b"U99900PV")?;
        for _ in 0..6 {
            seed = seed.wrapping_mul(1_103_515_245).wrapping_add(12_345);
            strips.push(alphabet[(seed / 65_536 % 35) as usize])?;
        }
        if set.load(&strips).is_ok() {
            loaded = loaded.saturating_add(1);
            if write(set, rt.alloc())? == strips {
                same = same.saturating_add(1);
            }
        }
    }
    if loaded > 0 && loaded == same {
        println!(rt; "2,000 random strips: all that are loaded are written back the same")
    } else {
        println!(rt; "2,000 random strips: {loaded} loaded, {same} the same")
    }
}

fn main(rt: HostRuntime) -> io::Result<()> {
    let mut set = LoadedSet::new(rt.alloc())?;
    println!(rt; "a new set has one layout of {} fields", last_fields(&set))?;
    tell_each(rt, &mut set, &SHORT_STRIPS)?;
    tell_each(rt, &mut set, &BODIES)?;
    limits(rt, &mut set)?;
    first_and_last_places(rt, &mut set)?;
    left_as_it_was(rt, &mut set)?;
    random(rt, &mut set)?;
    let Ok(built_in) = built_in_by_strips(rt.alloc()) else {
        return println!(rt; "the built-in set is not loaded");
    };
    println!(rt;
        "the built-in set by its strips: {} layouts, the last of {} fields",
        built_in.layouts(),
        last_fields(&built_in)
    )
}
