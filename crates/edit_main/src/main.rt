// Appends and cuts of tables of document 01, and what they give: counts, refusals, and every byte written.
#![tactic(auto)]

mod appends;
mod cuts;
mod large_cuts;
mod refused;
mod shown;

use appends::{build, say_line};
use events::Order;
use programs::examples::E2;
use programs::records::store;
use record::places::SIZE;
use shown::say_records;
use std::io;

fn main(rt: HostRuntime) -> io::Result<()> {
    let mut t = [0xeeu8; 6 * SIZE];
    build(&rt, b"E2", &mut t, &E2)?;
    say_records(&rt, &t, 5)?;
    let new = store(Order::Na, 0, 4, 0, 258);
    refused::uses(&rt, t, new)?;
    refused::events(&rt, t)?;
    cuts::of_e2(&rt)?;
    cuts::bad_selections_of_e2(&rt)?;
    cuts::sizes_of_selections(&rt)?;
    cuts::last_bit(&rt)?;
    cuts::of_no_table(&rt)?;
    say_line(&rt, b"E2 and one more", &mut t, 5, new)?;
    say_records(&rt, &t, 5)?;
    refused::full(&rt)?;
    large_cuts::of_chain(&rt)?;
    cuts::of_e8(&rt)?;
    cuts::of_e9(&rt)
}
