// The edges of document 01 on tables as bytes, one table for each refusal from 1 to 8, and the fetch: what the code says of them.
#![tactic(auto)]

ghost use Rattle.std.specs.Prelude.{◌+◌, ◌*◌, ◌<◌, ◌≤◌};
ghost use Rattle.limits.specs.Limit.{limit};
ghost use Rattle.record.specs.Form.{record_size};

use events::Order;
use fetch::{fetch, refusal_of_fetch};
use limits::LIMIT;
use programs::say::Form;
use programs::{examples, large, say};
use record::places::{
    FLAGS, KIND, LOCATION, MARK_SECOND, NONE, ORDER, PARENT, READ, SIZE, SOURCE, THREAD,
    WRITTEN_HIGH,
};
use refusals::Refusal;
use std::io;

fn say_refusal(rt: &impl Print, r: Refusal) -> io::Result<()> {
    say::text(rt, b" ")?;
    say::refusal(rt, r)
}

fn say_tested(rt: &impl Print, tested: Result<usize, Refusal>) -> io::Result<()> {
    match tested {
        Ok(n) => say::number(rt, b" sound ", n),
        Err(r) => say_refusal(rt, r),
    }
}

fn say_test(rt: &impl Print, what: &[u8], table: &[u8]) -> io::Result<()> {
    say::text(rt, what)?;
    say_tested(rt, table::test(table))?;
    say::text(rt, b"\n")
}

fn say_fetch_test(rt: &impl Print, tested: Result<(), Refusal>) -> io::Result<()> {
    match tested {
        Ok(()) => say::text(rt, b" given"),
        Err(r) => say_refusal(rt, r),
    }
}

// What is fetched, in hexadecimal, and what the second question says.
fn say_fetch(rt: &impl Print, table: &[u8], n: usize) -> io::Result<()> {
    say::number(rt, b"fetch ", n)?;
    say::text(rt, b":")?;
    say::bytes(rt, Form::Hex, b" ", fetch(table, n))?;
    say_fetch_test(rt, refusal_of_fetch(table, n))?;
    say::text(rt, b"\n")
}

// The test of E2 with one byte of record n changed.
fn say_changed(rt: &impl Print, what: &[u8], n: usize, place: usize, byte: u8) -> io::Result<()>
    requires { (n < 5) × (place < record_size) }
{
    say_test(rt, what, &examples::changed(n, place, byte))
}

// The test of the first bytes of a chain of one record more than a table may have.
fn say_front(rt: &impl Print, what: &[u8], len: usize) -> io::Result<()>
    requires { len ≤ record_size * limit + record_size }
{
    let mut chain = [0u8; SIZE * LIMIT + SIZE];
    large::write(large::chain, 201, &mut chain);
    say_test(rt, what, &chain[0..len])
}

fn faults(rt: &impl Print) -> io::Result<()> {
    say_changed(rt, b"thread 15:", 1, THREAD, 15)?;
    say_changed(rt, b"thread 16:", 1, THREAD, 16)?;
    say_changed(rt, b"location 31:", 3, LOCATION, 31)?;
    say_changed(rt, b"location 32:", 3, LOCATION, 32)?;
    say_changed(rt, b"mark:", 2, MARK_SECOND, 0x57)?;
    say_changed(rt, b"kind 4:", 2, KIND, 4)?;
    say_changed(rt, b"order REL of a load:", 2, ORDER, Order::REL)?;
    say_changed(rt, b"byte 9:", 2, 9, 1)?;
    say_changed(rt, b"value written of a load:", 2, WRITTEN_HIGH, 7)?;
    say_changed(rt, b"flag 2 of a load:", 2, FLAGS, 2)?;
    say_changed(rt, b"flags 4:", 2, FLAGS, 4)?;
    say_changed(rt, b"source of a store:", 1, SOURCE, 0)?;
    say_changed(rt, b"parent itself:", 2, PARENT, 2)?;
    say_changed(rt, b"no parent:", 2, PARENT, NONE)?;
    say_changed(rt, b"source itself:", 2, SOURCE, 2)?;
    say_changed(rt, b"another value:", 2, READ, 1)?;
    say_changed(rt, b"twin:", 3, PARENT, 1)
}

fn main(rt: HostRuntime) -> io::Result<()> {
    let e2 = examples::e2();
    say_test(&rt, b"E2:", &e2)?;
    say_front(&rt, b"1040 bytes:", 1040)?;
    say_front(&rt, b"3200 bytes:", 3200)?;
    say_front(&rt, b"3199 bytes:", 3199)?;
    say_front(&rt, b"3216 bytes:", 3216)?;
    say_front(&rt, b"17 bytes:", 17)?;
    say_front(&rt, b"0 bytes:", 0)?;
    faults(&rt)?;
    say_fetch(&rt, &e2, 4)?;
    say_fetch(&rt, &e2, 5)?;
    say_fetch(&rt, &e2[0..79], 4)
}
