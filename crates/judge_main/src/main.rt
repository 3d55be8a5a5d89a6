// E1 to E11 of documents 01 and 02, larger tables, and the refusals of a judging: what the judge says of each. The lines of `stdout` are
// worked out by hand: the documents have those of E1 to E11, and for each other table a comment says why.
#![tactic(auto)]

mod said;
mod tables;

use crate::said::{say_judging, say_lent};
use crate::tables::{judge_changed, judge_large, judge_script};
use limits::LIMIT;
use programs::{examples, large};
use record::places::{KIND, MARK_SECOND, NONE, PARENT, READ, THREAD};
use std::io;

fn of_documents(rt: &impl Print) -> io::Result<()> {
    judge_script(rt, b"E1", &examples::E1)?;
    judge_script(rt, b"E2", &examples::E2)?;
    judge_script(rt, b"E3", &examples::E3)?;
    judge_script(rt, b"E4", &examples::E4)?;
    judge_script(rt, b"E5", &examples::E5)?;
    judge_script(rt, b"E6", &examples::E6)?;
    judge_script(rt, b"E7", &examples::E7)?;
    judge_script(rt, b"E8", &examples::E8)?;
    judge_script(rt, b"E9", &examples::E9)?;
    judge_script(rt, b"E10", &examples::E10)?;
    judge_script(rt, b"E11", &examples::E11)
}

// Threads 2 and 3 are started on two arms, after reads 4 and 5 of one location with different values. The arms conflict, and so do their
// threads' NA stores 8 and 9 to Y: no race. Where 9 instead reads 8, which releases, 4 is hb before 9 by way of 6 and 8, and in conflict
// with it, as 5 is above 9: A2 at 4 9, the least pair.
fn arms(rt: &impl Print) -> io::Result<()> {
    judge_script(
        rt,
        b"arms",
        b"In0----- Sr00-0-0 In11---- Sr12-0-1 La01100- La01301- In24---- In35---- Sn26-1-1 Sn37-1-2 ",
    )?;
    judge_script(
        rt,
        b"arms joined",
        b"In0----- Sr00-0-0 In11---- Sr12-0-1 La01100- La01301- In24---- In35---- Sr26-1-1 La37811- ",
    )
}

// Updates 7 and 8 of write 1 stand on the two arms 5 and 6, in conflict, and 9 is a load of it; updates 10 and 12 have no source. So no
// token is taken twice; nothing is NA, each source is before its readers, and no write of Z is before 10 or 12: consistent. With an
// update of write 1 for the load 9, in another thread than the arms, 7 and 9 took one: the least pair, as 7 and 8 are in conflict.
// An update below another of the same write took its token too: A5 at 2 3. Write 1 is hb before 2, and 2 before 3, a reader of write 1:
// A1 with 1 2.
fn tokens(rt: &impl Print) -> io::Result<()> {
    judge_script(
        rt,
        b"tokens",
        b"In0----- Sr00-0-0 Sr01-1-0 In12---- Sr13-1-1 La02210- La02411- Ub051001 Ub061001 La14100- Ub19-2u1 In22---- Ub2B-2u1 ",
    )?;
    judge_script(
        rt,
        b"three takers",
        b"In0----- Sr00-0-0 Sr01-1-0 In12---- Sr13-1-1 La02210- La02411- Ub051001 Ub061001 Ub141001 ",
    )?;
    judge_script(rt, b"taken again", b"In0----- Sr00-0-0 Ub011001 Ub021002 ")
}

// "Order of a judging: 1, 11, then records."
fn orders(rt: &impl Print) -> io::Result<()> {
    let table = examples::changed(0, MARK_SECOND, 0);
    say_judging(rt, b"79 bytes", &table[0..79])?;
    say_judging(rt, b"0 bytes", &table[0..0])?;
    say_lent(
        rt,
        b"79 bytes, short first",
        &table[0..79],
        LIMIT - 1,
        LIMIT,
    )?;
    say_lent(rt, b"mark, short first", &table, LIMIT - 1, LIMIT)?;
    say_lent(rt, b"mark, short second", &table, LIMIT, LIMIT - 1)?;
    say_judging(rt, b"mark", &table)
}

fn faults(rt: &impl Print) -> io::Result<()> {
    judge_changed(rt, b"mark of 2", 2, MARK_SECOND, 0x57)?;
    judge_changed(rt, b"kind 4", 2, KIND, 4)?;
    judge_changed(rt, b"byte 9", 2, 9, 1)?;
    judge_changed(rt, b"thread 16", 1, THREAD, 16)?;
    judge_changed(rt, b"no parent", 2, PARENT, NONE)?;
    judge_changed(rt, b"another value", 2, READ, 1)?;
    judge_changed(rt, b"twin", 3, PARENT, 1)
}

fn main(rt: HostRuntime) -> io::Result<()> {
    of_documents(&rt)?;
    arms(&rt)?;
    tokens(&rt)?;
    judge_large(&rt, b"chain", large::chain, 200)?;
    judge_large(&rt, b"seven", large::seven, 36)?;
    judge_large(&rt, b"circle", large::circle, 49)?;
    orders(&rt)?;
    faults(&rt)
}
