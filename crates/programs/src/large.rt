// Large tables, record by record.
ghost use Rattle.std.specs.Prelude.{◌*◌, ◌≤◌, length};
ghost use Rattle.record.specs.Form.{record_size};

use crate::records::{init, load, load_u, root, store};
use events::{Order, Record};
use limits::LIMIT;

// 0 Init; 1 store NA X=1; from 2 on stores NA to Y, but the last that a table can have, 199, a load NA X u without a source; each the parent
// of the next. Only by 198 steps of po is write 1 hb before read 199. So R at 199: a write of its location is before it, and no write races with it.
pub fn chain(n: u8) -> Record {
    if n == 0 {
        return root();
    }
    if n == 1 {
        return store(Order::Na, 0, 0, 0, 1);
    }
    if (n as usize) + 1 == LIMIT {
        return load_u(Order::Na, 0, n - 1, 0);
    }
    store(Order::Na, 0, n - 1, 1, 1)
}

// 0 Init; 1 to 14 Init of threads 1 to 14 p0; 15 to 21: threads 1 to 7 store REL X=1 to 7; then threads 8 to 14, two records each:
// thread 8 + k loads ACQ X from write 15 + k, then from 15 + (k + 3) % 7.
// A reader of 15 + k is hb before one of 15 + (k + 3) % 7, and no write nor reader is hb before anything else but its own readers.
// So wb0 is one ring: 15 18 21 17 20 16 19. Nothing is NA, so nothing races; each thread is a chain, so nothing conflicts.
pub fn seven(n: u8) -> Record {
    if n == 0 {
        return root();
    }
    if n < 15 {
        return init(n, 0);
    }
    if n < 22 {
        return store(Order::Rel, n - 14, n - 14, 0, (n - 14) as u16);
    }
    let k = (n - 22) / 2;
    if n % 2 == 0 {
        return load(Order::Acq, 8 + k, 8 + k, 15 + k, 0, (k + 1) as u16);
    }
    let j = (k + 3) % 7;
    load(Order::Acq, 8 + k, n - 1, 15 + j, 0, (j + 1) as u16)
}

// 0 Init; 1 to 12 stores NA of 0 to the locations 0 to 11, a chain; then twelve threads, three records each: Init p12,
// a store SC of 1 to location k, a load SC of 0 from location (k + 5) % 12, whose source is among the first stores.
// po≠ leads from each store to the load after it, fr from the load to the store of its location, and no other step is among SC
// records: E3 with twelve threads in place of two. So A4 is one ring of 24; the stores are 14, 17, .., 47, each load one more.
pub fn circle(n: u8) -> Record {
    if n == 0 {
        return root();
    }
    if n < 13 {
        return store(Order::Na, 0, n - 1, n - 1, 0);
    }
    let k = (n - 13) / 3;
    let which = (n - 13) % 3;
    if which == 0 {
        return init(k + 1, 12);
    }
    if which == 1 {
        return store(Order::Sc, k + 1, n - 1, k, 1);
    }
    let j = (k + 5) % 12;
    load(Order::Sc, k + 1, n - 1, j + 1, j, 0)
}

// Writes the first `count` records of a large table.
pub fn write<F: Fn(u8) -> Record>(numbered: F, count: u8, out: &mut [u8])
    requires callable { F.IsAlwaysCallable numbered }
    requires room { record_size * count ≤ length out.old }
{
    for n in 0..count {
        slots::write_at(out, n as usize, numbered(n));
    }
}
