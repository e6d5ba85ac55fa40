// What the writer's calls and repair answer, printed.
use repair::Kept;
use test_views::print;
use verdict::Refusal;
use writer::{Pending, Turn, Writer};

// How many bytes were stored, and the first 200 of them.
fn stores(size: u64, out: &[u8]) {
    print::say(b"done");
    print::number(size);
    print::say(b" ");
    print::bytes(wire::part_at(wire::part_at(out, 0, size as usize), 0, 200));
    print::end_line();
}

pub fn stored(r: Result<(Writer, u64), Refusal>, out: &[u8]) {
    match r {
        Ok((_, size)) => stores(size, out),
        Err(w) => print::refusal_line(w),
    }
}

pub fn named(r: Result<(Writer, u32), Refusal>) {
    match r {
        Ok((_, i)) => {
            print::say(b"number");
            print::number(i as u64);
            print::end_line();
        }
        Err(w) => print::refusal_line(w),
    }
}

pub fn entered(r: Result<Writer, Refusal>) {
    match r {
        Ok(_) => print::say(b"entered\n"),
        Err(w) => print::refusal_line(w),
    }
}

fn turn(t: Turn) {
    match t {
        Turn::New => print::say(b"new"),
        Turn::Begun => print::say(b"begun"),
        Turn::Closed => print::say(b"closed"),
    }
}

fn pending(p: Pending) {
    print::time(p.start);
    print::time(p.last);
    print::number(p.plain);
}

// The fields of a writer's state, in order.
pub fn state(w: Writer) {
    let t = w.turn;
    let p = w.pending;
    turn(t);
    print::number(w.blocks as u64);
    print::number(w.length);
    print::time(w.end);
    print::number(w.given as u64);
    print::number(w.names as u64);
    print::number(w.dictionary);
    pending(p);
}

// The length of the finished file, how many bytes it keeps, and the CRC-32 of the output.
pub fn repaired(r: Result<Kept, Refusal>, out: &[u8]) {
    match r {
        Ok(k) => {
            print::say(b"repaired");
            print::number(k.length);
            print::number(k.kept);
            print::sum(out);
            print::end_line();
        }
        Err(w) => print::refusal_line(w),
    }
}
