// A state of the listing as a struct of numbers, as programs in C hold it.
#![tactic(auto)]

ghost use Rattle.std.specs.Prelude.{◌≡◌};
ghost use Rattle.listing_numbers.specs.Listing.{place_in, state_in, listing_at, listing_off};

use listing_places::{Place, Range, State};
use parts::Epoch;
use verdict::Refusal;

// A state of the listing in numbers alone. A refusal's number stands in `fields` and its place in `from`, as do the
// totals.
#[repr(C)]
#[derive(Clone, Copy)]
pub struct Listing {
    pub at: usize,
    pub plain: usize,
    pub dictionary: usize,
    pub length: usize,
    pub pos: usize,
    pub from: usize,
    pub left: usize,
    pub t1: u64,
    pub t2: u64,
    pub blocks: u32,
    pub names: u32,
    pub entries: u32,
    pub fields: u8,
    pub kind: u8,
}

fn place_of(l: Listing) -> Place
    ensures { result ≡ place_in l }
{
    let range = Range {
        from: Epoch(l.t1),
        to: Epoch(l.t2),
    };
    Place {
        blocks: l.blocks,
        at: l.at,
        plain: l.plain,
        dictionary: l.dictionary,
        length: l.length,
        names: l.names,
        range,
        entries: l.entries,
        pos: l.pos,
        fields: l.fields,
    }
}

// The state that a listing stands for.
pub fn state_of(l: Listing) -> State
    ensures { result ≡ state_in l }
{
    let p = place_of(l);
    let kind = l.kind;
    match kind {
        1 => State::Blocks(p, l.from as u64),
        2 => State::Entries(p, l.from as u64),
        3 => State::Entry(p),
        4 => State::Fields(p),
        5 => State::Name(p, l.from, l.left),
        6 => State::Value(p),
        7 => State::Text(p, l.from, l.left),
        8 => State::Refused(Refusal {
            number: l.fields,
            place: l.from as u64,
        }),
        _ => State::End,
    }
}

// A listing of a kind, at a place.
fn listing_at(kind: u8, p: Place, from: usize, left: usize) -> Listing
    ensures { result ≡ listing_at kind p from left }
{
    Listing {
        at: p.at,
        plain: p.plain,
        dictionary: p.dictionary,
        length: p.length,
        pos: p.pos,
        from,
        left,
        t1: p.range.from.0,
        t2: p.range.to.0,
        blocks: p.blocks,
        names: p.names,
        entries: p.entries,
        fields: p.fields,
        kind,
    }
}

// A listing without a place: a refusal, or the end.
fn listing_off(kind: u8, number: u8, place: usize) -> Listing
    ensures { result ≡ listing_off kind number place }
{
    Listing {
        at: 0,
        plain: 0,
        dictionary: 0,
        length: 0,
        pos: 0,
        from: place,
        left: 0,
        t1: 0,
        t2: 0,
        blocks: 0,
        names: 0,
        entries: 0,
        fields: number,
        kind,
    }
}

// A listing that stands for a state.
pub fn listing_of(st: State) -> Listing
    ensures { state_in result ≡ st }
{
    match st {
        State::Blocks(p, n) => listing_at(1, p, n as usize, 0),
        State::Entries(p, n) => listing_at(2, p, n as usize, 0),
        State::Entry(p) => listing_at(3, p, 0, 0),
        State::Fields(p) => listing_at(4, p, 0, 0),
        State::Name(p, from, n) => listing_at(5, p, from, n),
        State::Value(p) => listing_at(6, p, 0, 0),
        State::Text(p, from, n) => listing_at(7, p, from, n),
        State::Refused(w) => listing_off(8, w.number, w.place as usize),
        State::End => listing_off(0, 0, 0),
    }
}
