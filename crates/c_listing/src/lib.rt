// The listing for programs in C, piece by piece (include/hplog.h).
#![tactic(auto)]

ghost use Rattle.c_listing.specs.Answers.{Started, StartedRange, Went};

use c_answer::Answer;
use listing_numbers::Listing;
use listing_places::{Range, State};
use parts::Epoch;

#[repr(C)]
#[derive(Clone, Copy)]
pub struct Listed {
    pub answer: Answer,
    pub next: Listing,
}

pub fn hplog_list(log: &[u8], book: &[u8]) -> Listed
    ensures { Started log.now book.now result }
{
    match contents::check(log, book) {
        Err(w) => Listed {
            answer: c_answer::refused(w),
            next: listing_numbers::listing_of(State::Refused(w)),
        },
        Ok((blocks, entries)) => Listed {
            answer: c_answer::accepted(entries),
            next: listing_numbers::listing_of(listing_states::start(book, blocks as u32, entries)),
        },
    }
}

pub fn hplog_list_range(log: &[u8], book: &[u8], t1: u64, t2: u64) -> Listed
    ensures { StartedRange log.now book.now t1 t2 result }
{
    let range = Range {
        from: Epoch(t1),
        to: Epoch(t2),
    };
    match listing_input::check_range(log, book, range) {
        Err(w) => Listed {
            answer: c_answer::refused(w),
            next: listing_numbers::listing_of(State::Refused(w)),
        },
        Ok((blocks, entries)) => Listed {
            answer: c_answer::accepted(entries),
            next: listing_numbers::listing_of(listing_states::start_range(
                log,
                book,
                blocks as u32,
                range,
            )),
        },
    }
}

pub fn hplog_list_next(log: &[u8], book: &[u8], at: Listing, out: &mut [u8]) -> Listed
    ensures { Went log.now book.now at out.old result out.new }
{
    let piece = listing_pieces::render(log, book, listing_numbers::state_of(at), out);
    Listed {
        answer: c_answer::accepted(piece.length as u64),
        next: listing_numbers::listing_of(piece.next),
    }
}
