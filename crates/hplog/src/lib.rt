// Every call of the library, in the order of include/hplog.h, each after the types that it takes and gives. A program
// lists the crates whose types it reaches beside this one.
#![tactic(auto)]

// Why a call refuses: the number and the place.
pub use verdict::Refusal;

// A finished log: opening it, and the blocks that a range of times chooses.
pub use frame::Frame;
pub use parts::Epoch;
pub use query::{count, query};
pub use reader::open;
pub use rows::Row;

// A log that was cut or damaged.
pub use recovery::{Report, recover};
pub use repair::{Kept, repair};

// The panel label of a name.
pub use label::label;

// A block's row, and the stored bytes of a block and of the dictionary.
pub use access::{dictionary, locate, stored};

// A plain dictionary: its check, a name by its number and by its place, and the number of a name.
pub use lookup::{name, name_at};
pub use name_search::number_of;
pub use names::check as check_names;

// A block's plain bytes: the steps (`Cursor::delta`, `Cursor::count`, `Cursor::field`), and the check against a header.
pub use cursor::{Cursor, Field, Value};
pub use entries::check_block;

// A plain book, and its parts.
pub use book::{check as check_book, count as count_parts, part_at};

// The listing of a log and its book, whole or of a range of times, piece by piece.
pub use listing_input::{begin, begin_range};
pub use listing_pieces::{Piece, render};
pub use listing_places::State;

// The writer (`Writer::new`, `Writer::begin`), and what it takes between begin and close.
pub use writer::Writer;
pub use writer_blocks::add_block;
pub use writer_close::close;
pub use writer_entries::add_entry;
pub use writer_names::add_name;
