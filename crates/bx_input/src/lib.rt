//! The machine between the host and the editor: it turns what terminals send, and what the host tells, into the editor's keys.
//!
//! `specs/Table.antt` has the sequences that terminals send for keys, `specs/Mouse.antt` the reports of the mouse, `specs/Sizes.antt` the
//! sizes of the window, which Fill follows, and `specs/Strings.antt` the control strings, which give nothing. `specs/Scan.antt` finds these
//! among typed bytes. All other bytes pass on to the grammar of items of `bx_keys`. Of the control characters of a paste only TAB and LF
//! are left, so a paste can neither save nor quit nor move nor erase, nor set a mark, cut or search.
//!
//! `specs/Machine.antt` has the machine's step for each event: a typed byte, a size, a pause, a notice, the input's end. The host sends
//! these in frames. `FrameReader` reads the frames, and gives the session the bytes of the keys (`specs/KeyBytes.antt`).
#![tactic(auto)]

mod control_string;
mod frame;
mod frame_reader;
mod in_paste;
mod inbox;
mod known;
mod machine;
mod mouse;
mod paste_tail;
mod pause;
mod scan;
mod scan_state;
mod sizes;
mod table;
mod translate;
mod writing;

pub use frame::{
    END, FAULT, FRAME_HEAD, Frame, IDLE, JOURNAL, NOTICE, OPENED, REPLAYED, SIZE, TYPED,
    first_frame,
};
pub use frame_reader::FrameReader;
pub use machine::{Event, Machine};
