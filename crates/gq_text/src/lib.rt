//! The forms of the program's texts: a script's plan and lines as they are read and written, and the answers as they are
//! written.
#![tactic(auto)]

mod canonical;
mod input;
mod output;
mod pieces;
mod plan_text;
mod quorum_text;

pub use canonical::{put_tenant_line, write_script};
pub use input::{read_cut_line, read_line};
pub use output::{put_done, write_answer, write_next_answer};
pub use pieces::{Piece, put_words};
pub use plan_text::{
    BLOCKS_WITHOUT_ROOM, FILE_BLOCKS_WITHOUT_ROOM, PlanText, TextFault, is_room, read_plan,
    row_told,
};
pub use quorum_text::QuorumText;
