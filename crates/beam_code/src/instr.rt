//! One instruction.

ghost use Rattle.std.specs.Prelude.{◌≡◌, true};
ghost use Rattle.beam_code.specs.RowFits.{fits as fits_row_of};

use crate::decode::decoded_row;
use crate::fits::fits;
use crate::{Opcode, Operand};
use sqlite_items::Items;

/// An instruction: the number of its row, and its operands, which fit that row.
#[derive(Debug, Drop)]
pub struct Instr {
    pub row: u16,
    pub operands: Items<Operand>,
    pub ghost fits_row: { fits_row_of row operands ≡ true },
}

impl Instr {
    ghost use Rattle.std.specs.Prelude.{◌≡◌, option_map};
    ghost use Rattle.beam_code.specs.Code.{opcode};
    ghost use Rattle.beam_code.specs.Parts.{parts_of, fitting};
    ghost use Rattle.beam_code.specs.Seen.{opcode_seen};

    /// The instruction of that row and these operands. None where they do not fit the row.
    pub fn make(row: u16, operands: Items<Operand>) -> Option<Instr>
        ensures { option_map parts_of result ≡ fitting row operands }
    {
        if !fits(row, operands.as_slice()) {
            return None;
        }
        Some(Instr { row, operands })
    }

    /// What the instruction is, with what it works on, which it lends.
    #[tactic(auto, unfolding(crate::specs::Code::opcode))]
    pub fn opcode(&self) -> Opcode<'_>
        ensures { opcode_seen result ≡ opcode self.now }
    {
        match decoded_row(self.row, self.operands.as_slice()) {
            Some(opcode) => opcode,
            None => unreachable!(),
        }
    }
}
