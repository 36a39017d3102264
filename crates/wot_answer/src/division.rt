//! The division of the lines into commands and their blocks, as far as they were read.

ghost use Rattle.std.specs.Prelude.{◌≡◌, [], true, false, Ok, IfOk};
ghost use Rattle.std.specs.Option.{option_copied};
ghost use Rattle.wot_types.specs.Commands as lines;
ghost use Rattle.wot_types.specs.Commands.{divided_by, made_by};
ghost use Rattle.wot_answer.specs.Answer.{IsDivision, reads_on};

use crate::block::Block;
use wot_types::Mem;

/// How the lines so far are divided into commands: what the next line belongs to.
#[derive(Drop)]
pub enum Division {
    /// The next line is a command.
    Between,
    /// The next line belongs to this block, or ends it.
    Within(Block),
    /// No further line is read: `quit` was answered, or the input is at its end.
    Over,
}

impl Division {
    /// Reads a line into a block that goes on with it, and says whether there is one: such a line is answered with nothing. None is a line that is too long.
    pub fn read_on(&mut self, line: Option<&[u8]>) -> Result<bool, Mem>
        ensures whether { IfOk result (λ read. read ≡ reads_on self.old (option_copied line.entry)) }
        ensures division { result ≡ Ok true → (c : lines.Division) → IsDivision self.old c → IsDivision self.new (divided_by c (option_copied line.entry)) }
        ensures quiet { result ≡ Ok true → (c : lines.Division) → IsDivision self.old c → made_by c (option_copied line.entry) ≡ [] }
        ensures left { result ≡ Ok false → self.new ≡ self.old }
    {
        match self {
            Division::Within(block) => {
                if block.is_ended_by(line) {
                    return Ok(false);
                }
                block.add_line(line)?;
                Ok(true)
            }
            Division::Between | Division::Over => Ok(false),
        }
    }
}
