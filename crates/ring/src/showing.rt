ghost use Rattle.std.specs.Prelude.{◌≡◌, ◌*◌, ◌<◌, length, take, drop, count_ones};
ghost use Rattle.rows.specs.Rows.{on_sheet};
ghost use Rattle.ring.specs.World.{world};
ghost use Rattle.ring.specs.Show.{Shows};

use crate::ring::Ring;
use crate::tables::check_sizes;
use record::command::Command;
use rows::letter::Letter;
use rows::refusal::Refusal;
use rows::row::Row;

// The used part of a node's sheet.
fn used_part<'a>(row: &Row, sheets: &'a [u8], node: u8) -> &'a [u8]
    requires { (length sheets.now ≡ 448) × (node < 7) }
    ensures { result.now ≡ take (count_ones (on_sheet row.now)) (drop (64 * node) sheets.now) }
{
    let base = 64 * usize::from(node);
    // Stays a cast: usize has no From of u32.
    let len = (row.delivered | row.early).count_ones() as usize;
    &sheets[base..base + len]
}

impl Ring {
    // The numbers of the messages that a node delivered, in order: that part of the sheets itself. Refused: 4 a table
    // has the wrong size; 7 never started; 8 no such node.
    pub fn show<'s>(
        &self,
        tray: &[Letter],
        book: &[Command],
        sheets: &'s [u8],
        node: u8,
    ) -> Result<&'s [u8], Refusal>
        ensures { Shows (λ s. s.now)
            (world self.now tray.now book.now sheets.now) node result }
    {
        check_sizes(tray, book, sheets)?;
        self.with_node(node)?;
        Ok(used_part(&self.nodes[usize::from(node)].row, sheets, node))
    }
}
