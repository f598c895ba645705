// A scene's rows read from its text.
ghost use Rattle.std.specs.Prelude.{◌≡◌, ◌+◌, ◌*◌, ◌≤◌, [], ℕ, Option, Result, MatchResult, OnOk, length};
ghost use Rattle.rules.specs.Bytes.{bytes};
ghost use Rattle.rules.specs.Text.{Place, Reading, broken, read, place, max_text};
ghost use Rattle.text.specs.Reading.{component_more, connection_more, counted_rows, Filled, SceneRead};

use crate::rows::{ComponentRows, ConnectionRows};
use reader::lines::{BrokenLine, Lines};
use reader::rows::{read_component, read_connection};

// Rows of one kind, which are read one after another.
pub(crate) trait ReadRows {
    // the rows with one more, read at a place
    ghost more: { Self → Place → Reading Self };

    // how many bytes of a text they take at least
    ghost taken: { Self → ℕ };

    fn read_row(&mut self, lines: &mut Lines<'_>) -> Result<(), BrokenLine>
        requires { taken self.old + length lines.old.rest ≤ max_text }
        ensures reads { Filled (more self.old lines.old) result self.new lines.new }
        ensures forward { OnOk result (length lines.new.rest ≤ length lines.old.rest) }
        ensures room { OnOk result (taken self.new + length lines.new.rest ≤ taken self.old + length lines.old.rest) };
}

impl ReadRows for ComponentRows {
    ghost more = { component_more };

    ghost taken = { λ rows. 34 * length rows };

    #[tactic(auto, unfolding(rules::specs::Text::and_then))]
    fn read_row(&mut self, lines: &mut Lines<'_>) -> Result<(), BrokenLine> {
        let row = read_component(lines)?;
        self.push(row);
        Ok(())
    }
}

impl ReadRows for ConnectionRows {
    ghost more = { connection_more };

    ghost taken = { λ rows. 24 * length rows };

    #[tactic(auto, unfolding(rules::specs::Text::and_then))]
    fn read_row(&mut self, lines: &mut Lines<'_>) -> Result<(), BrokenLine> {
        let row = read_connection(lines)?;
        self.push(row);
        Ok(())
    }
}

// A count, and as many rows.
#[tactic(auto, unfolding(rules::specs::Text::and_then, crate::specs::Reading::rows_more, crate::specs::Reading::counted_rows))]
fn read_counted<R: ReadRows>(
    lines: &mut Lines<'_>,
    name: &[u8],
    rows: &mut R,
) -> Result<(), BrokenLine>
    requires { R.taken rows.old + length lines.old.rest ≤ max_text }
    ensures reads { Filled (counted_rows R.more name.now rows.old lines.old) result rows.new lines.new }
    ensures forward { OnOk result (length lines.new.rest ≤ length lines.old.rest) }
{
    let count = lines.number_field(name, u64::MAX)?;
    for _ in 0..count {
        rows.read_row(lines)?;
    }
    Ok(())
}

// Reads a text whole.
pub(crate) fn read_scene(
    text: &[u8],
    components: &mut ComponentRows,
    connections: &mut ConnectionRows,
) -> Result<(), BrokenLine>
    requires { (length text.now ≤ max_text) × (components.old ≡ []) × (connections.old ≡ []) }
    ensures { SceneRead text.now components.new connections.new result }
{
    let mut lines = Lines::new(text);
    read_counted(&mut lines, b"components=", components)?;
    read_counted(&mut lines, b"connections=", connections)?;
    lines.end()
}
