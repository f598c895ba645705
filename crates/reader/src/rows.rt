// The rows of a scene's text: a line for each field, in this order.
ghost use Rattle.std.specs.Prelude.{◌≡◌, ◌+◌, ◌≤◌, OnOk, OnErr, IfErr, length};
ghost use Rattle.rules.specs.Text.{component, connection};
ghost use Rattle.reader.specs.Readings.{reading_as, component_of, connection_of};

use crate::lines::{BrokenLine, Lines};
use crate::numbers::{byte, delay_word, flag, number64, signed_number};

// Kinds, flags, transfers and delay words stay numbers: they are lent to the scene calls as the C interface has them, and
// tested there.
#[derive(Clone, Copy)]
pub struct ComponentRow {
    pub id: u64,
    pub kind: u8,
    pub delay: u16,
    pub locked: u8,
    pub x: i32,
    pub y: i32,
    pub z: i32,
}

#[derive(Clone, Copy)]
pub struct ConnectionRow {
    pub source: u64,
    pub sink: u64,
    pub transfer: u8,
}

// Reads a component's seven lines, or none of them.
#[tactic(auto, unfolding(rules::specs::Text::component, rules::specs::Text::and_then))]
pub fn read_component(lines: &mut Lines<'_>) -> Result<ComponentRow, BrokenLine>
    ensures reads { reading_as component_of result lines.new ≡ component lines.old }
    ensures forward { OnOk result (34 + length lines.new.rest ≤ length lines.old.rest) }
    ensures within { IfErr result (λ e. (lines.old.line ≤ e.line) × (e.line ≤ 6 + lines.old.line)) }
    ensures kept { OnErr result (lines.new ≡ lines.old) }
{
    let mut next = lines.copied();
    let id = next.field(b"id=", number64)?;
    let kind = next.field(b"kind=", byte)?;
    let delay = next.field(b"delay=", delay_word)?;
    let locked = next.field(b"locked=", flag)?;
    let x = next.field(b"x=", signed_number)?;
    let y = next.field(b"y=", signed_number)?;
    let z = next.field(b"z=", signed_number)?;
    *lines = next;
    Ok(ComponentRow {
        id,
        kind,
        delay,
        locked,
        x,
        y,
        z,
    })
}

// Reads a connection's three lines, or none of them.
#[tactic(auto, unfolding(rules::specs::Text::connection, rules::specs::Text::and_then))]
pub fn read_connection(lines: &mut Lines<'_>) -> Result<ConnectionRow, BrokenLine>
    ensures reads { reading_as connection_of result lines.new ≡ connection lines.old }
    ensures forward { OnOk result (24 + length lines.new.rest ≤ length lines.old.rest) }
    ensures within { IfErr result (λ e. (lines.old.line ≤ e.line) × (e.line ≤ 2 + lines.old.line)) }
    ensures kept { OnErr result (lines.new ≡ lines.old) }
{
    let mut next = lines.copied();
    let source = next.field(b"source=", number64)?;
    let sink = next.field(b"sink=", number64)?;
    let transfer = next.field(b"transfer=", byte)?;
    *lines = next;
    Ok(ConnectionRow {
        source,
        sink,
        transfer,
    })
}
