// The hub reader and the port reader, which call each other: a hub form holds port forms, and a port form may hold a hub.
// Levels and lines left fall. Both leave the tables that specs/Readers.antt says.
ghost use Rattle.std.specs.Prelude.{◌≡◌, ◌≤◌};
ghost use Rattle.plan_tree.specs.Part.{told_part};
ghost use Rattle.plan_tree.specs.Readers.{hub_reader, port_reader, node_port, empty_port, closing};

use crate::{EMPTY, HUBS, Kind, PER_HUB, PORT, PORT_COUNT, Place, Plan, Refused, Row, stores};
use text::Cursor;

// Port q + 1 of hub g is a node.
fn node_port(s: &mut Plan, line: usize, x: Place, g: u32, q: u32) -> Result<Place, Refused>
    requires { (1 ≤ g) × (g ≤ 32) }
    ensures value { told_part result ≡ (node_port line x g q s.old).part }
    ensures s_after { s.new ≡ (node_port line x g q s.old).tables }
{
    if 32 <= q || 256 <= x.nodes {
        return Err(Refused::new(line, Row::Tree));
    }
    let nodes = x.nodes + 1;
    stores::put_node(s, g, q + 1, nodes);
    Ok(Place { nodes, ..x })
}

// Port q + 1 of hub g is empty.
fn empty_port(s: &mut Plan, line: usize, x: Place, g: u32, q: u32) -> Result<Place, Refused>
    requires { (1 ≤ g) × (g ≤ 32) }
    ensures value { told_part result ≡ (empty_port line x g q s.old).part }
    ensures s_after { s.new ≡ (empty_port line x g q s.old).tables }
{
    if 32 <= q {
        return Err(Refused::new(line, Row::Tree));
    }
    let at = HUBS + (g as usize - 1) * PER_HUB + (PORT + (q as usize + 1));
    s[at] = EMPTY;
    Ok(x)
}

// The line that closes hub g, which has q ports.
fn close_hub(s: &mut Plan, line: usize, x: Place, g: u32, q: u32) -> Result<Place, Refused>
    requires { (1 ≤ g) × (g ≤ 32) }
    ensures value { told_part result ≡ (closing line x g q s.old).part }
    ensures s_after { s.new ≡ (closing line x g q s.old).tables }
{
    if q == 0 {
        return Err(Refused::new(line, Row::Tree));
    }
    let at = HUBS + (g as usize - 1) * PER_HUB + PORT_COUNT;
    s[at] = q;
    Ok(x)
}

// Port q + 1 of hub g, by the kind of its line.
#[cycle(hub_reader_port_reader)]
fn port_reader(
    text: &[u8],
    s: &mut Plan,
    kind: Kind,
    line: usize,
    x: Place,
    g: u32,
    q: u32,
    levels: u32,
    left: usize,
) -> Result<Place, Refused>
    requires le_g { (1 ≤ g) × (g ≤ 32) }
    requires levels_bound { levels ≤ 4 }
    ensures value { told_part result ≡ (port_reader text.now left kind line x g q levels s.old).part }
    ensures s_after { s.new ≡ (port_reader text.now left kind line x g q levels s.old).tables }
{
    match kind {
        Kind::Node => node_port(s, line, x, g, q),
        Kind::Empty => empty_port(s, line, x, g, q),
        Kind::Hub => {
            if 32 <= q || 32 <= x.hubs || levels == 0 {
                return Err(Refused::new(line, Row::Tree));
            }
            let hubs = x.hubs + 1;
            stores::put_hub(s, g, q + 1, hubs, 6 - levels);
            hub_reader(text, s, Place { hubs, ..x }, hubs, 0, levels - 1, left)
        }
        Kind::Close | Kind::Other => Err(Refused::new(line, Row::Form)),
    }
}

// The ports of hub g behind port q, up to the line that closes it.
#[cycle(hub_reader_port_reader)]
pub(crate) fn hub_reader(
    text: &[u8],
    s: &mut Plan,
    x: Place,
    g: u32,
    q: u32,
    levels: u32,
    left: usize,
) -> Result<Place, Refused>
    requires le_g { (1 ≤ g) × (g ≤ 32) }
    requires levels_bound { levels ≤ 4 }
    requires q_bound { q ≤ 32 }
    ensures value { told_part result ≡ (hub_reader text.now left x g q levels s.old).part }
    ensures s_after { s.new ≡ (hub_reader text.now left x g q levels s.old).tables }
{
    if left == 0 {
        return Err(Refused::new(x.number, Row::Form));
    }
    let here = Cursor {
        at: x.at,
        number: x.number,
    };
    let line = crate::line_at(text, here)?;
    let y = Place {
        at: line.next.at,
        number: line.next.number,
        ..x
    };
    let kind = crate::kind_of(line.bytes);
    if kind == Kind::Close {
        return close_hub(s, line.number, y, g, q);
    }
    let z = port_reader(text, s, kind, line.number, y, g, q, levels, left - 1)?;
    hub_reader(text, s, z, g, q + 1, levels, left - 1)
}
