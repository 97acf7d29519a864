// Event lines: what a line of a lent text says. No public function has a `requires`:
// it says its whole answer for every input, by a definition of specs/.
#![tactic(auto)]

ghost use Rattle.std.specs.Prelude.{◌≡◌};
ghost use Rattle.event_lines.specs.Event.{event_of};

use event::Event;

// What a line says, if it is an event. No line begins with two of the words, so the numbers behind the first that is there decide.
pub fn event_at(line: &[u8]) -> Option<Event>
    ensures { result ≡ event_of line.now }
{
    if let Some(rest) = line.strip_prefix(b"(normal") {
        let [t, k, b, _] = text::numbers_from(rest, 3)?;
        return Some(Event::Normal { t, k, b });
    }
    if let Some(rest) = line.strip_prefix(b"(high") {
        let [t, k, b, _] = text::numbers_from(rest, 3)?;
        return Some(Event::High { t, k, b });
    }
    if let Some(rest) = line.strip_prefix(b"(off") {
        let [t, k, _, _] = text::numbers_from(rest, 2)?;
        return Some(Event::Off { t, k });
    }
    if let Some(rest) = line.strip_prefix(b"(reserve") {
        let [t, k, n, b] = text::numbers_from(rest, 4)?;
        return Some(Event::Reserve { t, k, n, b });
    }
    if let Some(rest) = line.strip_prefix(b"(until") {
        let [t, _, _, _] = text::numbers_from(rest, 1)?;
        return Some(Event::Until { t });
    }
    None
}
