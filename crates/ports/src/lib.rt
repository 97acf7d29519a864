// A hub's ports as a mask of 32 bits: bit p - 1 says whether port p is shown. The contracts speak of ports alone.
#![tactic(auto)]

ghost use Rattle.std.specs.Prelude.{◌≡◌};
ghost use Rattle.ports.specs.Ports.{with_port, put_port, any_port};
ghost use Rattle.ports.specs.Mask.{shows, mask_of};
ghost use Rattle.ports.specs.Search.{lowest_from};

// The mask with `port` shown as well where `shown` holds. A number that is no port changes nothing.
pub fn with_port(mask: u32, port: u32, shown: bool) -> u32
    ensures { result ≡ mask_of (with_port (shows mask) port shown) }
{
    if port < 1 || 32 < port {
        return mask;
    }
    mask | ((shown as u32) << (port - 1))
}

// The mask with `port` shown just where `shown` holds, and the others as they were. A number that is no port changes nothing.
pub fn put_port(mask: u32, port: u32, shown: bool) -> u32
    ensures { result ≡ mask_of (put_port (shows mask) port shown) }
{
    if port < 1 || 32 < port {
        return mask;
    }
    let bit: u32 = 1 << (port - 1);
    (mask & !bit) | ((shown as u32) << (port - 1))
}

// Whether some port is shown: a hub's summary for its parent.
pub fn any_shown(mask: u32) -> bool
    ensures { result ≡ any_port (shows mask) }
{
    mask != 0
}

// The lowest-numbered port shown at or after `pointer`. The ports are rotated
// so that the pointer's port is lowest, and the answer is rotated back.
pub fn lowest(mask: u32, pointer: u32) -> Option<u32>
    ensures { result ≡ lowest_from (shows mask) pointer }
{
    // one past the last port, or beyond, nothing is rotated
    if 33 <= pointer {
        return None;
    }
    if 1 <= pointer {
        let rotation = pointer - 1;
        let rotated = (mask >> rotation) | (mask << ((32 - rotation) % 32));
        let zeros = u32::trailing_zeros(rotated);
        // the ports below the pointer have gone round, behind the last one
        if zeros <= 32 - pointer {
            return Some(zeros + pointer);
        }
        return None;
    }
    // before the first port nothing has to be rotated
    let zeros = u32::trailing_zeros(mask);
    if zeros < 32 { Some(zeros + 1) } else { None }
}
