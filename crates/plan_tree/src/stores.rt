// What is stored in a plan's tables for a node and for a hub, which have cells at their port and of their own.
ghost use Rattle.std.specs.Prelude.{◌≡◌, ◌≤◌};
ghost use Rattle.plan_tree.specs.Tables.{put_node, put_hub};

use crate::{
    HUB_CODE, HUBS, LEVEL, NODE_HUB, NODE_PORT, NODES, PARENT, PER_HUB, PER_NODE, PLACE, PORT, Plan,
};

pub(crate) fn put_node(s: &mut Plan, g: u32, q: u32, k: u32)
    requires le_g { (1 ≤ g) × (g ≤ 32) }
    requires q_bound { q ≤ 32 }
    requires le_k { (1 ≤ k) × (k ≤ 256) }
    ensures { s.new ≡ put_node g q k s.old }
{
    let at = HUBS + (g as usize - 1) * PER_HUB + (PORT + q as usize);
    let own = NODES + (k as usize - 1) * PER_NODE;
    s[at] = k;
    s[own + NODE_HUB] = g;
    s[own + NODE_PORT] = q;
}

pub(crate) fn put_hub(s: &mut Plan, g: u32, q: u32, h: u32, level: u32)
    requires le_g { (1 ≤ g) × (g ≤ 32) }
    requires q_bound { q ≤ 32 }
    requires le_h { (1 ≤ h) × (h ≤ 32) }
    ensures { s.new ≡ put_hub g q h level s.old }
{
    let at = HUBS + (g as usize - 1) * PER_HUB + (PORT + q as usize);
    let own = HUBS + (h as usize - 1) * PER_HUB;
    s[at] = HUB_CODE + h;
    s[own + PARENT] = g;
    s[own + PLACE] = q;
    s[own + LEVEL] = level;
}
